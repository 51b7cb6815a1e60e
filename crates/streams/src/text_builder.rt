//! A text that is built piece by piece.
ghost use Rattle.std.specs.Prelude.{[], ◌++◌, IfOk, decimal};
ghost use Rattle.std.specs.Fmt.{signed_decimal};
ghost use Rattle.streams.specs.TextBuilder.{Adds, Holds};

use desk::NoMemory;
use itoa::Buffer;
use std::alloc::Global;

/// A text that is built piece by piece. Where memory is wanting for a piece, it and all later ones
/// are left out: the steps say nothing of it, and who asks for the text is told.
#[derive(Drop)]
pub struct TextBuilder {
    bytes: Vec<u8>,
    is_whole: bool,
}

impl TextBuilder {
    /// A text to which nothing was added.
    pub fn new(alloc: Global) -> TextBuilder
        ensures { Holds result [] }
    {
        TextBuilder {
            bytes: Vec::new(alloc),
            is_whole: true,
        }
    }

    /// Begins anew, with the room that there is.
    pub fn clear(&mut self)
        ensures { Holds self.new [] }
    {
        self.bytes.clear();
        self.is_whole = true;
    }

    /// Adds a piece.
    pub fn put(&mut self, piece: &[u8])
        ensures { Adds self.old self.new piece.now }
    {
        if self.is_whole {
            self.is_whole = self.bytes.extend_from_slice(piece).is_ok();
        }
    }

    /// Adds two pieces.
    pub fn put_two(&mut self, first: &[u8], second: &[u8])
        ensures { Adds self.old self.new (first.now ++ second.now) }
    {
        self.put(first);
        self.put(second);
    }

    /// Adds a label and a number in decimal.
    pub fn put_number(&mut self, label: &[u8], n: u64)
        ensures { Adds self.old self.new (label.now ++ decimal n) }
    {
        let mut buffer = Buffer::new();
        self.put_two(label, buffer.format(n).as_bytes());
    }

    /// Adds a label and a number that may be negative, in decimal.
    pub fn put_signed(&mut self, label: &[u8], n: i64)
        ensures { Adds self.old self.new (label.now ++ signed_decimal n) }
    {
        let mut buffer = Buffer::new();
        self.put_two(label, buffer.format(n).as_bytes());
    }

    /// The text.
    ///
    /// Errors: `NoMemory` where memory was wanting for a piece.
    pub fn whole(&self) -> Result<&[u8], NoMemory>
        ensures { IfOk result (λ bytes. Holds self.now bytes.now) }
    {
        if self.is_whole {
            Ok(&self.bytes)
        } else {
            Err(NoMemory)
        }
    }

    /// The text, which is handed out.
    ///
    /// Errors: `NoMemory` where memory was wanting for a piece.
    pub fn build(self) -> Result<Vec<u8>, NoMemory>
        ensures { IfOk result (λ bytes. Holds self bytes.items) }
    {
        if self.is_whole {
            Ok(self.bytes)
        } else {
            Err(NoMemory)
        }
    }
}
