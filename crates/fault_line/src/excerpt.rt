//! As much of a text as a fault's line has room for.
ghost use Rattle.std.specs.Prelude.{◌≡◌};
ghost use Rattle.fault_line.specs.Excerpt.{excerpt_of, shown_byte};

use arrayvec::ArrayVec;

// So many bytes of a text are told, at most.
const MAX_EXCERPT: usize = 160;

/// The first bytes of a text, 160 at most. They take no memory, so that want of memory hides none.
pub type Excerpt = ArrayVec<u8, MAX_EXCERPT>;

/// As much of a text as a fault's line has room for, without what would end the line.
pub fn excerpt_of(text: &[u8]) -> Excerpt
    ensures { result.items ≡ excerpt_of text.now }
{
    let front = &text[..text.len().min(MAX_EXCERPT)];
    let mut shown = Excerpt::new();
    for byte in front {
        shown.push(shown_byte(*byte));
    }
    shown
}

// A byte as it is shown: a question mark for a control character.
fn shown_byte(byte: u8) -> u8
    ensures { result ≡ shown_byte byte }
{
    if byte < 32 || byte == 127 { b'?' } else { byte }
}
