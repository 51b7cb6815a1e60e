//! Why a rule is cut off.
ghost use Rattle.std.specs.Prelude.{◌≡◌};

use std::fmt;
use thiserror::Error;

/// Why a rule is cut off, where it is a module's function (WebAssembly Core 1.0, 4.4, where an
/// instruction "traps").
#[derive(Clone, Copy, PartialEq, Eq, Debug, Error)]
pub enum Trap {
    Unreachable = 1,
    DivideByZero = 2,
    IntegerOverflow = 3,
    MemoryOutOfBounds = 4,
    /// A place past the end of the table.
    UndefinedElement = 5,
    /// A place of the table that has no function.
    UninitializedElement = 6,
    /// A function of the table of another type than the one that is wanted.
    SignatureMismatch = 7,
    /// More than 256 frames at once.
    CallDepth = 8,
    /// A record doesn't fit into the memory from where it is wanted.
    HostOutOfBounds = 9,
    /// A host function is called whose record isn't given.
    NoRecord = 10,
}

impl Trap {
    ghost use Rattle.rules.specs.Trap.{number_of, name_of};

    /// The trap's number.
    pub fn number(self) -> u8
        ensures { result ≡ number_of self }
    {
        self as u8
    }

    /// The trap's name: the variant as it is written.
    pub fn name(self) -> &'static str
        ensures { result.now ≡ name_of self }
    {
        match self {
            Trap::Unreachable => "Unreachable",
            Trap::DivideByZero => "DivideByZero",
            Trap::IntegerOverflow => "IntegerOverflow",
            Trap::MemoryOutOfBounds => "MemoryOutOfBounds",
            Trap::UndefinedElement => "UndefinedElement",
            Trap::UninitializedElement => "UninitializedElement",
            Trap::SignatureMismatch => "SignatureMismatch",
            Trap::CallDepth => "CallDepth",
            Trap::HostOutOfBounds => "HostOutOfBounds",
            Trap::NoRecord => "NoRecord",
        }
    }
}

impl fmt::Display for Trap {
    fn fmt<W: fmt::Write>(&self, f: &mut fmt::Formatter<W>) -> fmt::Result {
        write!(f, "{}", self.name())
    }
}
