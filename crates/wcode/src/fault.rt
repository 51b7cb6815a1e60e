//! Why bytes are refused.

ghost use Rattle.std.specs.Prelude.{◌≡◌, codes};
ghost use Rattle.wcode.specs.Fault.{kind_number, kind_name, number_of, name_of};
ghost use Rattle.wcode.specs.inside.Fault.{whole};

use std::fmt;
use thiserror::Error;

/// What is wrong with bytes that spell nothing.
#[derive(Clone, Copy, PartialEq, Eq, Debug)]
pub enum Kind {
    /// The bytes end where more are wanted.
    Truncated,
    /// The first four bytes aren't those of a module.
    BadMagic,
    /// The next four bytes aren't the version.
    BadVersion,
    /// A section's number or order, or contents that don't fill its size.
    BadSection,
    /// A number that is too long or too large.
    BadNumber,
    /// A type, or a byte that stands for a kind of thing.
    BadType,
    /// A byte that is no instruction.
    BadOpcode,
    /// A name that isn't UTF-8.
    BadName,
    /// As many functions as bodies are wanted.
    CountMismatch,
    /// Blocks nested more than 256 deep.
    TooDeep,
    /// More than 1,048,576 bytes.
    TooLong,
}

impl Kind {
    /// The number that is printed.
    pub fn number(self) -> u8
        ensures { result ≡ kind_number self }
    {
        match self {
            Kind::Truncated => 1,
            Kind::BadMagic => 2,
            Kind::BadVersion => 3,
            Kind::BadSection => 4,
            Kind::BadNumber => 5,
            Kind::BadType => 6,
            Kind::BadOpcode => 7,
            Kind::BadName => 8,
            Kind::CountMismatch => 9,
            Kind::TooDeep => 10,
            Kind::TooLong => 11,
        }
    }

    /// The name that is printed.
    pub fn name(self) -> &'static str
        ensures { result.now ≡ kind_name self }
    {
        match self {
            Kind::Truncated => "Truncated",
            Kind::BadMagic => "BadMagic",
            Kind::BadVersion => "BadVersion",
            Kind::BadSection => "BadSection",
            Kind::BadNumber => "BadNumber",
            Kind::BadType => "BadType",
            Kind::BadOpcode => "BadOpcode",
            Kind::BadName => "BadName",
            Kind::CountMismatch => "CountMismatch",
            Kind::TooDeep => "TooDeep",
            Kind::TooLong => "TooLong",
        }
    }
}

/// Why one instruction isn't read. No memory is taken, so none is wanting.
#[derive(Clone, Copy)]
pub enum OpFault {
    /// What is wrong, and the offset in the bytes of what can't be read.
    Malformed { kind: Kind, place: usize },
    /// A float instruction or type, which isn't in the profile.
    Float,
}

/// Why bytes aren't read.
#[derive(Clone, Copy, PartialEq, Eq, Debug, Error)]
pub enum BinFault {
    /// What is wrong, and the offset in the bytes of what can't be read.
    Malformed { kind: Kind, place: usize },
    /// A float instruction or type, which isn't in the profile.
    Float,
    /// Memory ran out.
    NoMemory,
}

impl BinFault {
    /// The number that is printed.
    pub fn number(self) -> u8
        ensures { result ≡ number_of self }
    {
        match self {
            BinFault::Malformed { .. } => 1,
            BinFault::Float => 2,
            BinFault::NoMemory => 3,
        }
    }

    /// The name that is printed.
    pub fn name(self) -> &'static str
        ensures { result.now ≡ name_of self }
    {
        match self {
            BinFault::Malformed { .. } => "Malformed",
            BinFault::Float => "Float",
            BinFault::NoMemory => "NoMemory",
        }
    }
}

impl fmt::Display for BinFault {
    fn fmt<W: fmt::Write>(&self, f: &mut fmt::Formatter<W>) -> fmt::Result {
        write!(f, "{} {}", self.number(), self.name())?;
        match self {
            BinFault::Malformed { kind, place } => {
                write!(f, " {} {} at {place}", kind.number(), kind.name())
            }
            BinFault::Float | BinFault::NoMemory => Ok(()),
        }
    }
}

impl From<OpFault> for BinFault {
    ghost from_gives = { λ f e. e ≡ whole f };

    fn from(fault: OpFault) -> BinFault {
        match fault {
            OpFault::Malformed { kind, place } => BinFault::Malformed { kind, place },
            OpFault::Float => BinFault::Float,
        }
    }
}
