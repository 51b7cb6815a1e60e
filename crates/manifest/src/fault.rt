//! Why a line spells no command.
ghost use Rattle.std.specs.Prelude.{◌≡◌, Some, None, option_map};
ghost use Rattle.manifest.specs.Fault.{number_of, name_of, field_of};
ghost use Rattle.manifest.specs.declared.fault.LineFault.TheVariants as faults;

use crate::field::Field;
use std::alloc::AllocError;
use std::fmt;
use thiserror::Error;

/// The first fault of a line.
#[derive(Clone, Copy, Debug, Error)]
pub enum LineFault {
    /// The line is not JSON, or nests too deep.
    NotJson,
    /// The field is missing or of another type, its text is no name, or the operation is unknown.
    BadField(Field),
    /// The field's text is no amount, or the amount is too large.
    Quantity(Field),
    /// The field's number is outside its range. Of `op`: the line is too long.
    OverLimit(Field),
    /// No memory was left to read the line.
    NoMemory,
}

impl LineFault {
    /// The fault's number, as messages tell it.
    pub fn number(self) -> u8
        ensures { result ≡ number_of self }
    {
        match self {
            LineFault::NotJson => 1,
            LineFault::BadField(_) => 2,
            LineFault::Quantity(_) => 3,
            LineFault::OverLimit(_) => 4,
            LineFault::NoMemory => 5,
        }
    }

    /// The fault's name, as messages tell it.
    pub fn name(self) -> &'static str
        ensures { result.now ≡ name_of self }
    {
        match self {
            LineFault::NotJson => "NotJson",
            LineFault::BadField(_) => "BadField",
            LineFault::Quantity(_) => "Quantity",
            LineFault::OverLimit(_) => "OverLimit",
            LineFault::NoMemory => "NoMemory",
        }
    }

    /// The field in which the fault stands.
    pub fn field(self) -> Option<Field>
        ensures { result ≡ field_of self }
    {
        match self {
            LineFault::BadField(field) | LineFault::Quantity(field) | LineFault::OverLimit(field) =>
                { Some(field) }
            LineFault::NotJson | LineFault::NoMemory => None,
        }
    }
}

impl From<AllocError> for LineFault {
    ghost from_gives = { λ _ fault. fault ≡ faults.NoMemory };

    fn from(_refused: AllocError) -> Self {
        LineFault::NoMemory
    }
}

impl fmt::Display for LineFault {
    fn fmt<W: fmt::Write>(&self, f: &mut fmt::Formatter<W>) -> fmt::Result {
        f.write_str(self.name())
    }
}
