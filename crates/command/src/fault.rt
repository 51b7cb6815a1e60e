//! Why the program's words are refused.
ghost use Rattle.std.specs.Prelude.{◌≡◌};
ghost use Rattle.command.specs.Fault.{number_of, name_of};

use std::fmt;
use thiserror::Error;

/// Why the program's words were refused.
#[derive(Clone, Copy, Debug, Error)]
pub enum WordFault {
    /// The words ask for nothing that the program does.
    BadWords,
    /// No memory was left to read them.
    NoMemory,
}

impl WordFault {
    /// The fault's number, as messages tell it.
    pub fn number(self) -> u8
        ensures { result ≡ number_of self }
    {
        match self {
            WordFault::BadWords => 1,
            WordFault::NoMemory => 2,
        }
    }

    /// The fault's name, as messages tell it.
    pub fn name(self) -> &'static str
        ensures { result.now ≡ name_of self }
    {
        match self {
            WordFault::BadWords => "BadWords",
            WordFault::NoMemory => "NoMemory",
        }
    }
}

impl fmt::Display for WordFault {
    fn fmt<W: fmt::Write>(&self, f: &mut fmt::Formatter<W>) -> fmt::Result {
        write!(f, "{} {}", self.number(), self.name())
    }
}
