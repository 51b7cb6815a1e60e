//! Why a run ended early.
ghost use Rattle.std.specs.Prelude.{◌≡◌};
ghost use Rattle.streams.specs.Fault.{number_of, name_of};
ghost use Rattle.streams.specs.declared.fault.RunFault.TheVariants as faults;

use desk::{NoMemory, NoPlace};
use manifest::LineFault;
use std::alloc::AllocError;
use std::fmt;
use thiserror::Error;

/// Why a run ended early.
#[derive(Clone, Copy, Debug, Error)]
pub enum RunFault {
    /// The line of this number, counted from 1, is the script's first faulty one, by this fault.
    Line(u64, LineFault),
    /// No memory was left.
    NoMemory,
    /// A read of the script failed.
    Read,
    /// A write of the output failed.
    Write,
    /// The desk had no pass left.
    NoPlace,
}

impl RunFault {
    /// The fault's number, as messages tell it. At a faulty line they tell the line's own fault.
    pub fn number(self) -> u8
        ensures { result ≡ number_of self }
    {
        match self {
            RunFault::Line(_, _) => 1,
            RunFault::NoMemory => 2,
            RunFault::Read => 3,
            RunFault::Write => 4,
            RunFault::NoPlace => 5,
        }
    }

    /// The fault's name, as messages tell it.
    pub fn name(self) -> &'static str
        ensures { result.now ≡ name_of self }
    {
        match self {
            RunFault::Line(_, _) => "Line",
            RunFault::NoMemory => "NoMemory",
            RunFault::Read => "Read",
            RunFault::Write => "Write",
            RunFault::NoPlace => "NoPlace",
        }
    }
}

impl fmt::Display for RunFault {
    fn fmt<W: fmt::Write>(&self, f: &mut fmt::Formatter<W>) -> fmt::Result {
        match self {
            RunFault::Line(number, fault) => write!(f, "line {number}: {fault}"),
            _ => write!(f, "{} {}", self.number(), self.name()),
        }
    }
}

impl From<AllocError> for RunFault {
    ghost from_gives = { λ _ fault. fault ≡ faults.NoMemory };

    fn from(_refused: AllocError) -> Self {
        RunFault::NoMemory
    }
}

impl From<NoMemory> for RunFault {
    ghost from_gives = { λ _ fault. fault ≡ faults.NoMemory };

    fn from(_refused: NoMemory) -> Self {
        RunFault::NoMemory
    }
}

impl From<NoPlace> for RunFault {
    ghost from_gives = { λ _ fault. fault ≡ faults.NoPlace };

    fn from(_refused: NoPlace) -> Self {
        RunFault::NoPlace
    }
}
