//! Why there is no instance of a module.
ghost use Rattle.std.specs.Prelude.{◌≡◌, codes};
ghost use Rattle.whost.specs.Refused.{number_of, name_of};

use std::fmt;
use thiserror::Error;
use wmach::Trap;

/// What keeps an accepted module from being made an instance.
#[derive(Clone, Copy, PartialEq, Eq, Debug, Error)]
pub enum InstanceFault {
    /// A data segment passes the end of the memory. All element segments are in bounds.
    DataOutOfBounds,
    /// An element segment passes the end of the table.
    ElementOutOfBounds,
    /// The start function is cut off.
    StartTrap(Trap),
    /// The start function needs more fuel.
    StartExhausted,
    /// Memory ran out.
    NoMemory,
}

impl InstanceFault {
    /// The fault's number.
    pub fn number(self) -> u8
        ensures { result ≡ number_of self }
    {
        match self {
            InstanceFault::DataOutOfBounds => 1,
            InstanceFault::ElementOutOfBounds => 2,
            InstanceFault::StartTrap(_) => 3,
            InstanceFault::StartExhausted => 4,
            InstanceFault::NoMemory => 5,
        }
    }

    /// The fault's name: the variant as it is written.
    pub fn name(self) -> &'static str
        ensures { result.now ≡ name_of self }
    {
        match self {
            InstanceFault::DataOutOfBounds => "DataOutOfBounds",
            InstanceFault::ElementOutOfBounds => "ElementOutOfBounds",
            InstanceFault::StartTrap(_) => "StartTrap",
            InstanceFault::StartExhausted => "StartExhausted",
            InstanceFault::NoMemory => "NoMemory",
        }
    }
}

impl fmt::Display for InstanceFault {
    fn fmt<W: fmt::Write>(&self, f: &mut fmt::Formatter<W>) -> fmt::Result {
        match self {
            InstanceFault::StartTrap(trap) => write!(f, "{} {} {trap}", self.number(), self.name()),
            _ => write!(f, "{} {}", self.number(), self.name()),
        }
    }
}
