//! Why a plugin isn't configured, and why there are no kits.
ghost use Rattle.std.specs.Prelude.{◌≡◌, codes};
ghost use Rattle.plugin.specs.Refused.{number_of, name_of};

use quant::Name;
use std::fmt;
use thiserror::Error;
use whost::InstanceFault;

/// What keeps a plugin from being added to those that are configured.
#[derive(Clone, Copy, Debug, Error)]
pub enum AddFault {
    /// One of this name is configured already.
    Twice,
    /// As many are configured as may be. None of them has this name.
    Full,
    /// Memory ran out.
    NoMemory,
}

/// Of all plugins, in the order in which they are configured, the first of which no instance can be
/// made, and why.
#[derive(Debug, Drop, Error)]
#[error("{} {}", self.plugin.as_str(), self.fault)]
pub struct KitFault {
    /// The plugin's name.
    pub plugin: Name,
    /// What keeps its module from being made an instance.
    pub fault: InstanceFault,
}

/// Why there are no kits of a site's plugins.
#[derive(Drop)]
pub enum NoKits {
    /// Of a plugin no instance can be made.
    NotReady(KitFault),
    /// Memory ran out, beside what an instance takes.
    NoMemory,
}

impl AddFault {
    /// The fault's number.
    pub fn number(self) -> u8
        ensures { result ≡ number_of self }
    {
        match self {
            AddFault::Twice => 1,
            AddFault::Full => 2,
            AddFault::NoMemory => 3,
        }
    }

    /// The fault's name: the variant as it is written.
    pub fn name(self) -> &'static str
        ensures { result.now ≡ name_of self }
    {
        match self {
            AddFault::Twice => "Twice",
            AddFault::Full => "Full",
            AddFault::NoMemory => "NoMemory",
        }
    }
}

impl fmt::Display for AddFault {
    fn fmt<W: fmt::Write>(&self, f: &mut fmt::Formatter<W>) -> fmt::Result {
        write!(f, "{} {}", self.number(), self.name())
    }
}
