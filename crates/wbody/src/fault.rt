//! Why a module is refused.

ghost use Rattle.std.specs.Prelude.{◌≡◌, codes};
ghost use Rattle.wbody.specs.Fault.{number_of, name_of};

use std::fmt;
use thiserror::Error;

/// What is wrong with a module that the bytes spell.
#[derive(Clone, Copy, PartialEq, Eq, Debug, Error)]
pub enum TypeFault {
    /// A body without a typing, with the index of its function, or else a rule of the module that
    /// is broken. An index counts the imported functions first; `type_body` tells that among the
    /// bodies. The place is that of the first instruction at which the body's bytes up to there
    /// have no typing: of a missing `else` the `end`; 0 for a rule.
    Untyped {
        function: Option<usize>,
        place: usize,
    },
    /// An import that no module may have.
    BadImport,
    /// An export `filter` or `score` of another type, or neither of them.
    BadExport,
    /// More locals, operands, globals, pages or elements than there may be.
    OverLimit,
    /// Memory ran out.
    NoMemory,
}

impl TypeFault {
    /// The fault's number.
    pub fn number(self) -> u8
        ensures { result ≡ number_of self }
    {
        match self {
            TypeFault::Untyped { .. } => 1,
            TypeFault::BadImport => 2,
            TypeFault::BadExport => 3,
            TypeFault::OverLimit => 4,
            TypeFault::NoMemory => 5,
        }
    }

    /// The fault's name.
    pub fn name(self) -> &'static str
        ensures { result.now ≡ name_of self }
    {
        match self {
            TypeFault::Untyped { .. } => "Untyped",
            TypeFault::BadImport => "BadImport",
            TypeFault::BadExport => "BadExport",
            TypeFault::OverLimit => "OverLimit",
            TypeFault::NoMemory => "NoMemory",
        }
    }
}

impl fmt::Display for TypeFault {
    fn fmt<W: fmt::Write>(&self, f: &mut fmt::Formatter<W>) -> fmt::Result {
        write!(f, "{} {}", self.number(), self.name())
    }
}
