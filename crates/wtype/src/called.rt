//! The exports that are called.

ghost use Rattle.std.specs.Prelude.{◌≡◌, MatchOption};
ghost use Rattle.wmodule.specs.Syntax.{module_of};
ghost use Rattle.wtype.specs.Accepted.{ImportsRight, ExportsRight, filter_name, score_name};
ghost use Rattle.wtype.specs.CheckedModule.{index_named};

use crate::exports::{find_export, is_right};
use wcode::ValueType;
use wmodule::Module;

/// The indices of the functions that are called, the imported ones counted first.
#[derive(Clone, Copy)]
pub struct Called {
    pub filter: Option<u32>,
    pub score: Option<u32>,
}

/// The functions that are called, where the exports are right.
pub fn find_called(decoded: &Module) -> Option<Called>
    requires { ImportsRight (module_of decoded.now) }
    ensures { MatchOption result (ExportsRight (module_of decoded.now)
        → ⊥) (λ called. ExportsRight (module_of decoded.now) × (called.filter ≡ index_named filter_name (module_of decoded.now))
        × (called.score ≡ index_named score_name (module_of decoded.now))) }
{
    let exports = decoded.tables().exports.as_slice();
    let filter = find_export(exports, b"filter".as_slice());
    let score = find_export(exports, b"score".as_slice());
    let called = (filter.is_some() || score.is_some())
        && is_right(decoded, filter, ValueType::I32)
        && is_right(decoded, score, ValueType::I64);
    if called {
        Some(Called {
            filter: filter.map(|export| export.index),
            score: score.map(|export| export.index),
        })
    } else {
        None
    }
}
