//! The bodies of a module, one after the other.

ghost use Rattle.std.specs.Prelude.{◌≡◌, ℕ, Option, Some, IfOk, IfErr, vec_len};
ghost use Rattle.wmodule.specs.Syntax.{module_of};
ghost use Rattle.wtype.specs.Accepted.{ImportsRight, RulesKept};
ghost use Rattle.wtype.specs.CheckedModule.{NotesAgree};
ghost use Rattle.wtype.specs.Refused.{WhyRefused};

use std::alloc::Global;
use wbody::{Notes, TypeFault, type_body};
use wmodule::Module;

// The fault of a body, told with the index of its function.
fn of_function(fault: TypeFault, index: usize) -> TypeFault
    ensures untyped { (function : Option ℕ) (place : ℕ) → fault ≡ TypeFault.Untyped function place →
        result ≡ TypeFault.Untyped (Some index) place }
    ensures same { fault ≡ TypeFault.NoMemory → result ≡ TypeFault.NoMemory }
{
    match fault {
        TypeFault::Untyped { place, .. } => TypeFault::Untyped {
            function: Some(index),
            place,
        },
        other => other,
    }
}

/// The notes of each body, or the first one that has no typing.
pub fn type_bodies(alloc: Global, decoded: &Module) -> Result<Vec<Notes>, TypeFault>
    requires imports { ImportsRight (module_of decoded.now) }
    requires rules { RulesKept (module_of decoded.now) }
    ensures typed { IfOk result (λ notes. NotesAgree decoded.now notes.items) }
    ensures many { IfOk result (λ notes. vec_len notes ≡ vec_len decoded.now.tables.codes) }
    ensures refused { IfErr result (WhyRefused (module_of decoded.now)) }
{
    let tables = decoded.tables();
    let mut notes = Vec::new(alloc);
    'bodies: for place in 0..tables.codes.len() {
        match type_body(alloc, decoded, place) {
            Ok(found) => {
                if notes.push(found).is_err() {
                    return Err(TypeFault::NoMemory);
                }
            }
            Err(fault) => return Err(of_function(fault, tables.imports.len() + place)),
        }
    }
    Ok(notes)
}
