//! The imports that a module may have: the functions of the host.

ghost use Rattle.std.specs.Prelude.{◌≡◌, ◌≤◌, ◌+◌, [], ◌∷◌, Some, None, IsSome, MatchBool, if◌then◌else◌, codes};
ghost use Rattle.std.specs.List.{AllByRecursion};
ghost use Rattle.std.specs.Str.{bytes_eq};
ghost use Rattle.wmodule.specs.Syntax.{module_of, signature_of, import_of};
ghost use Rattle.wtype.specs.Accepted.{ImportAllowed, ImportsRight, IsImportOf, host_number as defined_number, host_type};

use crate::function_types::listed;
use wcode::ValueType;
use wmodule::{FunctionType, Import, ImportKind, Module};

/// The number of the host's function that is imported by this module's name and this name, if there
/// is one: 0 is `sched.pod`, 1 is `sched.node`, 2 is `sched2.pod`, 3 is `sched2.node`, 4 is
/// `sched3.pod`, 5 is `sched3.node`.
pub fn host_number(from: &[u8], name: &[u8]) -> Option<usize>
    ensures { defined_number (from.now, name.now) ≡ result }
{
    if from == b"sched".as_slice() {
        number_from(0, name)
    } else if from == b"sched2".as_slice() {
        number_from(2, name)
    } else if from == b"sched3".as_slice() {
        number_from(4, name)
    } else {
        None
    }
}

// The number of the function of this name, where the pod's has this one and the node's the next.
fn number_from(first: usize, name: &[u8]) -> Option<usize>
    requires { first ≤ 4 }
    ensures { result ≡ (if bytes_eq name.now (codes "pod") then Some first
        else (if bytes_eq name.now (codes "node") then Some (first + 1) else None)) }
{
    if name == b"pod".as_slice() {
        Some(first)
    } else if name == b"node".as_slice() {
        Some(first + 1)
    } else {
        None
    }
}

// The names are those of one of the host's functions.
fn is_named(import: &Import) -> bool
    ensures { MatchBool result (IsSome (defined_number (import.now.module.items, import.now.name.items)))
        (IsSome (defined_number (import.now.module.items, import.now.name.items)) → ⊥) }
{
    host_number(import.module.as_slice(), import.name.as_slice()).is_some()
}

// It takes two numbers and gives one.
fn is_host_type(found: &FunctionType) -> bool
    ensures { MatchBool result (signature_of found.now ≡ host_type) (signature_of found.now ≡ host_type → ⊥) }
{
    match (found.parameters.as_slice(), found.result) {
        ([ValueType::I32, ValueType::I32], Some(ValueType::I32)) => true,
        _ => false,
    }
}

// What is imported is a function of the host's type.
fn is_host_function(decoded: &Module, kind: ImportKind) -> bool
    ensures { MatchBool result (IsImportOf (module_of decoded.now) host_type kind)
        (IsImportOf (module_of decoded.now) host_type kind → ⊥) }
{
    let ImportKind::Function(index) = kind else {
        return false;
    };
    match listed(decoded, index) {
        Some(found) => is_host_type(found),
        None => false,
    }
}

// It is one of the host's functions.
fn is_allowed(decoded: &Module, import: &Import) -> bool
    ensures { MatchBool result (ImportAllowed (module_of decoded.now) (import_of import.now))
        (ImportAllowed (module_of decoded.now) (import_of import.now) → ⊥) }
{
    is_named(import) && is_host_function(decoded, import.kind)
}

// Each of these imports is one of the host's functions.
fn are_allowed(decoded: &Module, imports: &[Import]) -> bool
    ensures { MatchBool result (AllByRecursion (λ i. ImportAllowed (module_of decoded.now) (import_of i)) imports.now)
        (AllByRecursion (λ i. ImportAllowed (module_of decoded.now) (import_of i)) imports.now → ⊥) }
{
    for import in imports {
        if !is_allowed(decoded, import) {
            return false;
        }
    }
    true
}

// Each import is one of the host's functions.
pub fn imports_right(decoded: &Module) -> bool
    ensures { MatchBool result (ImportsRight (module_of decoded.now)) (ImportsRight (module_of decoded.now) → ⊥) }
{
    are_allowed(decoded, decoded.tables().imports.as_slice())
}
