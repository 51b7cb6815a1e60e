//! The types of functions by their indices, the imported ones first.

ghost use Rattle.std.specs.Prelude.{◌≡◌, ◌+◌, ◌<◌, [], length, option_map, slice_get, nat_lt, MatchBool};
ghost use Rattle.std.specs.Option.{option_and_then};
ghost use Rattle.wmodule.specs.Syntax.{module_of, signature_of};
ghost use Rattle.wbody.specs.Context.{function_types};
ghost use Rattle.wtype.specs.Accepted.{ImportsRight, HasType};

use wcode::ValueType;
use wmodule::{FunctionType, ImportKind, Module};

// There is a function with this index.
pub fn is_function(decoded: &Module, index: u32) -> bool
    requires { ImportsRight (module_of decoded.now) }
    ensures { result ≡ nat_lt index (length (function_types (module_of decoded.now))) }
{
    let tables = decoded.tables();
    let place = index as usize;
    place < tables.imports.len() || place - tables.imports.len() < tables.signatures.len()
}

// The index of the type of a function.
fn type_index(decoded: &Module, index: u32) -> Option<u32>
    requires { ImportsRight (module_of decoded.now) }
    ensures { slice_get (function_types (module_of decoded.now)) index
        ≡ option_map (λ t. slice_get (module_of decoded.now).types t) result }
{
    let tables = decoded.tables();
    let place = index as usize;
    if place < tables.imports.len() {
        match tables.imports[place].kind {
            ImportKind::Function(t) => Some(t),
            _ => None,
        }
    } else {
        tables.signatures.get(place - tables.imports.len()).copied()
    }
}

/// The type that the module lists at this place.
pub fn listed(decoded: &Module, index: u32) -> Option<&FunctionType>
    ensures { slice_get (module_of decoded.now).types index ≡ option_map (λ t. signature_of t.now) result }
{
    decoded.tables().types.get(index as usize)
}

// It takes nothing, and gives this.
fn only_gives(found: &FunctionType, gives: Option<ValueType>) -> bool
    ensures { MatchBool result (signature_of found.now ≡ record { parameters = []; result = gives })
        (signature_of found.now ≡ record { parameters = []; result = gives } → ⊥) }
{
    found.parameters.is_empty() && found.result == gives
}

/// The type of the function with this index, the imported ones first, if there is one.
pub fn type_of_function(decoded: &Module, index: u32) -> Option<&FunctionType>
    requires { ImportsRight (module_of decoded.now) }
    ensures { option_and_then (λ t. t) (slice_get (function_types (module_of decoded.now)) index)
        ≡ option_map (λ t. signature_of t.now) result }
{
    match type_index(decoded, index) {
        Some(place) => listed(decoded, place),
        None => None,
    }
}

// The function takes nothing, and gives this.
pub fn takes_nothing(decoded: &Module, index: u32, gives: Option<ValueType>) -> bool
    requires { ImportsRight (module_of decoded.now) }
    ensures { MatchBool result (HasType (module_of decoded.now) (record { parameters = []; result = gives }) index)
        (HasType (module_of decoded.now) (record { parameters = []; result = gives }) index → ⊥) }
{
    let Some(listed_at) = type_index(decoded, index) else {
        return false;
    };
    match listed(decoded, listed_at) {
        Some(found) => only_gives(found, gives),
        None => false,
    }
}
