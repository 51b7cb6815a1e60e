//! The rules of a module but for its bodies (WebAssembly Core 1.0, 3.4.10).

ghost use Rattle.std.specs.Prelude.{◌≡◌, ◌<◌, ◌≤◌, IfOk, IfSome, IsSome, MatchBool, length, slice_get};
ghost use Rattle.std.specs.List.{AllByRecursion};
ghost use Rattle.wmodule.specs.Syntax.{module_of, signature_of};
ghost use Rattle.wtype.specs.Accepted.{ImportsRight, RulesKept, LimitsRight, table_range, memory_range, HasType, start_type, ExportsNamed, GlobalTyped, ElementTyped, DataTyped};

use crate::exports::{are_there, have_distinct_names};
use crate::function_types::takes_nothing;
use crate::globals::{datas_typed, elements_typed, globals_typed};
use crate::limits::are_right;
use std::alloc::{AllocError, Global};
use wmodule::{FunctionType, Module};

/// The most pages of a memory, and the most elements of a table.
const MEMORY_RANGE: u64 = 65536;

const TABLE_RANGE: u64 = 4294967296;

// Each is the index of a type.
fn are_types(types: &[FunctionType], signatures: &[u32]) -> bool
    ensures { MatchBool result (AllByRecursion (λ s. s < length types.now) signatures.now)
        (AllByRecursion (λ s. s < length types.now) signatures.now → ⊥) }
{
    for signature in signatures {
        if *signature as usize >= types.len() {
            return false;
        }
    }
    true
}

// The function's types are there.
fn types_there(decoded: &Module) -> bool
    ensures { MatchBool result (AllByRecursion (λ f. IsSome (slice_get (module_of decoded.now).types f.signature))
        (module_of decoded.now).functions)
        (AllByRecursion (λ f. IsSome (slice_get (module_of decoded.now).types f.signature)) (module_of decoded.now).functions → ⊥) }
{
    let tables = decoded.tables();
    are_types(tables.types.as_slice(), tables.signatures.as_slice())
}

// There is one table at most, and its sizes are right.
fn tables_kept(decoded: &Module) -> bool
    ensures { MatchBool result ((length (module_of decoded.now).tables ≤ 1)
        × AllByRecursion (LimitsRight table_range) (module_of decoded.now).tables) ((length (module_of decoded.now).tables ≤ 1)
        × AllByRecursion (LimitsRight table_range) (module_of decoded.now).tables → ⊥) }
{
    let tables = decoded.tables().tables.as_slice();
    tables.len() <= 1 && are_right(tables, TABLE_RANGE)
}

// There is one memory at most, and its sizes are right.
fn memories_kept(decoded: &Module) -> bool
    ensures { MatchBool result ((length (module_of decoded.now).memories ≤ 1)
        × AllByRecursion (LimitsRight memory_range) (module_of decoded.now).memories) ((length (module_of decoded.now).memories ≤ 1)
        × AllByRecursion (LimitsRight memory_range) (module_of decoded.now).memories → ⊥) }
{
    let memories = decoded.tables().memories.as_slice();
    memories.len() <= 1 && are_right(memories, MEMORY_RANGE)
}

// Each global begins with a constant of its type.
fn globals_kept(decoded: &Module) -> bool
    ensures { MatchBool result (AllByRecursion GlobalTyped (module_of decoded.now).globals)
        (AllByRecursion GlobalTyped (module_of decoded.now).globals → ⊥) }
{
    globals_typed(decoded, decoded.tables().globals.as_slice())
}

// What is called at the start takes nothing and gives nothing.
fn start_kept(decoded: &Module) -> bool
    requires { ImportsRight (module_of decoded.now) }
    ensures { MatchBool result (IfSome (module_of decoded.now).start (HasType (module_of decoded.now) start_type))
        (IfSome (module_of decoded.now).start (HasType (module_of decoded.now) start_type) → ⊥) }
{
    match decoded.tables().start {
        None => true,
        Some(index) => takes_nothing(decoded, index, None),
    }
}

// The segments of the table.
fn elements_kept(decoded: &Module) -> bool
    requires { ImportsRight (module_of decoded.now) }
    ensures { MatchBool result (AllByRecursion (ElementTyped (module_of decoded.now))
        (module_of decoded.now).element_segments)
        (AllByRecursion (ElementTyped (module_of decoded.now)) (module_of decoded.now).element_segments → ⊥) }
{
    elements_typed(decoded, decoded.tables().element_segments.as_slice())
}

// The segments of the memory.
fn datas_kept(decoded: &Module) -> bool
    ensures { MatchBool result (AllByRecursion (DataTyped (module_of decoded.now))
        (module_of decoded.now).data_segments)
        (AllByRecursion (DataTyped (module_of decoded.now)) (module_of decoded.now).data_segments → ⊥) }
{
    datas_typed(decoded, decoded.tables().data_segments.as_slice())
}

// Each export names something, and no two have one name.
fn exports_kept(alloc: Global, decoded: &Module) -> Result<bool, AllocError>
    requires { ImportsRight (module_of decoded.now) }
    ensures { IfOk result (λ kept. MatchBool kept (ExportsNamed (module_of decoded.now))
        (ExportsNamed (module_of decoded.now) → ⊥)) }
{
    let exports = decoded.tables().exports.as_slice();
    if are_there(decoded, exports) {
        have_distinct_names(alloc, exports)
    } else {
        Ok(false)
    }
}

/// All rules but those of bodies.
pub fn are_kept(alloc: Global, decoded: &Module) -> Result<bool, AllocError>
    requires { ImportsRight (module_of decoded.now) }
    ensures { IfOk result (λ kept. MatchBool kept (RulesKept (module_of decoded.now))
        (RulesKept (module_of decoded.now) → ⊥)) }
{
    let kept = types_there(decoded)
        && tables_kept(decoded)
        && memories_kept(decoded)
        && globals_kept(decoded)
        && start_kept(decoded)
        && elements_kept(decoded)
        && datas_kept(decoded);
    if kept {
        exports_kept(alloc, decoded)
    } else {
        Ok(false)
    }
}
