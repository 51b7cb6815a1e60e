//! The exports of a module: what they name, their names, and those that are called.

ghost use Rattle.std.specs.Prelude.{◌≡◌, ℕ, [], Some, IfOk, IfSome, IsTrue, MatchBool, map, nat_lt, option_map};
ghost use Rattle.std.specs.List.{AllByRecursion};
ghost use Rattle.wmodule.specs.Syntax.{module_of, export_of};
ghost use Rattle.wtype.specs.Accepted.{ImportsRight, NamesSomething, export_named, gives, IsFunctionOf, DistinctNames};

use crate::function_types::{is_function, takes_nothing};
use std::alloc::{AllocError, Global};
use std::collections::BTreeSet;
use wcode::ValueType;
use wmodule::{Export, ExportKind, Module};

// The export names something.
fn is_there(decoded: &Module, export: &Export) -> bool
    requires { ImportsRight (module_of decoded.now) }
    ensures { MatchBool result (NamesSomething (module_of decoded.now) export.now.kind export.now.index)
        (NamesSomething (module_of decoded.now) export.now.kind export.now.index → ⊥) }
{
    let tables = decoded.tables();
    let place = export.index as usize;
    match export.kind {
        ExportKind::Function => is_function(decoded, export.index),
        ExportKind::Table => place < tables.tables.len(),
        ExportKind::Memory => place < tables.memories.len(),
        ExportKind::Global => place < tables.globals.len(),
    }
}

// Each of these does.
pub fn are_there(decoded: &Module, exports: &[Export]) -> bool
    requires { ImportsRight (module_of decoded.now) }
    ensures { MatchBool result (AllByRecursion (λ e. NamesSomething (module_of decoded.now) e.kind e.index) exports.now)
        (AllByRecursion (λ e. NamesSomething (module_of decoded.now) e.kind e.index) exports.now → ⊥) }
{
    for export in exports {
        if !is_there(decoded, export) {
            return false;
        }
    }
    true
}

// No two of them have one name. A set keeps this near linear in how many there are.
pub fn have_distinct_names(alloc: Global, exports: &[Export]) -> Result<bool, AllocError>
    ensures { IfOk result (λ distinct. MatchBool distinct (DistinctNames (map export_of exports.now))
        (DistinctNames (map export_of exports.now) → ⊥)) }
{
    let mut names: BTreeSet<&[u8]> = BTreeSet::new(alloc);
    for export in exports {
        if !names.insert(export.name.as_slice())? {
            return Ok(false);
        }
    }
    Ok(true)
}

// The first export of this name.
pub fn find_export<'a>(exports: &'a [Export], name: &[u8]) -> Option<&'a Export>
    ensures { export_named name.now (map export_of exports.now) ≡ option_map (λ e. export_of e.now) result }
{
    for export in exports {
        if export.name.as_slice() == name {
            return Some(export);
        }
    }
    None
}

// The export is a function that takes nothing and gives this.
fn is_called(decoded: &Module, export: &Export, wanted: ValueType) -> bool
    requires { ImportsRight (module_of decoded.now) }
    ensures { MatchBool result (IsFunctionOf (module_of decoded.now) (gives wanted) (export_of export.now))
        (IsFunctionOf (module_of decoded.now) (gives wanted) (export_of export.now) → ⊥) }
{
    match export.kind {
        ExportKind::Function => takes_nothing(decoded, export.index, Some(wanted)),
        _ => false,
    }
}

// Where there is such an export, it is a function that takes nothing and gives this.
pub fn is_right(decoded: &Module, export: Option<&Export>, wanted: ValueType) -> bool
    requires { ImportsRight (module_of decoded.now) }
    ensures { MatchBool result (IfSome (option_map (λ e. export_of e.now) export.entry)
        (IsFunctionOf (module_of decoded.now) (gives wanted)))
        (IfSome (option_map (λ e. export_of e.now) export.entry) (IsFunctionOf (module_of decoded.now) (gives wanted)) → ⊥) }
{
    match export {
        None => true,
        Some(export) => is_called(decoded, export, wanted),
    }
}
