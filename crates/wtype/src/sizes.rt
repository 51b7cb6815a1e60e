//! How large the parts of a module are.

ghost use Rattle.std.specs.Prelude.{◌≡◌, ◌+◌, ◌<◌, ◌≤◌, Some, length, slice_get, vec_len, MatchBool, MatchOption};
ghost use Rattle.std.specs.List.{AllByRecursion};
ghost use Rattle.wmodule.specs.Syntax.{Signature, FunctionSyntax, module_of, locals_of};
ghost use Rattle.wtype.specs.Accepted.{most_slots, FunctionSmall, ModuleSmall};
ghost use Rattle.wtype.specs.CheckedModule.{NotesAgree};

use crate::function_types::listed;
use crate::limits::are_small;
use wbody::Notes;
use wmodule::{LocalRun, Module};

/// The most parameters, locals and operands of a function together.
const MOST_SLOTS: usize = 1024;

/// The most pages that a memory begins with, the most elements of a table, and the most globals.
const MOST_PAGES: u32 = 32;

const MOST_ELEMENTS: u32 = 1024;

const MOST_GLOBALS: usize = 1024;

/// How many locals the runs have, unless they are more than 1,024.
pub fn count_locals(runs: &[LocalRun]) -> Option<usize>
    ensures { MatchOption result (most_slots < length (locals_of runs.now)) (λ n. (n ≡ length (locals_of runs.now)) ×
        (n ≤ most_slots)) }
{
    let mut count = 0;
    for run in runs {
        let more = run.count as usize;
        if more > MOST_SLOTS - count {
            return None;
        }
        count += more;
    }
    Some(count)
}

// So many parameters, these locals and so many operands are no more than there may be.
fn fits(parameters: usize, runs: &[LocalRun], greatest: usize) -> bool
    ensures { MatchBool result (parameters + length (locals_of runs.now) + greatest ≤ most_slots)
        (parameters + length (locals_of runs.now) + greatest ≤ most_slots → ⊥) }
{
    match count_locals(runs) {
        Some(locals) => {
            parameters <= MOST_SLOTS - locals && greatest <= MOST_SLOTS - locals - parameters
        }
        None => false,
    }
}

// The function at this place has no more parameters, locals and operands than there may be.
fn function_small(decoded: &Module, place: usize, greatest: usize) -> bool
    requires { place < vec_len decoded.now.tables.codes }
    ensures { (f : FunctionSyntax) (type : Signature) → slice_get (module_of decoded.now).functions place ≡ Some f
        → slice_get (module_of decoded.now).types f.signature ≡ Some type
        → MatchBool result (length type.parameters + length f.locals + greatest ≤ most_slots)
        (length type.parameters + length f.locals + greatest ≤ most_slots → ⊥) }
{
    let tables = decoded.tables();
    match listed(decoded, tables.signatures[place]) {
        Some(found) => fits(
            found.parameters.len(),
            tables.codes[place].locals.as_slice(),
            greatest,
        ),
        None => false,
    }
}

// Each function is small enough.
fn functions_small(decoded: &Module, notes: &[Notes]) -> bool
    requires agree { NotesAgree decoded.now notes.now }
    requires many { length notes.now ≡ vec_len decoded.now.tables.codes }
    ensures { MatchBool result (AllByRecursion (FunctionSmall (module_of decoded.now))
        (module_of decoded.now).functions)
        (AllByRecursion (FunctionSmall (module_of decoded.now)) (module_of decoded.now).functions → ⊥) }
{
    'functions: for place in 0..notes.len() {
        if !function_small(decoded, place, notes[place].greatest_height) {
            return false;
        }
    }
    true
}

/// Nothing is larger than it may be, where these are the notes of the bodies.
pub fn is_small(decoded: &Module, notes: &[Notes]) -> bool
    requires agree { NotesAgree decoded.now notes.now }
    requires many { length notes.now ≡ vec_len decoded.now.tables.codes }
    ensures { MatchBool result (ModuleSmall (module_of decoded.now)) (ModuleSmall (module_of decoded.now) → ⊥) }
{
    let tables = decoded.tables();
    functions_small(decoded, notes)
        && are_small(tables.memories.as_slice(), MOST_PAGES)
        && are_small(tables.tables.as_slice(), MOST_ELEMENTS)
        && tables.globals.len() <= MOST_GLOBALS
}
