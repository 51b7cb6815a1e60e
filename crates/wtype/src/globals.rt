//! Globals and their first values, and the segments of tables and memories.

ghost use Rattle.std.specs.Prelude.{◌≡◌, ◌<◌, All, length, MatchBool};
ghost use Rattle.std.specs.List.{AllByRecursion};
ghost use Rattle.wmodule.specs.Syntax.{module_of, global_in, element_in, data_in};
ghost use Rattle.wmodule.specs.Placed.{IsGlobal, IsElement, IsData};
ghost use Rattle.wbody.specs.Context.{function_types};
ghost use Rattle.wtype.specs.Accepted.{ImportsRight, GlobalTyped, ElementTyped, DataTyped};

use crate::constants::is_constant;
use crate::function_types::is_function;
use wcode::ValueType;
use wmodule::{DataSegment, ElementSegment, GlobalVariable, Module};

// Each begins with a constant of its type.
pub fn globals_typed(decoded: &Module, globals: &[GlobalVariable]) -> bool
    requires { All (IsGlobal decoded.now.bytes) globals.now }
    ensures { MatchBool result (AllByRecursion (λ g. GlobalTyped (global_in decoded.now.bytes g)) globals.now)
        (AllByRecursion (λ g. GlobalTyped (global_in decoded.now.bytes g)) globals.now → ⊥) }
{
    for global in globals {
        if !is_constant(decoded, global.first, global.kind.value) {
            return false;
        }
    }
    true
}

// Each is the index of a function.
fn are_functions(decoded: &Module, functions: &[u32]) -> bool
    requires { ImportsRight (module_of decoded.now) }
    ensures { MatchBool result (AllByRecursion (λ index. index < length (function_types (module_of decoded.now)))
        functions.now)
        (AllByRecursion (λ index. index < length (function_types (module_of decoded.now))) functions.now → ⊥) }
{
    for index in functions {
        if !is_function(decoded, *index) {
            return false;
        }
    }
    true
}

// The segment's table and functions are there, and its offset is a constant.
fn element_typed(decoded: &Module, segment: &ElementSegment) -> bool
    requires imports { ImportsRight (module_of decoded.now) }
    requires stands { IsElement decoded.now.bytes segment.now }
    ensures { MatchBool result (ElementTyped (module_of decoded.now) (element_in decoded.now.bytes segment.now))
        (ElementTyped (module_of decoded.now) (element_in decoded.now.bytes segment.now) → ⊥) }
{
    (segment.table as usize) < decoded.tables().tables.len()
        && is_constant(decoded, segment.offset, ValueType::I32)
        && are_functions(decoded, segment.functions.as_slice())
}

// That is so of each.
pub fn elements_typed(decoded: &Module, segments: &[ElementSegment]) -> bool
    requires imports { ImportsRight (module_of decoded.now) }
    requires stand { All (IsElement decoded.now.bytes) segments.now }
    ensures { MatchBool result (AllByRecursion (λ s. ElementTyped (module_of decoded.now)
        (element_in decoded.now.bytes s)) segments.now)
        (AllByRecursion (λ s. ElementTyped (module_of decoded.now) (element_in decoded.now.bytes s)) segments.now → ⊥) }
{
    for segment in segments {
        if !element_typed(decoded, segment) {
            return false;
        }
    }
    true
}

// The segment's memory is there, and its offset is a constant.
fn data_typed(decoded: &Module, segment: DataSegment) -> bool
    requires { IsData decoded.now.bytes segment }
    ensures { MatchBool result (DataTyped (module_of decoded.now) (data_in decoded.now.bytes segment))
        (DataTyped (module_of decoded.now) (data_in decoded.now.bytes segment) → ⊥) }
{
    (segment.memory as usize) < decoded.tables().memories.len()
        && is_constant(decoded, segment.offset, ValueType::I32)
}

// That is so of each.
pub fn datas_typed(decoded: &Module, segments: &[DataSegment]) -> bool
    requires { All (IsData decoded.now.bytes) segments.now }
    ensures { MatchBool result (AllByRecursion (λ s. DataTyped (module_of decoded.now) (data_in decoded.now.bytes s))
        segments.now)
        (AllByRecursion (λ s. DataTyped (module_of decoded.now) (data_in decoded.now.bytes s)) segments.now → ⊥) }
{
    for segment in segments {
        if !data_typed(decoded, *segment) {
            return false;
        }
    }
    true
}
