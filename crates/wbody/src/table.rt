//! What a branch by an index does to the operands.

ghost use Rattle.std.specs.Prelude.{◌≡◌, ℕ, ◌≤◌, List, ◌∷◌, length, drop, reverse, slice_get, Some, MatchBool};
ghost use Rattle.wcode.specs.declared.value.ValueType.TheVariants as types;
ghost use Rattle.wcode.specs.Grammar.{Word, table, SpellsIndices};
ghost use Rattle.wcode.specs.Shown.{Shows};
ghost use Rattle.wcode.specs.declared.instruction.Op.TheVariants as ops;
ghost use Rattle.wbody.specs.Context.{Context, at_most_one};
ghost use Rattle.wbody.specs.inside.Effect.{effect_type};
ghost use Rattle.wbody.specs.inside.Pass.{table_type};
ghost use Rattle.wbody.specs.inside.Scope.{labels_of, AllCarry};

use crate::operand_stack::Effect;
use crate::scope::{Level, Scope};
use wcode::{ValueType, read_label};

// A branch to the label carries this.
fn carries(scope: &Scope<'_>, levels: &[Level], label: u32, wanted: Option<ValueType>) -> bool
    ensures { MatchBool result (slice_get (labels_of levels.now scope.now.result) label ≡ Some (at_most_one wanted))
        (slice_get (labels_of levels.now scope.now.result) label ≡ Some (at_most_one wanted) → ⊥) }
{
    match scope.label(levels, label) {
        Some(found) => found == wanted,
        None => false,
    }
}

// A branch to each of so many labels, which stand there, carries this.
fn all_carry(
    scope: &Scope<'_>,
    levels: &[Level],
    bytes: &[u8],
    count: u32,
    at: usize,
    wanted: Option<ValueType>,
) -> bool
    requires { (at ≤ length bytes.now) × (labels rest : List ℕ) × (count ≡ length labels) ×
        SpellsIndices (drop at bytes.now) labels rest }
    ensures { (labels rest : List ℕ) → count ≡ length labels → SpellsIndices (drop at bytes.now) labels rest
        → MatchBool result (AllCarry (labels_of levels.now scope.now.result) (at_most_one wanted) labels)
        (AllCarry (labels_of levels.now scope.now.result) (at_most_one wanted) labels → ⊥) }
{
    let mut place = at;
    for _i in 0..count {
        let (label, next) = read_label(bytes, place);
        if !carries(scope, levels, label, wanted) {
            return false;
        }
        place = next;
    }
    true
}

// An i32 above what a label carries.
fn with_index(carries: Option<ValueType>) -> &'static [ValueType]
    ensures { reverse result.now ≡ types.I32 ∷ at_most_one carries }
{
    match carries {
        None => &[ValueType::I32],
        Some(ValueType::I32) => &[ValueType::I32, ValueType::I32],
        Some(ValueType::I64) => &[ValueType::I64, ValueType::I32],
    }
}

// What a branch by an index does, whose labels stand there. The default comes last of them, and all
// carry what the first one does.
pub fn table_effect(
    scope: &Scope<'_>,
    levels: &[Level],
    bytes: &[u8],
    count: u32,
    labels_at: usize,
) -> Effect<'static>
    requires { (w : Word) × Shows bytes.now (ops.BrTable count labels_at) w }
    ensures { (c : Context) (labels : List ℕ) (default : ℕ) →
        Shows bytes.now (ops.BrTable count labels_at) (table labels default)
        → c.labels ≡ labels_of levels.now scope.now.result → effect_type result ≡ table_type c labels default }
{
    let (first, next) = read_label(bytes, labels_at);
    let Some(carried) = scope.label(levels, first) else {
        return Effect::Untyped;
    };
    if all_carry(scope, levels, bytes, count, next, carried) {
        Effect::Ends {
            types: with_index(carried),
        }
    } else {
        Effect::Untyped
    }
}
