//! What each plain instruction does to the operands.

ghost use Rattle.std.specs.Prelude.{◌≡◌, [], ◌∷◌};
ghost use Rattle.wbody.specs.Context.{Context, at_most_one};
ghost use Rattle.wbody.specs.Typing.{plain_type, convert_type, call_type, of_found, only_where, takes_gives};
ghost use Rattle.wbody.specs.inside.Effect.{effect_type};
ghost use Rattle.wbody.specs.inside.Scope.{IsScope, labels_of, type_found, NamesLocal, NamesGlobal, NamesMemory, NamesLabel, NamesCall};

use crate::operand_stack::Effect;
use crate::scope::{Level, Scope, alone, constant, may_access, moves, none_or_alone};
use wcode::{CvtOp, Plain, ValueType};
use wmodule::FunctionType;

// What an instruction does under these open blocks, the innermost last.
pub fn effect_of<'a>(scope: &Scope<'a>, levels: &[Level], plain: Plain) -> Effect<'a>
    ensures { (c : Context) → IsScope scope.now c → c.labels ≡ labels_of levels.now scope.now.result →
        effect_type result ≡ plain_type c plain }
{
    match plain {
        Plain::Const(value) => constant(value),
        Plain::Unary(t, _) => changes(t, t),
        Plain::Binary(t, _) => joins(t, t),
        Plain::Test(t, _) => changes(t, ValueType::I32),
        Plain::Relation(t, _) => joins(t, ValueType::I32),
        Plain::Convert(op) => convert_effect(op),
        Plain::Drop => Effect::Drops,
        Plain::Select => Effect::Selects,
        Plain::LocalGet(_) | Plain::LocalSet(_) | Plain::LocalTee(_) => local_effect(scope, plain),
        Plain::GlobalGet(_) | Plain::GlobalSet(_) => global_effect(scope, plain),
        Plain::Load(_, _) | Plain::Store(_, _) | Plain::MemorySize | Plain::MemoryGrow => {
            memory_effect(scope, plain)
        }
        Plain::Nop => moves(None, &[], None),
        Plain::Unreachable => Effect::Ends { types: &[] },
        Plain::Br(_) | Plain::BrIf(_) | Plain::Return => branch_effect(scope, levels, plain),
        Plain::Call(_) | Plain::CallIndirect(_) => call_effect(scope, plain),
    }
}

// It takes no operand, and gives one of this type.
fn gives<'a>(t: ValueType) -> Effect<'a>
    ensures { effect_type result ≡ takes_gives [] (t ∷ []) }
{
    moves(None, &[], Some(t))
}

// It takes one operand of this type, and gives none.
fn takes<'a>(t: ValueType) -> Effect<'a>
    ensures { effect_type result ≡ takes_gives (t ∷ []) [] }
{
    moves(Some(t), &[], None)
}

// It takes one operand of the first type, and gives one of the second.
fn changes<'a>(t: ValueType, given: ValueType) -> Effect<'a>
    ensures { effect_type result ≡ takes_gives (t ∷ []) (given ∷ []) }
{
    moves(Some(t), &[], Some(given))
}

// It takes two operands of the first type, and gives one of the second.
fn joins<'a>(t: ValueType, given: ValueType) -> Effect<'a>
    ensures { effect_type result ≡ takes_gives (t ∷ t ∷ []) (given ∷ []) }
{
    moves(Some(t), alone(t), Some(given))
}

// It does this only where that is so.
fn where_so<'a>(is: bool, effect: Effect<'a>) -> Effect<'a>
    ensures { effect_type result ≡ only_where is (effect_type effect.entry) }
{
    if is { effect } else { Effect::Untyped }
}

// A conversion.
fn convert_effect<'a>(op: CvtOp) -> Effect<'a>
    ensures { effect_type result ≡ convert_type op }
{
    match op {
        CvtOp::WrapI64 => changes(ValueType::I64, ValueType::I32),
        CvtOp::ExtendI32S | CvtOp::ExtendI32U => changes(ValueType::I32, ValueType::I64),
        CvtOp::Extend8S(t) | CvtOp::Extend16S(t) => changes(t, t),
        CvtOp::Extend32S => changes(ValueType::I64, ValueType::I64),
    }
}

// An instruction on a local.
fn local_effect<'a>(scope: &Scope<'a>, plain: Plain) -> Effect<'a>
    requires { NamesLocal plain }
    ensures { (c : Context) → IsScope scope.now c → effect_type result ≡ plain_type c plain }
{
    match plain {
        Plain::LocalGet(x) => match scope.local(x) {
            Some(t) => gives(t),
            None => Effect::Untyped,
        },
        Plain::LocalSet(x) => match scope.local(x) {
            Some(t) => takes(t),
            None => Effect::Untyped,
        },
        Plain::LocalTee(x) => match scope.local(x) {
            Some(t) => changes(t, t),
            None => Effect::Untyped,
        },
        _ => unreachable!(),
    }
}

// An instruction on a global.
fn global_effect<'a>(scope: &Scope<'a>, plain: Plain) -> Effect<'a>
    requires { NamesGlobal plain }
    ensures { (c : Context) → IsScope scope.now c → effect_type result ≡ plain_type c plain }
{
    match plain {
        Plain::GlobalGet(x) => match scope.global(x) {
            Some(g) => gives(g.value),
            None => Effect::Untyped,
        },
        Plain::GlobalSet(x) => match scope.global(x) {
            Some(g) => where_so(g.mutable, takes(g.value)),
            None => Effect::Untyped,
        },
        _ => unreachable!(),
    }
}

// An instruction on the memory.
fn memory_effect<'a>(scope: &Scope<'a>, plain: Plain) -> Effect<'a>
    requires { NamesMemory plain }
    ensures { (c : Context) → IsScope scope.now c → effect_type result ≡ plain_type c plain }
{
    match plain {
        Plain::Load(op, arg) => where_so(
            may_access(scope, arg, op.bytes()),
            changes(ValueType::I32, op.value_type()),
        ),
        Plain::Store(op, arg) => where_so(
            may_access(scope, arg, op.bytes()),
            moves(Some(op.value_type()), alone(ValueType::I32), None),
        ),
        Plain::MemorySize => where_so(scope.has_memory, gives(ValueType::I32)),
        Plain::MemoryGrow => where_so(scope.has_memory, changes(ValueType::I32, ValueType::I32)),
        _ => unreachable!(),
    }
}

// A branch that isn't by an index, or a return.
fn branch_effect<'a>(scope: &Scope<'a>, levels: &[Level], plain: Plain) -> Effect<'a>
    requires { NamesLabel plain }
    ensures { (c : Context) → IsScope scope.now c → c.labels ≡ labels_of levels.now scope.now.result →
        effect_type result ≡ plain_type c plain }
{
    match plain {
        Plain::Br(label) => match scope.label(levels, label) {
            Some(carries) => Effect::Ends {
                types: none_or_alone(carries),
            },
            None => Effect::Untyped,
        },
        Plain::BrIf(label) => match scope.label(levels, label) {
            Some(carries) => moves(Some(ValueType::I32), none_or_alone(carries), carries),
            None => Effect::Untyped,
        },
        Plain::Return => Effect::Ends {
            types: none_or_alone(scope.result),
        },
        _ => unreachable!(),
    }
}

// A call of a function of this type, if there is one, with this above the arguments.
fn called<'a>(found: Option<&'a FunctionType>, above: Option<ValueType>) -> Effect<'a>
    ensures { effect_type result ≡ of_found (call_type (at_most_one above)) (type_found found.entry) }
{
    match found {
        Some(t) => moves(above, &t.parameters, t.result),
        None => Effect::Untyped,
    }
}

// A call.
fn call_effect<'a>(scope: &Scope<'a>, plain: Plain) -> Effect<'a>
    requires { NamesCall plain }
    ensures { (c : Context) → IsScope scope.now c → effect_type result ≡ plain_type c plain }
{
    match plain {
        Plain::Call(f) => called(scope.function(f), None),
        Plain::CallIndirect(index) => where_so(
            scope.has_table,
            called(scope.listed(index), Some(ValueType::I32)),
        ),
        _ => unreachable!(),
    }
}
