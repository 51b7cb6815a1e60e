//! Over one instruction whose kind its opcode tells, without others inside it, where one stands: it
//! is typed as it is read.

ghost use Rattle.std.specs.Prelude.{◌≡◌, ◌<◌, ℕ, List, drop, length, slice_index};
ghost use Rattle.wcode.specs.Opcodes.{form};
ghost use Rattle.wcode.specs.Grammar.{Word, SpellsWord};
ghost use Rattle.wcode.specs.declared.opcode.Form.TheVariants as forms;
ghost use Rattle.wbody.specs.declared.kind.Kind.TheVariants as kinds;
ghost use Rattle.wbody.specs.inside.Kinds.{form_kind};
ghost use Rattle.wbody.specs.inside.Words.{OverPlain};

use crate::operand_stack::OperandStack;
use crate::scope::{Scope, in_long, in_word, may_access};
use crate::stop::Stop;
use wcode::{Indexed, LoadOp, StoreOp, ValueType, i32_at, i64_at, index_at, load_at, store_at};

// One that takes one operand and gives one.
#[inline(always)]
pub fn over_one(
    stack: &mut OperandStack,
    scope: &Scope<'_>,
    bytes: &[u8],
    at: usize,
    t: ValueType,
    gives: ValueType,
) -> Result<Option<usize>, Stop>
    requires within { at < length bytes.now }
    requires known { kinds.One t gives ≡ form_kind (form (slice_index bytes.now at)) }
    ensures { OverPlain scope.now bytes.now at result stack.old stack.new }
{
    stack.change_one(t, gives).and(Ok(Some(at + 1)))
}

// One that takes two operands of one type and gives one.
#[inline(always)]
pub fn over_two(
    stack: &mut OperandStack,
    scope: &Scope<'_>,
    bytes: &[u8],
    at: usize,
    t: ValueType,
    gives: ValueType,
) -> Result<Option<usize>, Stop>
    requires within { at < length bytes.now }
    requires known { kinds.Two t gives ≡ form_kind (form (slice_index bytes.now at)) }
    ensures { OverPlain scope.now bytes.now at result stack.old stack.new }
{
    stack.change_two(t, gives).and(Ok(Some(at + 1)))
}

// drop
#[inline(always)]
pub fn over_drop(
    stack: &mut OperandStack,
    scope: &Scope<'_>,
    bytes: &[u8],
    at: usize,
) -> Result<Option<usize>, Stop>
    requires within { at < length bytes.now }
    requires known { kinds.Drop ≡ form_kind (form (slice_index bytes.now at)) }
    ensures { OverPlain scope.now bytes.now at result stack.old stack.new }
{
    stack.drop_one().and(Ok(Some(at + 1)))
}

// A constant.
#[inline(always)]
pub fn over_constant(
    stack: &mut OperandStack,
    scope: &Scope<'_>,
    bytes: &[u8],
    at: usize,
    t: ValueType,
) -> Result<Option<usize>, Stop>
    requires within { at < length bytes.now }
    requires known { kinds.Constant t ≡ form_kind (form (slice_index bytes.now at)) }
    requires stands { (w : Word) × (rest : List ℕ) × SpellsWord (drop at bytes.now) w rest }
    ensures { OverPlain scope.now bytes.now at result stack.old stack.new }
{
    match t {
        ValueType::I32 => {
            let (n, next) = i32_at(bytes, at);
            in_word(n);
            stack.put(ValueType::I32).and(Ok(Some(next)))
        }
        ValueType::I64 => {
            let (n, next) = i64_at(bytes, at);
            in_long(n);
            stack.put(ValueType::I64).and(Ok(Some(next)))
        }
    }
}

// local.get
#[inline(always)]
pub fn over_local_get(
    stack: &mut OperandStack,
    scope: &Scope<'_>,
    bytes: &[u8],
    at: usize,
) -> Result<Option<usize>, Stop>
    requires within { at < length bytes.now }
    requires known { kinds.LocalGet ≡ form_kind (form (slice_index bytes.now at)) }
    requires stands { (w : Word) × (rest : List ℕ) × SpellsWord (drop at bytes.now) w rest }
    ensures { OverPlain scope.now bytes.now at result stack.old stack.new }
{
    let (x, next) = index_at(bytes, at, Indexed::LocalGet);
    let Some(t) = scope.local(x) else {
        return Err(Stop::Untyped);
    };
    stack.put(t).and(Ok(Some(next)))
}

// local.set
#[inline(always)]
pub fn over_local_set(
    stack: &mut OperandStack,
    scope: &Scope<'_>,
    bytes: &[u8],
    at: usize,
) -> Result<Option<usize>, Stop>
    requires within { at < length bytes.now }
    requires known { kinds.LocalSet ≡ form_kind (form (slice_index bytes.now at)) }
    requires stands { (w : Word) × (rest : List ℕ) × SpellsWord (drop at bytes.now) w rest }
    ensures { OverPlain scope.now bytes.now at result stack.old stack.new }
{
    let (x, next) = index_at(bytes, at, Indexed::LocalSet);
    let Some(t) = scope.local(x) else {
        return Err(Stop::Untyped);
    };
    stack.take_one(t).and(Ok(Some(next)))
}

// local.tee
#[inline(always)]
pub fn over_local_tee(
    stack: &mut OperandStack,
    scope: &Scope<'_>,
    bytes: &[u8],
    at: usize,
) -> Result<Option<usize>, Stop>
    requires within { at < length bytes.now }
    requires known { kinds.LocalTee ≡ form_kind (form (slice_index bytes.now at)) }
    requires stands { (w : Word) × (rest : List ℕ) × SpellsWord (drop at bytes.now) w rest }
    ensures { OverPlain scope.now bytes.now at result stack.old stack.new }
{
    let (x, next) = index_at(bytes, at, Indexed::LocalTee);
    let Some(t) = scope.local(x) else {
        return Err(Stop::Untyped);
    };
    stack.change_one(t, t).and(Ok(Some(next)))
}

// A load.
#[inline(always)]
pub fn over_load(
    stack: &mut OperandStack,
    scope: &Scope<'_>,
    bytes: &[u8],
    at: usize,
    op: LoadOp,
) -> Result<Option<usize>, Stop>
    requires within { at < length bytes.now }
    requires known { kinds.Load op ≡ form_kind (form (slice_index bytes.now at)) }
    requires stands { (w : Word) × (rest : List ℕ) × SpellsWord (drop at bytes.now) w rest }
    ensures { OverPlain scope.now bytes.now at result stack.old stack.new }
{
    let (arg, next) = load_at(bytes, at, op);
    if !may_access(scope, arg, op.bytes()) {
        return Err(Stop::Untyped);
    }
    stack
        .change_one(ValueType::I32, op.value_type())
        .and(Ok(Some(next)))
}

// A store.
#[inline(always)]
pub fn over_store(
    stack: &mut OperandStack,
    scope: &Scope<'_>,
    bytes: &[u8],
    at: usize,
    op: StoreOp,
) -> Result<Option<usize>, Stop>
    requires within { at < length bytes.now }
    requires known { kinds.Store op ≡ form_kind (form (slice_index bytes.now at)) }
    requires stands { (w : Word) × (rest : List ℕ) × SpellsWord (drop at bytes.now) w rest }
    ensures { OverPlain scope.now bytes.now at result stack.old stack.new }
{
    let (arg, next) = store_at(bytes, at, op);
    if !may_access(scope, arg, op.bytes()) {
        return Err(Stop::Untyped);
    }
    stack
        .take_two(op.value_type(), ValueType::I32)
        .and(Ok(Some(next)))
}
