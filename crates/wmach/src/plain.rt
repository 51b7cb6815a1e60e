//! Instructions without others inside them that are no branches and no calls (WebAssembly Core 1.0,
//! 4.4.1 to 4.4.4).

ghost use Rattle.std.specs.Prelude.{◌≡◌, List, Ok};
ghost use Rattle.wcode.specs.declared.instruction.Plain.TheVariants as plains;
ghost use Rattle.wcode.specs.Grammar.{one};
ghost use Rattle.wstore.specs.State.{StoreState};
ghost use Rattle.wmach.specs.declared.activation.Activation.{Activation as Waits};
ghost use Rattle.std.specs.Prelude.{◌==◌, if◌then◌else◌};
ghost use Rattle.wstore.specs.Values.{word_of};
ghost use Rattle.wmach.specs.inside.Running.{Ready, Goes};
ghost use Rattle.wmach.specs.Access.{load_of as defined_load, stored_width as defined_width};

use crate::numbers::{binary_word, convert_word, relation_word, test_word, trap_where, unary_word};
use crate::state::{State, Stop, push, slot, spend, topmost, write_slot};
use rules::Trap;
use wcode::{BinOp, CvtOp, LoadOp, MemArg, RelOp, Sign, StoreOp, TestOp, UnOp, Value, ValueType};
use wmem::{Load, Width};
use wstore::Store;

/// unreachable
#[inline(always)]
pub fn unreachable_here(slots: &[u64], state: State, next: usize) -> Result<State, Stop>
    requires { (waiting : List Waits) × (store : StoreState) ×
        Ready (one plains.Unreachable) next state waiting slots.now store }
    ensures { (waiting : List Waits) (store : StoreState) →
        Goes (one plains.Unreachable) next state waiting slots.now store result waiting slots.now store }
{
    let _ = slots;
    let _ = next;
    let left = spend(state.left)?;
    Err(Stop::Trap(Trap::Unreachable, left))
}

/// nop
#[inline(always)]
pub fn nop(slots: &[u64], state: State, next: usize) -> Result<State, Stop>
    requires { (waiting : List Waits) × (store : StoreState) ×
        Ready (one plains.Nop) next state waiting slots.now store }
    ensures { (waiting : List Waits) (store : StoreState) →
        Goes (one plains.Nop) next state waiting slots.now store result waiting slots.now store }
{
    let _ = slots;
    let left = spend(state.left)?;
    Ok(State {
        at: next,
        left,
        ..state
    })
}

// The number that a slot holds for a value.
#[inline(always)]
fn number_of(value: Value) -> u64
    ensures { result ≡ word_of value }
{
    match value {
        Value::I32(n) => u64::from(n),
        Value::I64(n) => n,
    }
}

/// t.const
#[inline(always)]
pub fn constant(slots: &mut [u64], state: State, next: usize, value: Value) -> State
    requires { (waiting : List Waits) × (store : StoreState) ×
        Ready (one (plains.Const value)) next state waiting slots.old store }
    ensures { (waiting : List Waits) (store : StoreState) →
        Goes (one (plains.Const value)) next state waiting slots.old store (Ok result) waiting slots.new store }
{
    let top = push(slots, state.top, number_of(value));
    State {
        at: next,
        top,
        ..state
    }
}

/// drop
#[inline(always)]
pub fn drop_one(slots: &[u64], state: State, next: usize) -> Result<State, Stop>
    requires { (waiting : List Waits) × (store : StoreState) ×
        Ready (one plains.Drop) next state waiting slots.now store }
    ensures { (waiting : List Waits) (store : StoreState) →
        Goes (one plains.Drop) next state waiting slots.now store result waiting slots.now store }
{
    let left = spend(state.left)?;
    let _dropped = topmost(slots, state.top);
    Ok(State {
        at: next,
        top: state.top - 1,
        left,
        ..state
    })
}

// The first number, or the second one where the condition is 0.
#[inline(always)]
fn chosen_by(condition: u64, first: u64, second: u64) -> u64
    ensures { result ≡ (if condition == 0 then second else first) }
{
    if condition == 0 { second } else { first }
}

/// select
#[inline(always)]
pub fn select(slots: &mut [u64], state: State, next: usize) -> Result<State, Stop>
    requires { (waiting : List Waits) × (store : StoreState) ×
        Ready (one plains.Select) next state waiting slots.old store }
    ensures { (waiting : List Waits) (store : StoreState) →
        Goes (one plains.Select) next state waiting slots.old store result waiting slots.new store }
{
    let left = spend(state.left)?;
    let condition = topmost(slots, state.top);
    let second = topmost(slots, state.top - 1);
    let first = topmost(slots, state.top - 2);
    let chosen = chosen_by(condition, first, second);
    let top = push(slots, state.top - 3, chosen);
    Ok(State {
        at: next,
        top,
        left,
        ..state
    })
}

/// local.get
#[inline(always)]
pub fn local_get(slots: &mut [u64], state: State, next: usize, x: u32) -> Result<State, Stop>
    requires { (waiting : List Waits) × (store : StoreState) ×
        Ready (one (plains.LocalGet x)) next state waiting slots.old store }
    ensures { (waiting : List Waits) (store : StoreState) →
        Goes (one (plains.LocalGet x)) next state waiting slots.old store result waiting slots.new store }
{
    let left = spend(state.left)?;
    let number = slot(slots, state.base + x as usize);
    let top = push(slots, state.top, number);
    Ok(State {
        at: next,
        top,
        left,
        ..state
    })
}

/// local.set
#[inline(always)]
pub fn local_set(slots: &mut [u64], state: State, next: usize, x: u32) -> Result<State, Stop>
    requires { (waiting : List Waits) × (store : StoreState) ×
        Ready (one (plains.LocalSet x)) next state waiting slots.old store }
    ensures { (waiting : List Waits) (store : StoreState) →
        Goes (one (plains.LocalSet x)) next state waiting slots.old store result waiting slots.new store }
{
    let left = spend(state.left)?;
    let number = topmost(slots, state.top);
    write_slot(slots, state.base + x as usize, number);
    Ok(State {
        at: next,
        top: state.top - 1,
        left,
        ..state
    })
}

/// local.tee: the value once more, and then local.set, each of which costs one.
#[inline(always)]
pub fn local_tee(slots: &mut [u64], state: State, next: usize, x: u32) -> Result<State, Stop>
    requires { (waiting : List Waits) × (store : StoreState) ×
        Ready (one (plains.LocalTee x)) next state waiting slots.old store }
    ensures { (waiting : List Waits) (store : StoreState) →
        Goes (one (plains.LocalTee x)) next state waiting slots.old store result waiting slots.new store }
{
    let first = spend(state.left)?;
    let left = spend(first)?;
    let number = topmost(slots, state.top);
    write_slot(slots, state.base + x as usize, number);
    Ok(State {
        at: next,
        left,
        ..state
    })
}

/// global.get
#[inline(always)]
pub fn global_get(
    store: &Store,
    slots: &mut [u64],
    state: State,
    next: usize,
    x: u32,
) -> Result<State, Stop>
    requires { (waiting : List Waits) × Ready (one (plains.GlobalGet x)) next state waiting slots.old store.now }
    ensures { (waiting : List Waits) → Goes (one (plains.GlobalGet x)) next state waiting slots.old store.now result
        waiting slots.new store.now }
{
    let left = spend(state.left)?;
    let number = store.global(x as usize);
    let top = push(slots, state.top, number);
    Ok(State {
        at: next,
        top,
        left,
        ..state
    })
}

/// global.set
#[inline(always)]
pub fn global_set(
    store: &mut Store,
    slots: &[u64],
    state: State,
    next: usize,
    x: u32,
) -> Result<State, Stop>
    requires { (waiting : List Waits) × Ready (one (plains.GlobalSet x)) next state waiting slots.now store.old }
    ensures { (waiting : List Waits) → Goes (one (plains.GlobalSet x)) next state waiting slots.now store.old result
        waiting slots.now store.new }
{
    let left = spend(state.left)?;
    let number = topmost(slots, state.top);
    store.set_global(x as usize, number);
    Ok(State {
        at: next,
        top: state.top - 1,
        left,
        ..state
    })
}

/// t.unop
#[inline(always)]
pub fn unary(
    slots: &mut [u64],
    state: State,
    next: usize,
    t: ValueType,
    op: UnOp,
) -> Result<State, Stop>
    requires { (waiting : List Waits) × (store : StoreState) ×
        Ready (one (plains.Unary t op)) next state waiting slots.old store }
    ensures { (waiting : List Waits) (store : StoreState) →
        Goes (one (plains.Unary t op)) next state waiting slots.old store result waiting slots.new store }
{
    let left = spend(state.left)?;
    let number = topmost(slots, state.top);
    let top = push(slots, state.top - 1, unary_word(t, op, number));
    Ok(State {
        at: next,
        top,
        left,
        ..state
    })
}

/// t.binop
#[inline(always)]
pub fn binary(
    slots: &mut [u64],
    state: State,
    next: usize,
    t: ValueType,
    op: BinOp,
) -> Result<State, Stop>
    requires { (waiting : List Waits) × (store : StoreState) ×
        Ready (one (plains.Binary t op)) next state waiting slots.old store }
    ensures { (waiting : List Waits) (store : StoreState) →
        Goes (one (plains.Binary t op)) next state waiting slots.old store result waiting slots.new store }
{
    let left = spend(state.left)?;
    let second = topmost(slots, state.top);
    let first = topmost(slots, state.top - 1);
    match binary_word(t, op, first, second) {
        Ok(number) => {
            let top = push(slots, state.top - 2, number);
            Ok(State {
                at: next,
                top,
                left,
                ..state
            })
        }
        Err(undefined) => Err(Stop::Trap(trap_where(undefined), left)),
    }
}

/// t.testop
#[inline(always)]
pub fn test(
    slots: &mut [u64],
    state: State,
    next: usize,
    t: ValueType,
    op: TestOp,
) -> Result<State, Stop>
    requires { (waiting : List Waits) × (store : StoreState) ×
        Ready (one (plains.Test t op)) next state waiting slots.old store }
    ensures { (waiting : List Waits) (store : StoreState) →
        Goes (one (plains.Test t op)) next state waiting slots.old store result waiting slots.new store }
{
    let left = spend(state.left)?;
    let number = topmost(slots, state.top);
    let top = push(slots, state.top - 1, test_word(t, op, number));
    Ok(State {
        at: next,
        top,
        left,
        ..state
    })
}

/// t.relop
#[inline(always)]
pub fn relation(
    slots: &mut [u64],
    state: State,
    next: usize,
    t: ValueType,
    op: RelOp,
) -> Result<State, Stop>
    requires { (waiting : List Waits) × (store : StoreState) ×
        Ready (one (plains.Relation t op)) next state waiting slots.old store }
    ensures { (waiting : List Waits) (store : StoreState) →
        Goes (one (plains.Relation t op)) next state waiting slots.old store result waiting slots.new store }
{
    let left = spend(state.left)?;
    let second = topmost(slots, state.top);
    let first = topmost(slots, state.top - 1);
    let top = push(slots, state.top - 2, relation_word(t, op, first, second));
    Ok(State {
        at: next,
        top,
        left,
        ..state
    })
}

/// t2.cvtop_t1
#[inline(always)]
pub fn convert(slots: &mut [u64], state: State, next: usize, op: CvtOp) -> Result<State, Stop>
    requires { (waiting : List Waits) × (store : StoreState) ×
        Ready (one (plains.Convert op)) next state waiting slots.old store }
    ensures { (waiting : List Waits) (store : StoreState) →
        Goes (one (plains.Convert op)) next state waiting slots.old store result waiting slots.new store }
{
    let left = spend(state.left)?;
    let number = topmost(slots, state.top);
    let top = push(slots, state.top - 1, convert_word(op, number));
    Ok(State {
        at: next,
        top,
        left,
        ..state
    })
}

// The memory's load for an instruction's.
#[inline(always)]
fn load_of(op: LoadOp) -> Load
    ensures { result ≡ defined_load op }
{
    match op {
        LoadOp::Whole(ValueType::I32) => Load::I32,
        LoadOp::Whole(ValueType::I64) => Load::I64,
        LoadOp::Narrow8(ValueType::I32, Sign::Signed) => Load::I32Signed8,
        LoadOp::Narrow8(ValueType::I32, Sign::Unsigned) => Load::I32Unsigned8,
        LoadOp::Narrow8(ValueType::I64, Sign::Signed) => Load::I64Signed8,
        LoadOp::Narrow8(ValueType::I64, Sign::Unsigned) => Load::I64Unsigned8,
        LoadOp::Narrow16(ValueType::I32, Sign::Signed) => Load::I32Signed16,
        LoadOp::Narrow16(ValueType::I32, Sign::Unsigned) => Load::I32Unsigned16,
        LoadOp::Narrow16(ValueType::I64, Sign::Signed) => Load::I64Signed16,
        LoadOp::Narrow16(ValueType::I64, Sign::Unsigned) => Load::I64Unsigned16,
        LoadOp::Narrow32(Sign::Signed) => Load::I64Signed32,
        LoadOp::Narrow32(Sign::Unsigned) => Load::I64Unsigned32,
    }
}

// How much a store instruction writes.
#[inline(always)]
fn width_of_store(op: StoreOp) -> Width
    ensures { result ≡ defined_width op }
{
    match op {
        StoreOp::Whole(ValueType::I32) | StoreOp::Narrow32 => Width::Four,
        StoreOp::Whole(ValueType::I64) => Width::Eight,
        StoreOp::Narrow8(_) => Width::One,
        StoreOp::Narrow16(_) => Width::Two,
    }
}

/// t.load
#[inline(always)]
pub fn load(
    store: &Store,
    slots: &mut [u64],
    state: State,
    next: usize,
    op: LoadOp,
    arg: MemArg,
) -> Result<State, Stop>
    requires { (waiting : List Waits) × Ready (one (plains.Load op arg)) next state waiting slots.old store.now }
    ensures { (waiting : List Waits) → Goes (one (plains.Load op arg)) next state waiting slots.old store.now result
        waiting slots.new store.now }
{
    let left = spend(state.left)?;
    let base = topmost(slots, state.top) as u32;
    match store.load(base, arg.offset, load_of(op)) {
        Ok(number) => {
            let top = push(slots, state.top - 1, number);
            Ok(State {
                at: next,
                top,
                left,
                ..state
            })
        }
        Err(_) => Err(Stop::Trap(Trap::MemoryOutOfBounds, left)),
    }
}

/// t.store
#[inline(always)]
pub fn store(
    memory: &mut Store,
    slots: &[u64],
    state: State,
    next: usize,
    op: StoreOp,
    arg: MemArg,
) -> Result<State, Stop>
    requires { (waiting : List Waits) × Ready (one (plains.Store op arg)) next state waiting slots.now memory.old }
    ensures { (waiting : List Waits) → Goes (one (plains.Store op arg)) next state waiting slots.now memory.old result
        waiting slots.now memory.new }
{
    let left = spend(state.left)?;
    let number = topmost(slots, state.top);
    let base = topmost(slots, state.top - 1) as u32;
    match memory.store(base, arg.offset, width_of_store(op), number) {
        Ok(()) => Ok(State {
            at: next,
            top: state.top - 2,
            left,
            ..state
        }),
        Err(_) => Err(Stop::Trap(Trap::MemoryOutOfBounds, left)),
    }
}

/// memory.size
#[inline(always)]
pub fn memory_size(
    store: &Store,
    slots: &mut [u64],
    state: State,
    next: usize,
) -> Result<State, Stop>
    requires { (waiting : List Waits) × Ready (one plains.MemorySize) next state waiting slots.old store.now }
    ensures { (waiting : List Waits) → Goes (one plains.MemorySize) next state waiting slots.old store.now result
        waiting slots.new store.now }
{
    let left = spend(state.left)?;
    let top = push(slots, state.top, store.size() as u64);
    Ok(State {
        at: next,
        top,
        left,
        ..state
    })
}

/// memory.grow
#[inline(always)]
pub fn memory_grow(
    store: &mut Store,
    slots: &mut [u64],
    state: State,
    next: usize,
) -> Result<State, Stop>
    requires { (waiting : List Waits) × Ready (one plains.MemoryGrow) next state waiting slots.old store.old }
    ensures { (waiting : List Waits) → Goes (one plains.MemoryGrow) next state waiting slots.old store.old result
        waiting slots.new store.new }
{
    let left = spend(state.left)?;
    let delta = topmost(slots, state.top) as u32;
    match store.grow(delta) {
        Some(pages) => {
            let top = push(slots, state.top - 1, pages as u64);
            Ok(State {
                at: next,
                top,
                left,
                ..state
            })
        }
        None => {
            let top = push(slots, state.top - 1, u32::MAX as u64);
            Ok(State {
                at: next,
                top,
                left,
                ..state
            })
        }
    }
}
