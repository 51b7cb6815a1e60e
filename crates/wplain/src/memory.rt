//! The memory instructions (WebAssembly Core 1.0, 4.4.4).

ghost use Rattle.std.specs.Prelude.{◌≡◌, List, IfOk};
ghost use Rattle.wcode.specs.declared.value.Value.{Value as one_value};
ghost use Rattle.wcode.specs.Operators.{load_type, store_type};
ghost use Rattle.wmach.specs.Access.{load_of as defined_load, stored_width as defined_width, cap_of as defined_cap, reduce_load, reduce_store, reduce_size, reduce_grow};
ghost use Rattle.wmach.specs.Operands.{value_of};
ghost use Rattle.wplain.specs.inside.Done.{bits};
ghost use Rattle.wplain.specs.Seen.{syntax_of, body_of_code};
ghost use Rattle.wplain.specs.inside.Seen.{moved};
ghost use Rattle.wplain.specs.Stores.{store_of};

use crate::code::Code;
use crate::execution::{Effect, Move, Next, Write, quiet};
use crate::setting::Program;
use crate::stop::Stop;
use crate::store::{Store, byte_size};
use crate::values::{pop, pop_i32, push};
use wcode::{LoadOp, MemArg, Sign, StoreOp, Value, ValueType};
use wmach::Trap;
use wmem::{Load, Width};
use wmodule::Limits;

fn load_of(op: LoadOp) -> Load
    ensures { result ≡ defined_load op }
{
    match op {
        LoadOp::Whole(ValueType::I32) => Load::I32,
        LoadOp::Whole(ValueType::I64) => Load::I64,
        LoadOp::Narrow8(ValueType::I32, Sign::Signed) => Load::I32Signed8,
        LoadOp::Narrow8(ValueType::I32, Sign::Unsigned) => Load::I32Unsigned8,
        LoadOp::Narrow8(ValueType::I64, Sign::Signed) => Load::I64Signed8,
        LoadOp::Narrow8(ValueType::I64, Sign::Unsigned) => Load::I64Unsigned8,
        LoadOp::Narrow16(ValueType::I32, Sign::Signed) => Load::I32Signed16,
        LoadOp::Narrow16(ValueType::I32, Sign::Unsigned) => Load::I32Unsigned16,
        LoadOp::Narrow16(ValueType::I64, Sign::Signed) => Load::I64Signed16,
        LoadOp::Narrow16(ValueType::I64, Sign::Unsigned) => Load::I64Unsigned16,
        LoadOp::Narrow32(Sign::Signed) => Load::I64Signed32,
        LoadOp::Narrow32(Sign::Unsigned) => Load::I64Unsigned32,
    }
}

fn type_loaded(op: LoadOp) -> ValueType
    ensures { result ≡ load_type op }
{
    match op {
        LoadOp::Whole(t) | LoadOp::Narrow8(t, _) | LoadOp::Narrow16(t, _) => t,
        LoadOp::Narrow32(_) => ValueType::I64,
    }
}

fn type_stored(op: StoreOp) -> ValueType
    ensures { result ≡ store_type op }
{
    match op {
        StoreOp::Whole(t) | StoreOp::Narrow8(t) | StoreOp::Narrow16(t) => t,
        StoreOp::Narrow32 => ValueType::I64,
    }
}

fn width_stored(op: StoreOp) -> Width
    ensures { result ≡ defined_width op }
{
    match op {
        StoreOp::Whole(ValueType::I32) | StoreOp::Narrow32 => Width::Four,
        StoreOp::Whole(ValueType::I64) => Width::Eight,
        StoreOp::Narrow8(_) => Width::One,
        StoreOp::Narrow16(_) => Width::Two,
    }
}

// A number as a value of this type, if it holds it.
fn value_with(t: ValueType, number: u64) -> Result<Value, Stop>
    ensures { IfOk result (λ v. v ≡ value_of t number) }
{
    match t {
        ValueType::I32 => {
            if number <= 0xFFFF_FFFF {
                Ok(Value::I32(number as u32))
            } else {
                Err(Stop::Stuck)
            }
        }
        ValueType::I64 => Ok(Value::I64(number)),
    }
}

fn number_in(v: Value) -> u64
    ensures { result ≡ bits v }
{
    match v {
        Value::I32(n) => u64::from(n),
        Value::I64(n) => n,
    }
}

// t.load
pub fn load<'a>(
    program: &Program,
    store: &Store,
    values: &mut Vec<Value>,
    op: LoadOp,
    arg: MemArg,
    rest: &'a Code,
) -> Result<Move<'a>, Stop>
    ensures { (locals : List one_value) → IfOk result (λ m. reduce_load (syntax_of program.now)
        (store_of store.now) locals values.old.items op arg (body_of_code rest.now) ≡ moved (store_of store.now) locals values.new.items m) }
{
    if program.memories.is_empty() {
        return Err(Stop::Stuck);
    }
    let base = pop_i32(values)?;
    match store.memory.load(base, arg.offset, load_of(op)) {
        Ok(number) => {
            push(values, value_with(type_loaded(op), number)?)?;
            Ok(quiet(1, Next::Code(rest)))
        }
        Err(_) => Ok(quiet(1, Next::Trap(Trap::MemoryOutOfBounds))),
    }
}

// t.store
pub fn store<'a>(
    program: &Program,
    store: &Store,
    values: &mut Vec<Value>,
    op: StoreOp,
    arg: MemArg,
    rest: &'a Code,
) -> Result<Move<'a>, Stop>
    ensures { (locals : List one_value) → IfOk result (λ m. reduce_store (syntax_of program.now)
        (store_of store.now) locals values.old.items op arg (body_of_code rest.now) ≡ moved (store_of store.now) locals values.new.items m) }
{
    if program.memories.is_empty() {
        return Err(Stop::Stuck);
    }
    let v = pop(values, type_stored(op))?;
    let base = pop_i32(values)?;
    let width = width_stored(op);
    if base as usize + arg.offset as usize + width.bytes() > byte_size(&store.memory) {
        return Ok(quiet(1, Next::Trap(Trap::MemoryOutOfBounds)));
    }
    let write = Write::Number(base, arg.offset, width, number_in(v));
    let effect = Effect { cost: 1, write };
    Ok(Move {
        effect,
        next: Next::Code(rest),
    })
}

// memory.size
pub fn size<'a>(
    program: &Program,
    store: &Store,
    values: &mut Vec<Value>,
    rest: &'a Code,
) -> Result<Move<'a>, Stop>
    ensures { (locals : List one_value) → IfOk result (λ m. reduce_size (syntax_of program.now)
        (store_of store.now) locals values.old.items (body_of_code rest.now) ≡ moved (store_of store.now) locals values.new.items m) }
{
    if program.memories.is_empty() {
        return Err(Stop::Stuck);
    }
    push(values, Value::I32(store.memory.size()))?;
    Ok(quiet(1, Next::Code(rest)))
}

// The most pages that a memory of these limits grows to.
fn cap_of(memories: &[Limits]) -> u32
    ensures { result ≡ defined_cap memories.now }
{
    match memories {
        [] => 0,
        [limits, ..] => match limits.most {
            None => 32,
            Some(most) => most.min(32),
        },
    }
}

// memory.grow
pub fn grow<'a>(
    program: &Program,
    store: &Store,
    values: &mut Vec<Value>,
    rest: &'a Code,
) -> Result<Move<'a>, Stop>
    ensures { (locals : List one_value) → IfOk result (λ m. reduce_grow (syntax_of program.now)
        (store_of store.now) locals values.old.items (body_of_code rest.now) ≡ moved (store_of store.now) locals values.new.items m) }
{
    if program.memories.is_empty() {
        return Err(Stop::Stuck);
    }
    let delta = pop_i32(values)?;
    let pages = store.memory.size();
    if u64::from(pages) + u64::from(delta) > u64::from(cap_of(program.memories.as_slice())) {
        push(values, Value::I32(0xFFFF_FFFF))?;
        return Ok(quiet(1, Next::Code(rest)));
    }
    push(values, Value::I32(pages))?;
    let write = Write::Pages(delta);
    let effect = Effect { cost: 1, write };
    Ok(Move {
        effect,
        next: Next::Code(rest),
    })
}
