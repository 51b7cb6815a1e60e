//! The numeric instructions (WebAssembly Core 1.0, 4.4.1), by the operations of `wnum`.

ghost use Rattle.std.specs.Prelude.{◌≡◌, ◌∷◌, Ok, Err, IfOk};
ghost use Rattle.wcode.specs.Operators.{type_of};
ghost use Rattle.wcode.specs.declared.value.Value.TheVariants as value;
ghost use Rattle.wmach.specs.Operands.{value_of, width_of};
ghost use Rattle.wmach.specs.Numeric.{unary_gives, binary_gives, test_gives, relation_gives, converted_from, converted_to, conversion_gives, reduce_unary, reduce_binary, reduce_test, reduce_relation, reduce_convert};
ghost use Rattle.wplain.specs.inside.Done.{bits, typed_result, DoneBy};

use crate::stop::Stop;
use crate::values::{pop, pop_any, push};
use wcode::{BinOp, CvtOp, RelOp, TestOp, UnOp, Value, ValueType};
use wmach::Trap;
use wmach::numbers::{binary32, binary64, relation32, relation64, trap_where, unary32, unary64};
use wnum::{convert as conversions, int32, int64};

/// What an instruction did that works on operands alone: it left these, or is cut off.
#[derive(Clone, Copy)]
pub enum Worked {
    Values,
    Cut(Trap),
}

// The operands are of one type.
fn binary_of(op: BinOp, a: Value, b: Value) -> Result<Result<Value, wnum::Trap>, Stop>
    ensures typed { IfOk result (λ r. type_of a ≡ type_of b) }
    ensures value { IfOk result (λ r. r ≡ typed_result (type_of a)
        (binary_gives op (width_of (type_of a)) (bits a) (bits b))) }
{
    match (a, b) {
        (Value::I32(a), Value::I32(b)) => match binary32(op, a, b) {
            Ok(n) => Ok(Ok(Value::I32(n))),
            Err(trap) => Ok(Err(trap)),
        },
        (Value::I64(a), Value::I64(b)) => match binary64(op, a, b) {
            Ok(n) => Ok(Ok(Value::I64(n))),
            Err(trap) => Ok(Err(trap)),
        },
        _ => Err(Stop::Stuck),
    }
}

// t.binop
pub fn binary(values: &mut Vec<Value>, t: ValueType, op: BinOp) -> Result<Worked, Stop>
    ensures { IfOk result (DoneBy (λ store locals values rest. reduce_binary store locals values t op rest)
        values.old.items values.new.items) }
{
    let second = pop(values, t)?;
    let first = pop(values, t)?;
    match binary_of(op, first, second)? {
        Ok(v) => {
            push(values, v)?;
            Ok(Worked::Values)
        }
        Err(undefined) => Ok(Worked::Cut(trap_where(undefined))),
    }
}

fn unary_of(op: UnOp, a: Value) -> Value
    ensures { result ≡ value_of (type_of a) (unary_gives op (width_of (type_of a)) (bits a)) }
{
    match a {
        Value::I32(a) => Value::I32(unary32(op, a)),
        Value::I64(a) => Value::I64(unary64(op, a)),
    }
}

// t.unop
pub fn unary(values: &mut Vec<Value>, t: ValueType, op: UnOp) -> Result<Worked, Stop>
    ensures { IfOk result (DoneBy (λ store locals values rest. reduce_unary store locals values t op rest)
        values.old.items values.new.items) }
{
    let a = pop(values, t)?;
    push(values, unary_of(op, a))?;
    Ok(Worked::Values)
}

fn test_of(op: TestOp, a: Value) -> Value
    ensures { result ≡ value.I32 (test_gives op (width_of (type_of a)) (bits a)) }
{
    match (op, a) {
        (TestOp::Eqz, Value::I32(a)) => Value::I32(int32::eqz(a)),
        (TestOp::Eqz, Value::I64(a)) => Value::I32(int64::eqz(a) as u32),
    }
}

// t.testop
pub fn test(values: &mut Vec<Value>, t: ValueType, op: TestOp) -> Result<Worked, Stop>
    ensures { IfOk result (DoneBy (λ store locals values rest. reduce_test store locals values t op rest)
        values.old.items values.new.items) }
{
    let a = pop(values, t)?;
    push(values, test_of(op, a))?;
    Ok(Worked::Values)
}

// The operands are of one type.
fn relation_of(op: RelOp, a: Value, b: Value) -> Result<Value, Stop>
    ensures typed { IfOk result (λ v. type_of a ≡ type_of b) }
    ensures value { IfOk result (λ v. v ≡ value.I32 (relation_gives op (width_of (type_of a)) (bits a) (bits b))) }
{
    match (a, b) {
        (Value::I32(a), Value::I32(b)) => Ok(Value::I32(relation32(op, a, b))),
        (Value::I64(a), Value::I64(b)) => Ok(Value::I32(relation64(op, a, b) as u32)),
        _ => Err(Stop::Stuck),
    }
}

// t.relop
pub fn relation(values: &mut Vec<Value>, t: ValueType, op: RelOp) -> Result<Worked, Stop>
    ensures { IfOk result (DoneBy (λ store locals values rest. reduce_relation store locals values t op rest)
        values.old.items values.new.items) }
{
    let second = pop(values, t)?;
    let first = pop(values, t)?;
    push(values, relation_of(op, first, second)?)?;
    Ok(Worked::Values)
}

// The operand is of the type that the conversion takes.
fn converted(op: CvtOp, a: Value) -> Result<Value, Stop>
    ensures typed { IfOk result (λ v. type_of a ≡ converted_from op) }
    ensures value { IfOk result (λ v. v ≡ value_of (converted_to op) (conversion_gives op (bits a))) }
{
    match (op, a) {
        (CvtOp::WrapI64, Value::I64(a)) => Ok(Value::I32(conversions::wrap_i64(a))),
        (CvtOp::ExtendI32S, Value::I32(a)) => Ok(Value::I64(conversions::extend_i32_s(a))),
        (CvtOp::ExtendI32U, Value::I32(a)) => Ok(Value::I64(conversions::extend_i32_u(a))),
        (CvtOp::Extend8S(ValueType::I32), Value::I32(a)) => Ok(Value::I32(int32::extend8_s(a))),
        (CvtOp::Extend8S(ValueType::I64), Value::I64(a)) => Ok(Value::I64(int64::extend8_s(a))),
        (CvtOp::Extend16S(ValueType::I32), Value::I32(a)) => Ok(Value::I32(int32::extend16_s(a))),
        (CvtOp::Extend16S(ValueType::I64), Value::I64(a)) => Ok(Value::I64(int64::extend16_s(a))),
        (CvtOp::Extend32S, Value::I64(a)) => Ok(Value::I64(int64::extend32_s(a))),
        _ => Err(Stop::Stuck),
    }
}

// t2.cvtop_t1
pub fn convert(values: &mut Vec<Value>, op: CvtOp) -> Result<Worked, Stop>
    ensures { IfOk result (DoneBy (λ store locals values rest. reduce_convert store locals values op rest)
        values.old.items values.new.items) }
{
    let a = pop_any(values)?;
    push(values, converted(op, a)?)?;
    Ok(Worked::Values)
}
