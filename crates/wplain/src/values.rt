//! Operands: lists of values with the topmost first.

ghost use Rattle.std.specs.Prelude.{◌≡◌, ◌∷◌, ◌++◌, IfOk};
ghost use Rattle.wcode.specs.Operators.{type_of};
ghost use Rattle.wcode.specs.declared.value.Value.TheVariants as value;

use crate::stop::Stop;
use std::alloc::Global;
use wcode::{Value, ValueType};

/// One more, as the topmost.
pub fn push(values: &mut Vec<Value>, value: Value) -> Result<(), Stop>
    ensures { IfOk result (λ u. values.new.items ≡ value ∷ values.old.items) }
{
    values.insert(0, value)?;
    Ok(())
}

/// The topmost, if there is one, whatever its type.
pub fn pop_any(values: &mut Vec<Value>) -> Result<Value, Stop>
    ensures { IfOk result (λ v. values.old.items ≡ v ∷ values.new.items) }
{
    if values.is_empty() {
        return Err(Stop::Stuck);
    }
    Ok(values.remove(0))
}

/// The topmost, if there is one and it is of this type.
pub fn pop(values: &mut Vec<Value>, wanted: ValueType) -> Result<Value, Stop>
    ensures value { IfOk result (λ v. values.old.items ≡ v ∷ values.new.items) }
    ensures typed { IfOk result (λ v. type_of v ≡ wanted) }
{
    let v = pop_any(values)?;
    if v.value_type() == wanted {
        Ok(v)
    } else {
        Err(Stop::Stuck)
    }
}

/// The number of the topmost, if there is one and it is an i32.
pub fn pop_i32(values: &mut Vec<Value>) -> Result<u32, Stop>
    ensures { IfOk result (λ n. values.old.items ≡ value.I32 n ∷ values.new.items) }
{
    match pop_any(values)? {
        Value::I32(n) => Ok(n),
        Value::I64(_) => Err(Stop::Stuck),
    }
}

/// The first ones, and then those below.
pub fn joined(alloc: Global, first: &[Value], below: &[Value]) -> Result<Vec<Value>, Stop>
    ensures { IfOk result (λ vs. vs.items ≡ first.now ++ below.now) }
{
    let mut values = Vec::from_slice(alloc, first)?;
    values.extend_from_slice(below)?;
    Ok(values)
}
