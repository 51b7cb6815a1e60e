//! Expressions that are constants: the first values of globals, and the offsets of segments.

ghost use Rattle.std.specs.Prelude.{◌≡◌, ◌<◌, ◌^◌, MatchBool};
ghost use Rattle.wmodule.specs.Syntax.{expression_in};
ghost use Rattle.wmodule.specs.Placed.{IsExpression};
ghost use Rattle.wcode.specs.Operators.{type_of};
ghost use Rattle.std.specs.Prelude.{IsTrue};
ghost use Rattle.wbody.specs.Typing.{is_in_range};
ghost use Rattle.wtype.specs.Accepted.{ConstantOf};

use wcode::{Value, ValueType, read_constant};
use wmodule::{Module, Place};

// A number of 32 bits is one, and one of 64 bits too; for the proof alone.
fn in_word(number: u32)
    ensures { number < 2 ^ 32 }
{}

fn in_long(number: u64)
    ensures { number < 2 ^ 64 }
{}

// The type of a value, whose number is in its range.
fn type_of_value(value: Value) -> ValueType
    ensures value { result ≡ type_of value }
    ensures range { IsTrue (is_in_range value) }
{
    match value {
        Value::I32(number) => in_word(number),
        Value::I64(number) => in_long(number),
    }
    value.value_type()
}

// The expression there is one constant of this type.
pub fn is_constant(decoded: &Module, place: Place, wanted: ValueType) -> bool
    requires { IsExpression decoded.now.bytes place }
    ensures { MatchBool result (ConstantOf wanted (expression_in decoded.now.bytes place))
        (ConstantOf wanted (expression_in decoded.now.bytes place) → ⊥) }
{
    match read_constant(decoded.bytes(), place.begin) {
        Some(value) => type_of_value(value) == wanted,
        None => false,
    }
}
