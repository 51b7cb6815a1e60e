//! The numbers of constant expressions: first values of globals, and offsets of segments.

ghost use Rattle.std.specs.Prelude.{◌≡◌};
ghost use Rattle.wmodule.specs.Syntax.{expression_in};
ghost use Rattle.wmodule.specs.Placed.{IsExpression, IsGlobal};
ghost use Rattle.wstore.specs.Values.{word_of};
ghost use Rattle.wstore.specs.inside.Words.{first_word_of};
ghost use Rattle.wstore.specs.Segments.{place_of, offset_of};

use wcode::{Value, read_constant};
use wmodule::{GlobalVariable, Module, Place};

// The number of a value.
fn word(value: Value) -> u64
    ensures { result ≡ word_of value }
{
    match value {
        Value::I32(number) => u64::from(number),
        Value::I64(number) => number,
    }
}

/// The number of a global's first value.
pub fn first_word(decoded: &Module, global: GlobalVariable) -> u64
    requires { IsGlobal decoded.now.bytes global }
    ensures { result ≡ first_word_of decoded.now.bytes global }
{
    match read_constant(decoded.bytes(), global.first.begin) {
        Some(value) => word(value),
        None => 0,
    }
}

// The place that a value gives.
fn place(value: Value) -> u32
    ensures { result ≡ place_of value }
{
    match value {
        Value::I32(number) => number,
        Value::I64(_) => 0,
    }
}

/// The place that a segment's offset gives, whose expression is there.
pub fn offset_at(decoded: &Module, offset: Place) -> u32
    requires { IsExpression decoded.now.bytes offset }
    ensures { result ≡ offset_of (expression_in decoded.now.bytes offset) }
{
    match read_constant(decoded.bytes(), offset.begin) {
        Some(value) => place(value),
        None => 0,
    }
}
