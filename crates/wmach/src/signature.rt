//! Whether types of functions are one (WebAssembly Core 1.0, 2.3.3): they are compared by what they
//! are, not by their indices.

ghost use Rattle.std.specs.Prelude.{◌≡◌};
ghost use Rattle.wmodule.specs.Syntax.{signature_of};
ghost use Rattle.wbody.specs.Pass.{same_type as defined_type, same_types as defined_types};
ghost use Rattle.wmach.specs.Indirect.{same_result as defined_result, same_signature as defined_signature};

use wcode::ValueType;
use wmodule::FunctionType;

// One type is the other.
fn same_type(a: ValueType, b: ValueType) -> bool
    ensures { result ≡ defined_type a b }
{
    match (a, b) {
        (ValueType::I32, ValueType::I32) | (ValueType::I64, ValueType::I64) => true,
        _ => false,
    }
}

// The same types in the same order.
fn same_types(a: &[ValueType], b: &[ValueType]) -> bool
    ensures { result ≡ defined_types a.now b.now }
{
    a == b
}

fn same_result(a: Option<ValueType>, b: Option<ValueType>) -> bool
    ensures { result ≡ defined_result a b }
{
    match (a, b) {
        (None, None) => true,
        (Some(t), Some(u)) => same_type(t, u),
        _ => false,
    }
}

/// The types of two functions are one.
pub fn same_signature(a: &FunctionType, b: &FunctionType) -> bool
    ensures { result ≡ defined_signature (signature_of a.now) (signature_of b.now) }
{
    same_types(a.parameters.as_slice(), b.parameters.as_slice()) && same_result(a.result, b.result)
}
