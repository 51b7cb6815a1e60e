//! The types of values and blocks, and values (WebAssembly Core 1.0, 2.3.1, 2.3.2 and 4.2.1).

ghost use Rattle.std.specs.Prelude.{◌≡◌};
ghost use Rattle.wcode.specs.Operators.{type_of, type_bytes};

/// The type of a value. Floats have no type here.
#[derive(Clone, Copy, PartialEq, Eq)]
pub enum ValueType {
    I32,
    I64,
}

/// The type of a block: no result, or one.
#[derive(Clone, Copy)]
pub enum BlockType {
    Empty,
    Result(ValueType),
}

/// A value: its type, and its bits as a number without a sign.
#[derive(Clone, Copy)]
pub enum Value {
    I32(u32),
    I64(u64),
}

impl ValueType {
    /// How many bytes a value has.
    pub fn bytes(self) -> usize
        ensures { result ≡ type_bytes self }
    {
        match self {
            ValueType::I32 => 4,
            ValueType::I64 => 8,
        }
    }
}

impl Value {
    /// The type of the value.
    pub fn value_type(self) -> ValueType
        ensures { result ≡ type_of self }
    {
        match self {
            Value::I32(_) => ValueType::I32,
            Value::I64(_) => ValueType::I64,
        }
    }
}
