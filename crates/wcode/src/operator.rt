//! The operators that instructions name (WebAssembly Core 1.0, 2.4.1 and 2.4.4), and sign extension
//! (Core 2.0, 2.4.1).

ghost use Rattle.std.specs.Prelude.{◌≡◌};
ghost use Rattle.wcode.specs.Operators.{load_type, load_bytes, store_type, store_bytes};

use crate::value::ValueType;

/// An operator from one number to one of its type.
#[derive(Clone, Copy)]
pub enum UnOp {
    Clz,
    Ctz,
    Popcnt,
}

/// An operator from two numbers to one of their type. `S` and `U` at an end mean that it takes them
/// with a sign or without.
#[derive(Clone, Copy)]
pub enum BinOp {
    Add,
    Sub,
    Mul,
    DivS,
    DivU,
    RemS,
    RemU,
    And,
    Or,
    Xor,
    Shl,
    ShrS,
    ShrU,
    Rotl,
    Rotr,
}

/// A test of one number, whose answer is an i32.
#[derive(Clone, Copy)]
pub enum TestOp {
    Eqz,
}

/// A comparison of two numbers, whose answer is an i32.
#[derive(Clone, Copy)]
pub enum RelOp {
    Eq,
    Ne,
    LtS,
    LtU,
    GtS,
    GtU,
    LeS,
    LeU,
    GeS,
    GeU,
}

/// A conversion between the two types, or within a type: its lowest 8, 16 or 32 bits, widened by
/// copies of their top bit.
#[derive(Clone, Copy)]
pub enum CvtOp {
    WrapI64,
    ExtendI32S,
    ExtendI32U,
    Extend8S(ValueType),
    Extend16S(ValueType),
    /// An i64 from its lowest 32 bits.
    Extend32S,
}

/// How the bytes of a narrow load are widened: by copies of their top bit, or by zeros.
#[derive(Clone, Copy)]
pub enum Sign {
    Signed,
    Unsigned,
}

/// What a load gives: a value of the type from all of its bytes, or from its lowest 8, 16 or 32
/// bits, widened.
#[derive(Clone, Copy)]
pub enum LoadOp {
    Whole(ValueType),
    Narrow8(ValueType, Sign),
    Narrow16(ValueType, Sign),
    /// An i64 from 32 bits.
    Narrow32(Sign),
}

/// What a store writes: all bytes of a value of the type, or its lowest 8, 16 or 32 bits.
#[derive(Clone, Copy)]
pub enum StoreOp {
    Whole(ValueType),
    Narrow8(ValueType),
    Narrow16(ValueType),
    /// 32 bits of an i64.
    Narrow32,
}

impl LoadOp {
    /// The type of what is loaded.
    pub fn value_type(self) -> ValueType
        ensures { result ≡ load_type self }
    {
        match self {
            LoadOp::Whole(t) | LoadOp::Narrow8(t, _) | LoadOp::Narrow16(t, _) => t,
            LoadOp::Narrow32(_) => ValueType::I64,
        }
    }

    /// How many bytes are read.
    pub fn bytes(self) -> usize
        ensures { result ≡ load_bytes self }
    {
        match self {
            LoadOp::Whole(t) => t.bytes(),
            LoadOp::Narrow8(_, _) => 1,
            LoadOp::Narrow16(_, _) => 2,
            LoadOp::Narrow32(_) => 4,
        }
    }
}

impl StoreOp {
    /// The type of what is stored.
    pub fn value_type(self) -> ValueType
        ensures { result ≡ store_type self }
    {
        match self {
            StoreOp::Whole(t) | StoreOp::Narrow8(t) | StoreOp::Narrow16(t) => t,
            StoreOp::Narrow32 => ValueType::I64,
        }
    }

    /// How many bytes are written.
    pub fn bytes(self) -> usize
        ensures { result ≡ store_bytes self }
    {
        match self {
            StoreOp::Whole(t) => t.bytes(),
            StoreOp::Narrow8(_) => 1,
            StoreOp::Narrow16(_) => 2,
            StoreOp::Narrow32 => 4,
        }
    }
}
