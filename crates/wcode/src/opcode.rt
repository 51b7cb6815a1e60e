//! What each opcode stands for (WebAssembly Core 1.0, 5.4; sign extension: Core 2.0, 5.4.7).

ghost use Rattle.std.specs.Prelude.{◌≡◌, ℕ, List};
ghost use Rattle.wcode.specs.Grammar.{opens};
ghost use Rattle.wcode.specs.Shown.{Shows};
ghost use Rattle.wcode.specs.Opcodes.{form, indexed_plain};

use crate::instruction::{Op, Plain};
use crate::operator::{BinOp, CvtOp, LoadOp, RelOp, Sign, StoreOp, TestOp, UnOp};
use crate::value::{BlockType, ValueType};

/// An opcode, and what follows it.
#[derive(Clone, Copy)]
pub enum Form {
    /// Nothing follows.
    Plain(Plain),
    /// The type of a block follows, and its body.
    Opens(Opening),
    /// The second body of an `if` follows.
    Else,
    /// A body ends.
    End,
    /// An index follows.
    Indexed(Indexed),
    /// A list of labels follows, and one more label.
    BrTable,
    /// An index follows, and the byte 0.
    CallIndirect,
    /// An alignment and an offset follow.
    Load(LoadOp),
    /// An alignment and an offset follow.
    Store(StoreOp),
    /// The byte 0 follows.
    ZeroByte(Plain),
    /// A signed number follows.
    Const(ValueType),
    /// An instruction on floats, which isn't read.
    Float,
    /// No instruction.
    Bad,
}

/// An instruction that opens a block.
#[derive(Clone, Copy)]
pub enum Opening {
    Block,
    Loop,
    If,
}

/// An instruction with an index.
#[derive(Clone, Copy)]
pub enum Indexed {
    Br,
    BrIf,
    Call,
    LocalGet,
    LocalSet,
    LocalTee,
    GlobalGet,
    GlobalSet,
}

impl Opening {
    /// The instruction, for a block of this type.
    pub fn op(self, t: BlockType) -> Op
        ensures { (bytes : List ℕ) → Shows bytes result (opens self t) }
    {
        match self {
            Opening::Block => Op::Block(t),
            Opening::Loop => Op::Loop(t),
            Opening::If => Op::If(t),
        }
    }
}

impl Indexed {
    /// The instruction, with this index.
    pub fn plain(self, index: u32) -> Plain
        ensures { result ≡ indexed_plain self index }
    {
        match self {
            Indexed::Br => Plain::Br(index),
            Indexed::BrIf => Plain::BrIf(index),
            Indexed::Call => Plain::Call(index),
            Indexed::LocalGet => Plain::LocalGet(index),
            Indexed::LocalSet => Plain::LocalSet(index),
            Indexed::LocalTee => Plain::LocalTee(index),
            Indexed::GlobalGet => Plain::GlobalGet(index),
            Indexed::GlobalSet => Plain::GlobalSet(index),
        }
    }
}

/// What an opcode stands for.
#[inline]
pub fn form_of(opcode: u8) -> Form
    ensures { result ≡ form opcode }
{
    FORMS[opcode as usize]
}

// The opcodes in order.
static FORMS: [Form; 256] = [
    // 0x00
    Form::Plain(Plain::Unreachable),
    Form::Plain(Plain::Nop),
    Form::Opens(Opening::Block),
    Form::Opens(Opening::Loop),
    Form::Opens(Opening::If),
    Form::Else,
    Form::Bad,
    Form::Bad,
    Form::Bad,
    Form::Bad,
    Form::Bad,
    Form::End,
    Form::Indexed(Indexed::Br),
    Form::Indexed(Indexed::BrIf),
    Form::BrTable,
    Form::Plain(Plain::Return),
    // 0x10
    Form::Indexed(Indexed::Call),
    Form::CallIndirect,
    Form::Bad,
    Form::Bad,
    Form::Bad,
    Form::Bad,
    Form::Bad,
    Form::Bad,
    Form::Bad,
    Form::Bad,
    Form::Plain(Plain::Drop),
    Form::Plain(Plain::Select),
    Form::Bad,
    Form::Bad,
    Form::Bad,
    Form::Bad,
    // 0x20
    Form::Indexed(Indexed::LocalGet),
    Form::Indexed(Indexed::LocalSet),
    Form::Indexed(Indexed::LocalTee),
    Form::Indexed(Indexed::GlobalGet),
    Form::Indexed(Indexed::GlobalSet),
    Form::Bad,
    Form::Bad,
    Form::Bad,
    Form::Load(LoadOp::Whole(ValueType::I32)),
    Form::Load(LoadOp::Whole(ValueType::I64)),
    Form::Float,
    Form::Float,
    Form::Load(LoadOp::Narrow8(ValueType::I32, Sign::Signed)),
    Form::Load(LoadOp::Narrow8(ValueType::I32, Sign::Unsigned)),
    Form::Load(LoadOp::Narrow16(ValueType::I32, Sign::Signed)),
    Form::Load(LoadOp::Narrow16(ValueType::I32, Sign::Unsigned)),
    // 0x30
    Form::Load(LoadOp::Narrow8(ValueType::I64, Sign::Signed)),
    Form::Load(LoadOp::Narrow8(ValueType::I64, Sign::Unsigned)),
    Form::Load(LoadOp::Narrow16(ValueType::I64, Sign::Signed)),
    Form::Load(LoadOp::Narrow16(ValueType::I64, Sign::Unsigned)),
    Form::Load(LoadOp::Narrow32(Sign::Signed)),
    Form::Load(LoadOp::Narrow32(Sign::Unsigned)),
    Form::Store(StoreOp::Whole(ValueType::I32)),
    Form::Store(StoreOp::Whole(ValueType::I64)),
    Form::Float,
    Form::Float,
    Form::Store(StoreOp::Narrow8(ValueType::I32)),
    Form::Store(StoreOp::Narrow16(ValueType::I32)),
    Form::Store(StoreOp::Narrow8(ValueType::I64)),
    Form::Store(StoreOp::Narrow16(ValueType::I64)),
    Form::Store(StoreOp::Narrow32),
    Form::ZeroByte(Plain::MemorySize),
    // 0x40
    Form::ZeroByte(Plain::MemoryGrow),
    Form::Const(ValueType::I32),
    Form::Const(ValueType::I64),
    Form::Float,
    Form::Float,
    Form::Plain(Plain::Test(ValueType::I32, TestOp::Eqz)),
    Form::Plain(Plain::Relation(ValueType::I32, RelOp::Eq)),
    Form::Plain(Plain::Relation(ValueType::I32, RelOp::Ne)),
    Form::Plain(Plain::Relation(ValueType::I32, RelOp::LtS)),
    Form::Plain(Plain::Relation(ValueType::I32, RelOp::LtU)),
    Form::Plain(Plain::Relation(ValueType::I32, RelOp::GtS)),
    Form::Plain(Plain::Relation(ValueType::I32, RelOp::GtU)),
    Form::Plain(Plain::Relation(ValueType::I32, RelOp::LeS)),
    Form::Plain(Plain::Relation(ValueType::I32, RelOp::LeU)),
    Form::Plain(Plain::Relation(ValueType::I32, RelOp::GeS)),
    Form::Plain(Plain::Relation(ValueType::I32, RelOp::GeU)),
    // 0x50
    Form::Plain(Plain::Test(ValueType::I64, TestOp::Eqz)),
    Form::Plain(Plain::Relation(ValueType::I64, RelOp::Eq)),
    Form::Plain(Plain::Relation(ValueType::I64, RelOp::Ne)),
    Form::Plain(Plain::Relation(ValueType::I64, RelOp::LtS)),
    Form::Plain(Plain::Relation(ValueType::I64, RelOp::LtU)),
    Form::Plain(Plain::Relation(ValueType::I64, RelOp::GtS)),
    Form::Plain(Plain::Relation(ValueType::I64, RelOp::GtU)),
    Form::Plain(Plain::Relation(ValueType::I64, RelOp::LeS)),
    Form::Plain(Plain::Relation(ValueType::I64, RelOp::LeU)),
    Form::Plain(Plain::Relation(ValueType::I64, RelOp::GeS)),
    Form::Plain(Plain::Relation(ValueType::I64, RelOp::GeU)),
    Form::Float,
    Form::Float,
    Form::Float,
    Form::Float,
    Form::Float,
    // 0x60
    Form::Float,
    Form::Float,
    Form::Float,
    Form::Float,
    Form::Float,
    Form::Float,
    Form::Float,
    Form::Plain(Plain::Unary(ValueType::I32, UnOp::Clz)),
    Form::Plain(Plain::Unary(ValueType::I32, UnOp::Ctz)),
    Form::Plain(Plain::Unary(ValueType::I32, UnOp::Popcnt)),
    Form::Plain(Plain::Binary(ValueType::I32, BinOp::Add)),
    Form::Plain(Plain::Binary(ValueType::I32, BinOp::Sub)),
    Form::Plain(Plain::Binary(ValueType::I32, BinOp::Mul)),
    Form::Plain(Plain::Binary(ValueType::I32, BinOp::DivS)),
    Form::Plain(Plain::Binary(ValueType::I32, BinOp::DivU)),
    Form::Plain(Plain::Binary(ValueType::I32, BinOp::RemS)),
    // 0x70
    Form::Plain(Plain::Binary(ValueType::I32, BinOp::RemU)),
    Form::Plain(Plain::Binary(ValueType::I32, BinOp::And)),
    Form::Plain(Plain::Binary(ValueType::I32, BinOp::Or)),
    Form::Plain(Plain::Binary(ValueType::I32, BinOp::Xor)),
    Form::Plain(Plain::Binary(ValueType::I32, BinOp::Shl)),
    Form::Plain(Plain::Binary(ValueType::I32, BinOp::ShrS)),
    Form::Plain(Plain::Binary(ValueType::I32, BinOp::ShrU)),
    Form::Plain(Plain::Binary(ValueType::I32, BinOp::Rotl)),
    Form::Plain(Plain::Binary(ValueType::I32, BinOp::Rotr)),
    Form::Plain(Plain::Unary(ValueType::I64, UnOp::Clz)),
    Form::Plain(Plain::Unary(ValueType::I64, UnOp::Ctz)),
    Form::Plain(Plain::Unary(ValueType::I64, UnOp::Popcnt)),
    Form::Plain(Plain::Binary(ValueType::I64, BinOp::Add)),
    Form::Plain(Plain::Binary(ValueType::I64, BinOp::Sub)),
    Form::Plain(Plain::Binary(ValueType::I64, BinOp::Mul)),
    Form::Plain(Plain::Binary(ValueType::I64, BinOp::DivS)),
    // 0x80
    Form::Plain(Plain::Binary(ValueType::I64, BinOp::DivU)),
    Form::Plain(Plain::Binary(ValueType::I64, BinOp::RemS)),
    Form::Plain(Plain::Binary(ValueType::I64, BinOp::RemU)),
    Form::Plain(Plain::Binary(ValueType::I64, BinOp::And)),
    Form::Plain(Plain::Binary(ValueType::I64, BinOp::Or)),
    Form::Plain(Plain::Binary(ValueType::I64, BinOp::Xor)),
    Form::Plain(Plain::Binary(ValueType::I64, BinOp::Shl)),
    Form::Plain(Plain::Binary(ValueType::I64, BinOp::ShrS)),
    Form::Plain(Plain::Binary(ValueType::I64, BinOp::ShrU)),
    Form::Plain(Plain::Binary(ValueType::I64, BinOp::Rotl)),
    Form::Plain(Plain::Binary(ValueType::I64, BinOp::Rotr)),
    Form::Float,
    Form::Float,
    Form::Float,
    Form::Float,
    Form::Float,
    // 0x90
    Form::Float,
    Form::Float,
    Form::Float,
    Form::Float,
    Form::Float,
    Form::Float,
    Form::Float,
    Form::Float,
    Form::Float,
    Form::Float,
    Form::Float,
    Form::Float,
    Form::Float,
    Form::Float,
    Form::Float,
    Form::Float,
    // 0xA0
    Form::Float,
    Form::Float,
    Form::Float,
    Form::Float,
    Form::Float,
    Form::Float,
    Form::Float,
    Form::Plain(Plain::Convert(CvtOp::WrapI64)),
    Form::Float,
    Form::Float,
    Form::Float,
    Form::Float,
    Form::Plain(Plain::Convert(CvtOp::ExtendI32S)),
    Form::Plain(Plain::Convert(CvtOp::ExtendI32U)),
    Form::Float,
    Form::Float,
    // 0xB0
    Form::Float,
    Form::Float,
    Form::Float,
    Form::Float,
    Form::Float,
    Form::Float,
    Form::Float,
    Form::Float,
    Form::Float,
    Form::Float,
    Form::Float,
    Form::Float,
    Form::Float,
    Form::Float,
    Form::Float,
    Form::Float,
    // 0xC0
    Form::Plain(Plain::Convert(CvtOp::Extend8S(ValueType::I32))),
    Form::Plain(Plain::Convert(CvtOp::Extend16S(ValueType::I32))),
    Form::Plain(Plain::Convert(CvtOp::Extend8S(ValueType::I64))),
    Form::Plain(Plain::Convert(CvtOp::Extend16S(ValueType::I64))),
    Form::Plain(Plain::Convert(CvtOp::Extend32S)),
    Form::Bad,
    Form::Bad,
    Form::Bad,
    Form::Bad,
    Form::Bad,
    Form::Bad,
    Form::Bad,
    Form::Bad,
    Form::Bad,
    Form::Bad,
    Form::Bad,
    // 0xD0
    Form::Bad,
    Form::Bad,
    Form::Bad,
    Form::Bad,
    Form::Bad,
    Form::Bad,
    Form::Bad,
    Form::Bad,
    Form::Bad,
    Form::Bad,
    Form::Bad,
    Form::Bad,
    Form::Bad,
    Form::Bad,
    Form::Bad,
    Form::Bad,
    // 0xE0
    Form::Bad,
    Form::Bad,
    Form::Bad,
    Form::Bad,
    Form::Bad,
    Form::Bad,
    Form::Bad,
    Form::Bad,
    Form::Bad,
    Form::Bad,
    Form::Bad,
    Form::Bad,
    Form::Bad,
    Form::Bad,
    Form::Bad,
    Form::Bad,
    // 0xF0
    Form::Bad,
    Form::Bad,
    Form::Bad,
    Form::Bad,
    Form::Bad,
    Form::Bad,
    Form::Bad,
    Form::Bad,
    Form::Bad,
    Form::Bad,
    Form::Bad,
    Form::Bad,
    Form::Bad,
    Form::Bad,
    Form::Bad,
    Form::Bad,
];
