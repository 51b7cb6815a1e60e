//! What an instruction does to the operands, as far as its opcode tells it.

ghost use Rattle.std.specs.Prelude.{◌≡◌, ◌≢◌};
ghost use Rattle.wcode.specs.Opcodes.{form};
ghost use Rattle.wbody.specs.inside.Kinds.{form_kind};

use wcode::{LoadOp, Sign, StoreOp, ValueType};

// What the instruction of an opcode does.
#[derive(Clone, Copy)]
pub enum Kind {
    // Takes one operand of the first type, and gives one of the second.
    One(ValueType, ValueType),
    // Takes two operands of the first type, and gives one of the second.
    Two(ValueType, ValueType),
    // Gives a constant that follows.
    Constant(ValueType),
    LocalGet,
    LocalSet,
    LocalTee,
    Load(LoadOp),
    Store(StoreOp),
    Drop,
    // What this list doesn't name.
    Other,
}

// What the instruction of an opcode does, or that this isn't told.
#[inline(always)]
pub fn kind_of(opcode: u8) -> Kind
    ensures { result ≢ Kind.Other → result ≡ form_kind (form opcode) }
{
    use LoadOp::{Narrow8, Narrow16, Narrow32, Whole};
    use Sign::{Signed, Unsigned};
    use ValueType::{I32, I64};
    match opcode {
        0x1A => Kind::Drop,
        0x20 => Kind::LocalGet,
        0x21 => Kind::LocalSet,
        0x22 => Kind::LocalTee,
        0x28 => Kind::Load(Whole(I32)),
        0x29 => Kind::Load(Whole(I64)),
        0x2C => Kind::Load(Narrow8(I32, Signed)),
        0x2D => Kind::Load(Narrow8(I32, Unsigned)),
        0x2E => Kind::Load(Narrow16(I32, Signed)),
        0x2F => Kind::Load(Narrow16(I32, Unsigned)),
        0x30 => Kind::Load(Narrow8(I64, Signed)),
        0x31 => Kind::Load(Narrow8(I64, Unsigned)),
        0x32 => Kind::Load(Narrow16(I64, Signed)),
        0x33 => Kind::Load(Narrow16(I64, Unsigned)),
        0x34 => Kind::Load(Narrow32(Signed)),
        0x35 => Kind::Load(Narrow32(Unsigned)),
        0x36 => Kind::Store(StoreOp::Whole(I32)),
        0x37 => Kind::Store(StoreOp::Whole(I64)),
        0x3A => Kind::Store(StoreOp::Narrow8(I32)),
        0x3B => Kind::Store(StoreOp::Narrow16(I32)),
        0x3C => Kind::Store(StoreOp::Narrow8(I64)),
        0x3D => Kind::Store(StoreOp::Narrow16(I64)),
        0x3E => Kind::Store(StoreOp::Narrow32),
        0x41 => Kind::Constant(I32),
        0x42 => Kind::Constant(I64),
        0x45 => Kind::One(I32, I32),
        0x46..=0x4F => Kind::Two(I32, I32),
        0x50 => Kind::One(I64, I32),
        0x51..=0x5A => Kind::Two(I64, I32),
        0x67..=0x69 => Kind::One(I32, I32),
        0x6A..=0x78 => Kind::Two(I32, I32),
        0x79..=0x7B => Kind::One(I64, I64),
        0x7C..=0x8A => Kind::Two(I64, I64),
        0xA7 => Kind::One(I64, I32),
        0xAC..=0xAD => Kind::One(I32, I64),
        0xC0..=0xC1 => Kind::One(I32, I32),
        0xC2..=0xC4 => Kind::One(I64, I64),
        _ => Kind::Other,
    }
}
