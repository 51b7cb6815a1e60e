//! What the load and store instructions say of an access: how many bytes, and how a number read
//! fills its operand.
ghost use Rattle.std.specs.Prelude.{◌≡◌};

/// A load instruction, in the order of the opcodes.
#[derive(Clone, Copy)]
pub enum Load {
    /// `i32.load`
    I32,
    /// `i64.load`
    I64,
    /// `i32.load8_s`
    I32Signed8,
    /// `i32.load8_u`
    I32Unsigned8,
    /// `i32.load16_s`
    I32Signed16,
    /// `i32.load16_u`
    I32Unsigned16,
    /// `i64.load8_s`
    I64Signed8,
    /// `i64.load8_u`
    I64Unsigned8,
    /// `i64.load16_s`
    I64Signed16,
    /// `i64.load16_u`
    I64Unsigned16,
    /// `i64.load32_s`
    I64Signed32,
    /// `i64.load32_u`
    I64Unsigned32,
}

impl Load {
    ghost use Rattle.wmem.specs.Access.{reading_of};

    /// How many bytes it reads: 1, 2, 4 or 8.
    #[inline(always)]
    pub fn bytes(self) -> usize
        ensures { result ≡ (reading_of self).bytes }
    {
        match self {
            Load::I32Signed8 | Load::I32Unsigned8 | Load::I64Signed8 | Load::I64Unsigned8 => 1,
            Load::I32Signed16 | Load::I32Unsigned16 | Load::I64Signed16 | Load::I64Unsigned16 => 2,
            Load::I32 | Load::I64Signed32 | Load::I64Unsigned32 => 4,
            Load::I64 => 8,
        }
    }
}

/// How many bytes a store writes.
#[derive(Clone, Copy)]
pub enum Width {
    /// `i32.store8` and `i64.store8`
    One,
    /// `i32.store16` and `i64.store16`
    Two,
    /// `i32.store` and `i64.store32`
    Four,
    /// `i64.store`
    Eight,
}

impl Width {
    ghost use Rattle.wmem.specs.Access.{byte_count};

    /// The number of bytes: 1, 2, 4 or 8.
    #[inline(always)]
    pub fn bytes(self) -> usize
        ensures { result ≡ byte_count self }
    {
        match self {
            Width::One => 1,
            Width::Two => 2,
            Width::Four => 4,
            Width::Eight => 8,
        }
    }
}
