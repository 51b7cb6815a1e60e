//! Numbers of 8 and 16 bits as i32 and i64, with their signs kept. That of 32 bits is among the
//! conversions of `wnum`.
#![tactic(auto, using(crate::proofs::Loads::extensions))]

ghost use Rattle.std.specs.Prelude.{◌≡◌};
ghost use Rattle.wnum.specs.Conversion.{extend_s};

/// A signed byte as an i32.
#[inline(always)]
pub(crate) fn i32_extend8_s(value: u8) -> u32
    ensures { result ≡ extend_s 8 32 value }
{
    i32::from(value.cast_signed()).cast_unsigned()
}

/// Two signed bytes as an i32.
#[inline(always)]
pub(crate) fn i32_extend16_s(value: u16) -> u32
    ensures { result ≡ extend_s 16 32 value }
{
    i32::from(value.cast_signed()).cast_unsigned()
}

/// A signed byte as an i64.
#[inline(always)]
pub(crate) fn i64_extend8_s(value: u8) -> u64
    ensures { result ≡ extend_s 8 64 value }
{
    i64::from(value.cast_signed()).cast_unsigned()
}

/// Two signed bytes as an i64.
#[inline(always)]
pub(crate) fn i64_extend16_s(value: u16) -> u64
    ensures { result ≡ extend_s 16 64 value }
{
    i64::from(value.cast_signed()).cast_unsigned()
}
