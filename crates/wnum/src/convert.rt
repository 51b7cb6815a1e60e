//! The conversions between i32 and i64 (WebAssembly Core 1.0, 4.3.4).
#![tactic(auto, using(crate::proofs::Operations::conversions))]

ghost use Rattle.std.specs.Prelude.{◌≡◌};
ghost use Rattle.wnum.specs.Conversion.{wrap, extend_u, extend_s};

/// `i32.wrap_i64`: the lowest 32 bits.
pub fn wrap_i64(value: u64) -> u32
    ensures { result ≡ wrap 64 32 value }
{
    (value % (1 << 32)) as u32
}

/// `i64.extend_i32_s`: the same signed number.
#[inline(always)]
pub fn extend_i32_s(value: u32) -> u64
    ensures { result ≡ extend_s 32 64 value }
{
    i64::from(value.cast_signed()).cast_unsigned()
}

/// `i64.extend_i32_u`: the same unsigned number.
pub fn extend_i32_u(value: u32) -> u64
    ensures { result ≡ extend_u 32 64 value }
{
    u64::from(value)
}
