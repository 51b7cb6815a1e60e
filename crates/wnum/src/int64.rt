//! The operations on i64 (WebAssembly Core 1.0, 4.3.2), and its sign extension (Core 2.0, 4.3.2).
#![tactic(auto, using(crate::proofs::Operations::operations_64))]

ghost use Rattle.std.specs.Prelude.{◌≡◌};
ghost use Rattle.wnum.specs.Integer.{iadd, isub, imul, idiv_u, idiv_s, irem_u, irem_s, iand, ior, ixor, ishl, ishr_u, ishr_s, irotl, irotr, iclz, ictz, ipopcnt, ieqz, ieq, ine, ilt_u, igt_u, ile_u, ige_u, ilt_s, igt_s, ile_s, ige_s};
ghost use Rattle.wnum.specs.Conversion.{iextend_s};

use crate::trap::Trap;

// The least signed number, and -1, as bits.
const LEAST: u64 = 0x8000_0000_0000_0000;

const MINUS_ONE: u64 = 0xFFFF_FFFF_FFFF_FFFF;

/// `i64.clz`: how many zero bits stand above the highest set one; 64 at 0.
pub fn clz(value: u64) -> u64
    ensures { result ≡ iclz 64 value }
{
    u64::from(value.leading_zeros())
}

/// `i64.ctz`: how many zero bits stand below the lowest set one; 64 at 0.
pub fn ctz(value: u64) -> u64
    ensures { result ≡ ictz 64 value }
{
    u64::from(value.trailing_zeros())
}

/// `i64.popcnt`: how many bits are set.
pub fn popcnt(value: u64) -> u64
    ensures { result ≡ ipopcnt 64 value }
{
    u64::from(value.count_ones())
}

/// `i64.add`, modulo 2^64.
pub fn add(left: u64, right: u64) -> u64
    ensures { result ≡ iadd 64 left right }
{
    left.wrapping_add(right)
}

/// `i64.sub`, modulo 2^64.
pub fn sub(left: u64, right: u64) -> u64
    ensures { result ≡ isub 64 left right }
{
    left.wrapping_sub(right)
}

/// `i64.mul`, modulo 2^64.
pub fn mul(left: u64, right: u64) -> u64
    ensures { result ≡ imul 64 left right }
{
    left.wrapping_mul(right)
}

/// `i64.div_s`, rounded toward zero. `DivideByZero` at a divisor of 0, `IntegerOverflow` at the
/// least number by -1.
pub fn div_s(dividend: u64, divisor: u64) -> Result<u64, Trap>
    ensures { result ≡ idiv_s 64 dividend divisor }
{
    match (dividend, divisor) {
        (_, 0) => Err(Trap::DivideByZero),
        (LEAST, MINUS_ONE) => Err(Trap::IntegerOverflow),
        _ => Ok((dividend.cast_signed() / divisor.cast_signed()).cast_unsigned()),
    }
}

/// `i64.div_u`, rounded down. `DivideByZero` at a divisor of 0.
pub fn div_u(dividend: u64, divisor: u64) -> Result<u64, Trap>
    ensures { result ≡ idiv_u 64 dividend divisor }
{
    dividend.checked_div(divisor).ok_or(Trap::DivideByZero)
}

/// `i64.rem_s`, with the sign of the dividend. `DivideByZero` at a divisor of 0; 0 at the least
/// number by -1.
pub fn rem_s(dividend: u64, divisor: u64) -> Result<u64, Trap>
    ensures { result ≡ irem_s 64 dividend divisor }
{
    if divisor == 0 {
        return Err(Trap::DivideByZero);
    }
    Ok(
        dividend
            .cast_signed()
            .wrapping_rem(divisor.cast_signed())
            .cast_unsigned(),
    )
}

/// `i64.rem_u`. `DivideByZero` at a divisor of 0.
pub fn rem_u(dividend: u64, divisor: u64) -> Result<u64, Trap>
    ensures { result ≡ irem_u 64 dividend divisor }
{
    dividend.checked_rem(divisor).ok_or(Trap::DivideByZero)
}

/// `i64.and`, bit by bit.
pub fn and(left: u64, right: u64) -> u64
    ensures { result ≡ iand 64 left right }
{
    left & right
}

/// `i64.or`, bit by bit.
pub fn or(left: u64, right: u64) -> u64
    ensures { result ≡ ior 64 left right }
{
    left | right
}

/// `i64.xor`, bit by bit.
pub fn xor(left: u64, right: u64) -> u64
    ensures { result ≡ ixor 64 left right }
{
    left ^ right
}

/// `i64.shl`, by the count modulo 64.
pub fn shl(value: u64, count: u64) -> u64
    ensures { result ≡ ishl 64 value count }
{
    value << (count % 64)
}

/// `i64.shr_s`, by the count modulo 64, with copies of the highest bit.
pub fn shr_s(value: u64, count: u64) -> u64
    ensures { result ≡ ishr_s 64 value count }
{
    (value.cast_signed() >> (count % 64)).cast_unsigned()
}

/// `i64.shr_u`, by the count modulo 64, with zeros.
pub fn shr_u(value: u64, count: u64) -> u64
    ensures { result ≡ ishr_u 64 value count }
{
    value >> (count % 64)
}

/// `i64.rotl`, by the count modulo 64.
pub fn rotl(value: u64, count: u64) -> u64
    ensures { result ≡ irotl 64 value count }
{
    value.rotate_left((count % 64) as u32)
}

/// `i64.rotr`, by the count modulo 64.
pub fn rotr(value: u64, count: u64) -> u64
    ensures { result ≡ irotr 64 value count }
{
    value.rotate_right((count % 64) as u32)
}

/// `i64.extend8_s`: the lowest 8 bits, above them copies of the highest of these.
pub fn extend8_s(value: u64) -> u64
    ensures { result ≡ iextend_s 8 64 value }
{
    let low_8 = (value % (1 << 8)) as u8;
    i64::from(low_8.cast_signed()).cast_unsigned()
}

/// `i64.extend16_s`: the lowest 16 bits, above them copies of the highest of these.
pub fn extend16_s(value: u64) -> u64
    ensures { result ≡ iextend_s 16 64 value }
{
    let low_16 = (value % (1 << 16)) as u16;
    i64::from(low_16.cast_signed()).cast_unsigned()
}

/// `i64.extend32_s`: the lowest 32 bits, above them copies of the highest of these.
pub fn extend32_s(value: u64) -> u64
    ensures { result ≡ iextend_s 32 64 value }
{
    let low_32 = (value % (1 << 32)) as u32;
    i64::from(low_32.cast_signed()).cast_unsigned()
}

/// `i64.eqz`: 1 at 0, else 0. As it does, the relations below answer 1 where they hold, and 0 where
/// they don't.
pub fn eqz(value: u64) -> u64
    ensures { result ≡ ieqz 64 value }
{
    u64::from(value == 0)
}

/// `i64.eq`.
pub fn eq(left: u64, right: u64) -> u64
    ensures { result ≡ ieq 64 left right }
{
    u64::from(left == right)
}

/// `i64.ne`.
pub fn ne(left: u64, right: u64) -> u64
    ensures { result ≡ ine 64 left right }
{
    u64::from(left != right)
}

/// `i64.lt_s`.
pub fn lt_s(left: u64, right: u64) -> u64
    ensures { result ≡ ilt_s 64 left right }
{
    u64::from(left.cast_signed() < right.cast_signed())
}

/// `i64.lt_u`.
pub fn lt_u(left: u64, right: u64) -> u64
    ensures { result ≡ ilt_u 64 left right }
{
    u64::from(left < right)
}

/// `i64.gt_s`.
pub fn gt_s(left: u64, right: u64) -> u64
    ensures { result ≡ igt_s 64 left right }
{
    u64::from(left.cast_signed() > right.cast_signed())
}

/// `i64.gt_u`.
pub fn gt_u(left: u64, right: u64) -> u64
    ensures { result ≡ igt_u 64 left right }
{
    u64::from(left > right)
}

/// `i64.le_s`.
pub fn le_s(left: u64, right: u64) -> u64
    ensures { result ≡ ile_s 64 left right }
{
    u64::from(left.cast_signed() <= right.cast_signed())
}

/// `i64.le_u`.
pub fn le_u(left: u64, right: u64) -> u64
    ensures { result ≡ ile_u 64 left right }
{
    u64::from(left <= right)
}

/// `i64.ge_s`.
pub fn ge_s(left: u64, right: u64) -> u64
    ensures { result ≡ ige_s 64 left right }
{
    u64::from(left.cast_signed() >= right.cast_signed())
}

/// `i64.ge_u`.
pub fn ge_u(left: u64, right: u64) -> u64
    ensures { result ≡ ige_u 64 left right }
{
    u64::from(left >= right)
}
