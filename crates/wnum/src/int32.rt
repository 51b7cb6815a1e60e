//! The operations on i32 (WebAssembly Core 1.0, 4.3.2), and its sign extension (Core 2.0, 4.3.2).
#![tactic(auto, using(crate::proofs::Operations::operations_32))]

ghost use Rattle.std.specs.Prelude.{◌≡◌};
ghost use Rattle.wnum.specs.Integer.{iadd, isub, imul, idiv_u, idiv_s, irem_u, irem_s, iand, ior, ixor, ishl, ishr_u, ishr_s, irotl, irotr, iclz, ictz, ipopcnt, ieqz, ieq, ine, ilt_u, igt_u, ile_u, ige_u, ilt_s, igt_s, ile_s, ige_s};
ghost use Rattle.wnum.specs.Conversion.{iextend_s};

use crate::trap::Trap;

// The least signed number, and -1, as bits.
const LEAST: u32 = 0x8000_0000;

const MINUS_ONE: u32 = 0xFFFF_FFFF;

/// `i32.clz`: how many zero bits stand above the highest set one; 32 at 0.
pub fn clz(value: u32) -> u32
    ensures { result ≡ iclz 32 value }
{
    value.leading_zeros()
}

/// `i32.ctz`: how many zero bits stand below the lowest set one; 32 at 0.
pub fn ctz(value: u32) -> u32
    ensures { result ≡ ictz 32 value }
{
    value.trailing_zeros()
}

/// `i32.popcnt`: how many bits are set.
pub fn popcnt(value: u32) -> u32
    ensures { result ≡ ipopcnt 32 value }
{
    value.count_ones()
}

/// `i32.add`, modulo 2^32.
pub fn add(left: u32, right: u32) -> u32
    ensures { result ≡ iadd 32 left right }
{
    left.wrapping_add(right)
}

/// `i32.sub`, modulo 2^32.
pub fn sub(left: u32, right: u32) -> u32
    ensures { result ≡ isub 32 left right }
{
    left.wrapping_sub(right)
}

/// `i32.mul`, modulo 2^32.
pub fn mul(left: u32, right: u32) -> u32
    ensures { result ≡ imul 32 left right }
{
    left.wrapping_mul(right)
}

/// `i32.div_s`, rounded toward zero. `DivideByZero` at a divisor of 0, `IntegerOverflow` at the
/// least number by -1.
pub fn div_s(dividend: u32, divisor: u32) -> Result<u32, Trap>
    ensures { result ≡ idiv_s 32 dividend divisor }
{
    match (dividend, divisor) {
        (_, 0) => Err(Trap::DivideByZero),
        (LEAST, MINUS_ONE) => Err(Trap::IntegerOverflow),
        _ => Ok((dividend.cast_signed() / divisor.cast_signed()).cast_unsigned()),
    }
}

/// `i32.div_u`, rounded down. `DivideByZero` at a divisor of 0.
pub fn div_u(dividend: u32, divisor: u32) -> Result<u32, Trap>
    ensures { result ≡ idiv_u 32 dividend divisor }
{
    dividend.checked_div(divisor).ok_or(Trap::DivideByZero)
}

/// `i32.rem_s`, with the sign of the dividend. `DivideByZero` at a divisor of 0; 0 at the least
/// number by -1.
pub fn rem_s(dividend: u32, divisor: u32) -> Result<u32, Trap>
    ensures { result ≡ irem_s 32 dividend divisor }
{
    if divisor == 0 {
        return Err(Trap::DivideByZero);
    }
    Ok(
        dividend
            .cast_signed()
            .wrapping_rem(divisor.cast_signed())
            .cast_unsigned(),
    )
}

/// `i32.rem_u`. `DivideByZero` at a divisor of 0.
pub fn rem_u(dividend: u32, divisor: u32) -> Result<u32, Trap>
    ensures { result ≡ irem_u 32 dividend divisor }
{
    dividend.checked_rem(divisor).ok_or(Trap::DivideByZero)
}

/// `i32.and`, bit by bit.
pub fn and(left: u32, right: u32) -> u32
    ensures { result ≡ iand 32 left right }
{
    left & right
}

/// `i32.or`, bit by bit.
pub fn or(left: u32, right: u32) -> u32
    ensures { result ≡ ior 32 left right }
{
    left | right
}

/// `i32.xor`, bit by bit.
pub fn xor(left: u32, right: u32) -> u32
    ensures { result ≡ ixor 32 left right }
{
    left ^ right
}

/// `i32.shl`, by the count modulo 32.
pub fn shl(value: u32, count: u32) -> u32
    ensures { result ≡ ishl 32 value count }
{
    value << (count % 32)
}

/// `i32.shr_s`, by the count modulo 32, with copies of the highest bit.
pub fn shr_s(value: u32, count: u32) -> u32
    ensures { result ≡ ishr_s 32 value count }
{
    (value.cast_signed() >> (count % 32)).cast_unsigned()
}

/// `i32.shr_u`, by the count modulo 32, with zeros.
pub fn shr_u(value: u32, count: u32) -> u32
    ensures { result ≡ ishr_u 32 value count }
{
    value >> (count % 32)
}

/// `i32.rotl`, by the count modulo 32.
pub fn rotl(value: u32, count: u32) -> u32
    ensures { result ≡ irotl 32 value count }
{
    value.rotate_left(count % 32)
}

/// `i32.rotr`, by the count modulo 32.
pub fn rotr(value: u32, count: u32) -> u32
    ensures { result ≡ irotr 32 value count }
{
    value.rotate_right(count % 32)
}

/// `i32.extend8_s`: the lowest 8 bits, above them copies of the highest of these.
pub fn extend8_s(value: u32) -> u32
    ensures { result ≡ iextend_s 8 32 value }
{
    let low_8 = (value % (1 << 8)) as u8;
    i32::from(low_8.cast_signed()).cast_unsigned()
}

/// `i32.extend16_s`: the lowest 16 bits, above them copies of the highest of these.
pub fn extend16_s(value: u32) -> u32
    ensures { result ≡ iextend_s 16 32 value }
{
    let low_16 = (value % (1 << 16)) as u16;
    i32::from(low_16.cast_signed()).cast_unsigned()
}

/// `i32.eqz`: 1 at 0, else 0. As it does, the relations below answer 1 where they hold, and 0 where
/// they don't.
pub fn eqz(value: u32) -> u32
    ensures { result ≡ ieqz 32 value }
{
    u32::from(value == 0)
}

/// `i32.eq`.
pub fn eq(left: u32, right: u32) -> u32
    ensures { result ≡ ieq 32 left right }
{
    u32::from(left == right)
}

/// `i32.ne`.
pub fn ne(left: u32, right: u32) -> u32
    ensures { result ≡ ine 32 left right }
{
    u32::from(left != right)
}

/// `i32.lt_s`.
pub fn lt_s(left: u32, right: u32) -> u32
    ensures { result ≡ ilt_s 32 left right }
{
    u32::from(left.cast_signed() < right.cast_signed())
}

/// `i32.lt_u`.
pub fn lt_u(left: u32, right: u32) -> u32
    ensures { result ≡ ilt_u 32 left right }
{
    u32::from(left < right)
}

/// `i32.gt_s`.
pub fn gt_s(left: u32, right: u32) -> u32
    ensures { result ≡ igt_s 32 left right }
{
    u32::from(left.cast_signed() > right.cast_signed())
}

/// `i32.gt_u`.
pub fn gt_u(left: u32, right: u32) -> u32
    ensures { result ≡ igt_u 32 left right }
{
    u32::from(left > right)
}

/// `i32.le_s`.
pub fn le_s(left: u32, right: u32) -> u32
    ensures { result ≡ ile_s 32 left right }
{
    u32::from(left.cast_signed() <= right.cast_signed())
}

/// `i32.le_u`.
pub fn le_u(left: u32, right: u32) -> u32
    ensures { result ≡ ile_u 32 left right }
{
    u32::from(left <= right)
}

/// `i32.ge_s`.
pub fn ge_s(left: u32, right: u32) -> u32
    ensures { result ≡ ige_s 32 left right }
{
    u32::from(left.cast_signed() >= right.cast_signed())
}

/// `i32.ge_u`.
pub fn ge_u(left: u32, right: u32) -> u32
    ensures { result ≡ ige_u 32 left right }
{
    u32::from(left >= right)
}
