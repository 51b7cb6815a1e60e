//! The numeric instructions (WebAssembly Core 1.0 and 2.0, 4.4.1) by the operations of `wnum`: on
//! numbers of 32 and 64 bits, and on slots of 64 bits, which hold either.

ghost use Rattle.std.specs.Prelude.{◌≡◌, ◌<◌, ◌^◌, IfOk};
ghost use Rattle.wmach.specs.Operands.{width_of};
ghost use Rattle.wmach.specs.Numeric.{unary_gives, binary_gives, test_gives, relation_gives, converted_from, converted_to, conversion_gives, trap_where as trap_of};

use rules::Trap;
use wcode::{BinOp, CvtOp, RelOp, TestOp, UnOp, ValueType};
use wnum::{convert as conversions, int32, int64};

/// An operator on one number of 32 bits.
#[inline(always)]
pub fn unary32(op: UnOp, a: u32) -> u32
    ensures { result ≡ unary_gives op 32 a }
{
    match op {
        UnOp::Clz => int32::clz(a),
        UnOp::Ctz => int32::ctz(a),
        UnOp::Popcnt => int32::popcnt(a),
    }
}

/// An operator on two numbers of 32 bits, or why it is undefined.
#[inline(always)]
pub fn binary32(op: BinOp, a: u32, b: u32) -> Result<u32, wnum::Trap>
    ensures { result ≡ binary_gives op 32 a b }
{
    match op {
        BinOp::Add => Ok(int32::add(a, b)),
        BinOp::Sub => Ok(int32::sub(a, b)),
        BinOp::Mul => Ok(int32::mul(a, b)),
        BinOp::DivS => int32::div_s(a, b),
        BinOp::DivU => int32::div_u(a, b),
        BinOp::RemS => int32::rem_s(a, b),
        BinOp::RemU => int32::rem_u(a, b),
        BinOp::And => Ok(int32::and(a, b)),
        BinOp::Or => Ok(int32::or(a, b)),
        BinOp::Xor => Ok(int32::xor(a, b)),
        BinOp::Shl => Ok(int32::shl(a, b)),
        BinOp::ShrS => Ok(int32::shr_s(a, b)),
        BinOp::ShrU => Ok(int32::shr_u(a, b)),
        BinOp::Rotl => Ok(int32::rotl(a, b)),
        BinOp::Rotr => Ok(int32::rotr(a, b)),
    }
}

/// A comparison of two numbers of 32 bits.
#[inline(always)]
pub fn relation32(op: RelOp, a: u32, b: u32) -> u32
    ensures { result ≡ relation_gives op 32 a b }
{
    match op {
        RelOp::Eq => int32::eq(a, b),
        RelOp::Ne => int32::ne(a, b),
        RelOp::LtS => int32::lt_s(a, b),
        RelOp::LtU => int32::lt_u(a, b),
        RelOp::GtS => int32::gt_s(a, b),
        RelOp::GtU => int32::gt_u(a, b),
        RelOp::LeS => int32::le_s(a, b),
        RelOp::LeU => int32::le_u(a, b),
        RelOp::GeS => int32::ge_s(a, b),
        RelOp::GeU => int32::ge_u(a, b),
    }
}

/// An operator on one number of 64 bits.
#[inline(always)]
pub fn unary64(op: UnOp, a: u64) -> u64
    ensures { result ≡ unary_gives op 64 a }
{
    match op {
        UnOp::Clz => int64::clz(a),
        UnOp::Ctz => int64::ctz(a),
        UnOp::Popcnt => int64::popcnt(a),
    }
}

/// An operator on two numbers of 64 bits, or why it is undefined.
#[inline(always)]
pub fn binary64(op: BinOp, a: u64, b: u64) -> Result<u64, wnum::Trap>
    ensures { result ≡ binary_gives op 64 a b }
{
    match op {
        BinOp::Add => Ok(int64::add(a, b)),
        BinOp::Sub => Ok(int64::sub(a, b)),
        BinOp::Mul => Ok(int64::mul(a, b)),
        BinOp::DivS => int64::div_s(a, b),
        BinOp::DivU => int64::div_u(a, b),
        BinOp::RemS => int64::rem_s(a, b),
        BinOp::RemU => int64::rem_u(a, b),
        BinOp::And => Ok(int64::and(a, b)),
        BinOp::Or => Ok(int64::or(a, b)),
        BinOp::Xor => Ok(int64::xor(a, b)),
        BinOp::Shl => Ok(int64::shl(a, b)),
        BinOp::ShrS => Ok(int64::shr_s(a, b)),
        BinOp::ShrU => Ok(int64::shr_u(a, b)),
        BinOp::Rotl => Ok(int64::rotl(a, b)),
        BinOp::Rotr => Ok(int64::rotr(a, b)),
    }
}

/// A comparison of two numbers of 64 bits.
#[inline(always)]
pub fn relation64(op: RelOp, a: u64, b: u64) -> u64
    ensures { result ≡ relation_gives op 64 a b }
{
    match op {
        RelOp::Eq => int64::eq(a, b),
        RelOp::Ne => int64::ne(a, b),
        RelOp::LtS => int64::lt_s(a, b),
        RelOp::LtU => int64::lt_u(a, b),
        RelOp::GtS => int64::gt_s(a, b),
        RelOp::GtU => int64::gt_u(a, b),
        RelOp::LeS => int64::le_s(a, b),
        RelOp::LeU => int64::le_u(a, b),
        RelOp::GeS => int64::ge_s(a, b),
        RelOp::GeU => int64::ge_u(a, b),
    }
}

/// The trap where an operator is undefined.
pub fn trap_where(undefined: wnum::Trap) -> Trap
    ensures { result ≡ trap_of undefined }
{
    match undefined {
        wnum::Trap::DivideByZero => Trap::DivideByZero,
        wnum::Trap::IntegerOverflow => Trap::IntegerOverflow,
    }
}

// t.unop
#[inline(always)]
pub(crate) fn unary_word(t: ValueType, op: UnOp, a: u64) -> u64
    requires { a < 2 ^ width_of t }
    ensures gives { result ≡ unary_gives op (width_of t) a }
    ensures fits { result < 2 ^ width_of t }
{
    match t {
        ValueType::I32 => u64::from(unary32(op, a as u32)),
        ValueType::I64 => unary64(op, a),
    }
}

// t.binop
#[inline(always)]
pub(crate) fn binary_word(t: ValueType, op: BinOp, a: u64, b: u64) -> Result<u64, wnum::Trap>
    requires first { a < 2 ^ width_of t }
    requires second { b < 2 ^ width_of t }
    ensures gives { result ≡ binary_gives op (width_of t) a b }
    ensures fits { IfOk result (λ n. n < 2 ^ width_of t) }
{
    match t {
        ValueType::I32 => Ok(u64::from(binary32(op, a as u32, b as u32)?)),
        ValueType::I64 => binary64(op, a, b),
    }
}

// t.testop
#[inline(always)]
pub(crate) fn test_word(t: ValueType, op: TestOp, a: u64) -> u64
    requires { a < 2 ^ width_of t }
    ensures gives { result ≡ test_gives op (width_of t) a }
    ensures fits { result < 2 ^ 32 }
{
    match (t, op) {
        (ValueType::I32, TestOp::Eqz) => u64::from(int32::eqz(a as u32)),
        (ValueType::I64, TestOp::Eqz) => int64::eqz(a),
    }
}

// t.relop
#[inline(always)]
pub(crate) fn relation_word(t: ValueType, op: RelOp, a: u64, b: u64) -> u64
    requires first { a < 2 ^ width_of t }
    requires second { b < 2 ^ width_of t }
    ensures gives { result ≡ relation_gives op (width_of t) a b }
    ensures fits { result < 2 ^ 32 }
{
    match t {
        ValueType::I32 => u64::from(relation32(op, a as u32, b as u32)),
        ValueType::I64 => relation64(op, a, b),
    }
}

// t2.cvtop_t1
#[inline(always)]
pub(crate) fn convert_word(op: CvtOp, a: u64) -> u64
    requires { a < 2 ^ width_of (converted_from op) }
    ensures gives { result ≡ conversion_gives op a }
    ensures fits { result < 2 ^ width_of (converted_to op) }
{
    match op {
        CvtOp::WrapI64 => u64::from(conversions::wrap_i64(a)),
        CvtOp::ExtendI32S => conversions::extend_i32_s(a as u32),
        CvtOp::ExtendI32U => conversions::extend_i32_u(a as u32),
        CvtOp::Extend8S(ValueType::I32) => u64::from(int32::extend8_s(a as u32)),
        CvtOp::Extend8S(ValueType::I64) => int64::extend8_s(a),
        CvtOp::Extend16S(ValueType::I32) => u64::from(int32::extend16_s(a as u32)),
        CvtOp::Extend16S(ValueType::I64) => int64::extend16_s(a),
        CvtOp::Extend32S => int64::extend32_s(a),
    }
}
