//! LEB128, the numbers of WebAssembly's binary format (WebAssembly Core 1.0, 5.2.2): readers of
//! unsigned numbers of 32 bits and of signed ones of 32 and 64, why bytes spell none, and the law
//! that they spell one at most.
#![tactic(auto)]

mod laws;

ghost use Rattle.std.specs.Prelude.{◌≡◌, ℕ, ◌+◌, ◌-◌, ◌^◌, ◌<◌, ◌≤◌, ◌↔◌, length, drop, pos, ℤ, List, IfOk, IsTrue, IsErrOf, OnErr};
ghost use Rattle.leb.specs.Number.{Spells, unsigned, signed};
ghost use Rattle.leb.specs.inside.Number.{InRange};
ghost use Rattle.leb.specs.Fault.{number_of, name_of, IsTruncated, IsTooLong, HasBadLastByte};
ghost use Rattle.leb.specs.Reading.{reading, last_at};
ghost use Rattle.leb.specs.inside.Reading.{sign_of, value_of, Gives, GivesLast};

pub use laws::one_number;
use std::fmt;
use thiserror::Error;

/// Why bytes spell no number.
#[derive(Clone, Copy, PartialEq, Eq, Debug, Error)]
pub enum LebFault {
    /// The bytes end inside the number.
    Truncated,
    /// As many bytes as the number may have say that another follows.
    TooLong,
    /// The unused bits of the last byte aren't zeros, or copies of the sign.
    BadLastByte,
}

impl LebFault {
    /// The fault's number.
    pub fn number(self) -> u8
        ensures { result ≡ number_of self }
    {
        match self {
            LebFault::Truncated => 1,
            LebFault::TooLong => 2,
            LebFault::BadLastByte => 3,
        }
    }

    /// The fault's name.
    pub fn name(self) -> &'static str
        ensures { result.now ≡ name_of self }
    {
        match self {
            LebFault::Truncated => "Truncated",
            LebFault::TooLong => "TooLong",
            LebFault::BadLastByte => "BadLastByte",
        }
    }
}

impl fmt::Display for LebFault {
    fn fmt<W: fmt::Write>(&self, f: &mut fmt::Formatter<W>) -> fmt::Result {
        write!(f, "{} {}", self.number(), self.name())
    }
}

/// Reads an unsigned number of 32 bits from `at` on. Gives the number, and the place after its last
/// byte.
#[inline]
pub fn read_u32(bytes: &[u8], at: usize) -> Result<(u32, usize), LebFault>
    requires { at ≤ length bytes.now }
    ensures number { IfOk result (λ x. Spells unsigned 32 (drop at bytes.now) (pos x.0) (drop x.1 bytes.now)) }
    ensures end { IfOk result (λ x. x.1 ≤ length bytes.now) }
    ensures none { OnErr result ((v : ℤ) (rest : List ℕ) → Spells unsigned 32 (drop at bytes.now) v rest → ⊥) }
    ensures truncated { IsErrOf result LebFault.Truncated ↔ IsTruncated 32 (drop at bytes.now) }
    ensures too_long { IsErrOf result LebFault.TooLong ↔ IsTooLong 32 (drop at bytes.now) }
    ensures bad_last_byte { IsErrOf result LebFault.BadLastByte ↔ HasBadLastByte unsigned 32 (drop at bytes.now) }
{
    match read(bytes, at, 32, false) {
        Ok(found) => Ok((found.low as u32, found.next)),
        Err(fault) => Err(fault),
    }
}

/// Reads a signed number of 32 bits from `at` on. Gives the number, and the place after its last
/// byte.
#[inline]
pub fn read_i32(bytes: &[u8], at: usize) -> Result<(i32, usize), LebFault>
    requires { at ≤ length bytes.now }
    ensures number { IfOk result (λ x. Spells signed 32 (drop at bytes.now) x.0 (drop x.1 bytes.now)) }
    ensures end { IfOk result (λ x. x.1 ≤ length bytes.now) }
    ensures none { OnErr result ((v : ℤ) (rest : List ℕ) → Spells signed 32 (drop at bytes.now) v rest → ⊥) }
    ensures truncated { IsErrOf result LebFault.Truncated ↔ IsTruncated 32 (drop at bytes.now) }
    ensures too_long { IsErrOf result LebFault.TooLong ↔ IsTooLong 32 (drop at bytes.now) }
    ensures bad_last_byte { IsErrOf result LebFault.BadLastByte ↔ HasBadLastByte signed 32 (drop at bytes.now) }
{
    match read(bytes, at, 32, true) {
        Ok(found) => Ok((i32_of(found), found.next)),
        Err(fault) => Err(fault),
    }
}

/// Reads a signed number of 64 bits from `at` on. Gives the number, and the place after its last
/// byte.
#[inline]
pub fn read_i64(bytes: &[u8], at: usize) -> Result<(i64, usize), LebFault>
    requires { at ≤ length bytes.now }
    ensures number { IfOk result (λ x. Spells signed 64 (drop at bytes.now) x.0 (drop x.1 bytes.now)) }
    ensures end { IfOk result (λ x. x.1 ≤ length bytes.now) }
    ensures none { OnErr result ((v : ℤ) (rest : List ℕ) → Spells signed 64 (drop at bytes.now) v rest → ⊥) }
    ensures truncated { IsErrOf result LebFault.Truncated ↔ IsTruncated 64 (drop at bytes.now) }
    ensures too_long { IsErrOf result LebFault.TooLong ↔ IsTooLong 64 (drop at bytes.now) }
    ensures bad_last_byte { IsErrOf result LebFault.BadLastByte ↔ HasBadLastByte signed 64 (drop at bytes.now) }
{
    match read(bytes, at, 64, true) {
        Ok(found) => Ok((i64_of(found), found.next)),
        Err(fault) => Err(fault),
    }
}

// A number as it is found: `low`, or -1 - `low` where it is negative, and the place after it.
#[derive(Clone, Copy)]
struct Spelled {
    negative: bool,
    low: u64,
    next: usize,
}

// The number that was found, of 32 bits.
#[inline]
fn i32_of(found: Spelled) -> i32
    requires { InRange signed 32 (value_of found) }
    ensures { result ≡ value_of found }
{
    let low = found.low as i32;
    if found.negative { -low - 1 } else { low }
}

// The number that was found, of 64 bits.
#[inline]
fn i64_of(found: Spelled) -> i64
    requires { InRange signed 64 (value_of found) }
    ensures { result ≡ value_of found }
{
    let low = found.low as i64;
    if found.negative { -low - 1 } else { low }
}

// The number of so many bits, with a sign or without, from `at` on, and the place after it.
#[inline]
fn read(bytes: &[u8], at: usize, bits: u32, signed: bool) -> Result<Spelled, LebFault>
    requires place { at ≤ length bytes.now }
    requires some { 7 ≤ bits }
    requires most { bits ≤ 64 }
    ensures number { IfOk result (λ x. Spells (sign_of signed) bits (drop at bytes.now) (value_of x)
        (drop x.next bytes.now)) }
    ensures range { IfOk result (λ x. InRange (sign_of signed) bits (value_of x)) }
    ensures end { IfOk result (λ x. x.next ≤ length bytes.now) }
    ensures none { OnErr result ((v : ℤ) (rest : _) → Spells (sign_of signed) bits (drop at bytes.now) v rest → ⊥) }
    ensures truncated { IsErrOf result LebFault.Truncated ↔ IsTruncated bits (drop at bytes.now) }
    ensures too_long { IsErrOf result LebFault.TooLong ↔ IsTooLong bits (drop at bytes.now) }
    ensures bad_last_byte { IsErrOf result LebFault.BadLastByte ↔ HasBadLastByte (sign_of signed) bits
        (drop at bytes.now) }
{
    begin(bytes, at, bits, signed)
}

// The same: most numbers have one byte, and no sign.
#[inline]
fn begin(bytes: &[u8], at: usize, bits: u32, signed: bool) -> Result<Spelled, LebFault>
    requires place { at ≤ length bytes.now }
    requires some { 7 ≤ bits }
    requires most { bits ≤ 64 }
    ensures { Gives bytes.now result (reading (sign_of signed) bits (drop at bytes.now)) }
{
    if at < bytes.len() && bytes[at] < 64 {
        return Ok(Spelled {
            negative: false,
            low: bytes[at] as u64,
            next: at + 1,
        });
    }
    scan(bytes, at, bits, signed)
}

// The same, byte by byte.
fn scan(bytes: &[u8], at: usize, bits: u32, signed: bool) -> Result<Spelled, LebFault>
    requires place { at ≤ length bytes.now }
    requires some { 7 ≤ bits }
    requires most { bits ≤ 64 }
    ensures { Gives bytes.now result (reading (sign_of signed) bits (drop at bytes.now)) }
{
    let mut low: u64 = 0;
    let mut weight: u64 = 1;
    let mut left = bits;
    let mut next = at;
    while next < bytes.len() {
        let byte = bytes[next];
        next += 1;
        if byte < 128 {
            let (negative, high) = last(byte, left, signed)?;
            let low = if negative {
                (high + 1) * weight - (low + 1)
            } else {
                low + weight * high
            };
            return Ok(Spelled {
                negative,
                low,
                next,
            });
        }
        if left <= 7 {
            return Err(LebFault::TooLong);
        }
        low += weight * (byte as u64 - 128);
        weight *= 128;
        left -= 7;
    }
    Err(LebFault::Truncated)
}

// What the last byte stands for, of a number that has so many bits left: a number, or -1 - that
// where it is negative.
#[inline]
#[tactic(auto, unfolding(crate::specs::Reading::last_at))]
fn last(byte: u8, left: u32, signed: bool) -> Result<(bool, u64), LebFault>
    requires ends { byte < 128 }
    requires some { 1 ≤ left }
    ensures value { GivesLast result (last_at (sign_of signed) left byte) }
    ensures within { IfOk result (λ x. x.1 < 2 ^ left) }
    ensures below { IfOk result (λ x. IsTrue x.0 → x.1 < 2 ^ (left - 1)) }
{
    if !signed {
        let end = 1u8 << left.min(7);
        if byte < end {
            Ok((false, byte as u64))
        } else {
            Err(LebFault::BadLastByte)
        }
    } else {
        let end = 1u8 << (left - 1).min(6);
        if byte < end {
            Ok((false, byte as u64))
        } else if byte >= 128 - end {
            Ok((true, 127 - byte as u64))
        } else {
            Err(LebFault::BadLastByte)
        }
    }
}
