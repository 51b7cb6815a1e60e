//! Reads and writes within a slice of bytes: the places are the caller's condition.
ghost use Rattle.std.specs.Prelude.{◌≡◌, ◌+◌, ◌*◌, ◌^◌, ◌<◌, ◌≤◌, length, take, drop};
ghost use Rattle.wmem.specs.Access.{byte_count, with_bytes, reading_of, value_read};
ghost use Rattle.wmem.specs.Bytes.{bytes_of, number_in};

use crate::access::{Load, Width};
use crate::extension::{i32_extend8_s, i32_extend16_s, i64_extend8_s, i64_extend16_s};
use byteorder::{ByteOrder, LittleEndian};
use wnum::convert::extend_i32_s;

/// What `load` gives at a place.
#[inline(always)]
#[tactic(auto, using(wnum::proofs::Arithmetic::extend_u_is))]
pub fn read(bytes: &[u8], at: usize, load: Load) -> u64
    requires { at + (reading_of load).bytes ≤ length bytes.now }
    ensures value { result ≡ value_read (reading_of load) bytes.now at }
    ensures fits { result < 2 ^ (reading_of load).bits }
{
    match load {
        Load::I32Unsigned8 | Load::I64Unsigned8 => u64::from(one_at(bytes, at)),
        Load::I32Signed8 => u64::from(i32_extend8_s(one_at(bytes, at))),
        Load::I64Signed8 => i64_extend8_s(one_at(bytes, at)),
        Load::I32Unsigned16 | Load::I64Unsigned16 => u64::from(two_at(bytes, at)),
        Load::I32Signed16 => u64::from(i32_extend16_s(two_at(bytes, at))),
        Load::I64Signed16 => i64_extend16_s(two_at(bytes, at)),
        Load::I32 | Load::I64Unsigned32 => u64::from(four_at(bytes, at)),
        Load::I64Signed32 => extend_i32_s(four_at(bytes, at)),
        Load::I64 => eight_at(bytes, at),
    }
}

#[inline(always)]
fn one_at(bytes: &[u8], at: usize) -> u8
    requires { at + 1 ≤ length bytes.now }
    ensures { result ≡ number_in (take 1 (drop at bytes.now)) }
{
    bytes[at]
}

#[inline(always)]
fn two_at(bytes: &[u8], at: usize) -> u16
    requires { at + 2 ≤ length bytes.now }
    ensures { result ≡ number_in (take 2 (drop at bytes.now)) }
{
    LittleEndian::read_u16(&bytes[at..at + 2])
}

#[inline(always)]
fn four_at(bytes: &[u8], at: usize) -> u32
    requires { at + 4 ≤ length bytes.now }
    ensures { result ≡ number_in (take 4 (drop at bytes.now)) }
{
    LittleEndian::read_u32(&bytes[at..at + 4])
}

#[inline(always)]
fn eight_at(bytes: &[u8], at: usize) -> u64
    requires { at + 8 ≤ length bytes.now }
    ensures { result ≡ number_in (take 8 (drop at bytes.now)) }
{
    LittleEndian::read_u64(&bytes[at..at + 8])
}

/// Writes the low bytes of `value`, as many as `width` says, at a place.
#[inline(always)]
#[tactic(auto, using(std::proofs::lemmas::List::set_split))]
pub fn write(bytes: &mut [u8], at: usize, width: Width, value: u64)
    requires { at + byte_count width ≤ length bytes.old }
    ensures { bytes.new ≡ with_bytes bytes.old at (bytes_of (byte_count width) value) }
{
    match width {
        Width::One => bytes[at] = (value & 0xff) as u8,
        Width::Two => LittleEndian::write_u16(&mut bytes[at..at + 2], (value & 0xffff) as u16),
        Width::Four => LittleEndian::write_u32(
            &mut bytes[at..at + 4],
            (value & 0xffff_ffff) as u32,
        ),
        Width::Eight => LittleEndian::write_u64(&mut bytes[at..at + 8], value),
    }
}

/// Copies all of `new` to a place.
pub fn copy_at(bytes: &mut [u8], at: usize, new: &[u8])
    requires { at + length new.now ≤ length bytes.old }
    ensures { bytes.new ≡ with_bytes bytes.old at new.now }
{
    bytes[at..at + new.len()].copy_from_slice(new);
}
