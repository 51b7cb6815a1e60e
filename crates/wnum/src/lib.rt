//! The integer operations of WebAssembly Core 1.0 (4.3.2 and 4.3.4), and the sign extension of Core
//! 2.0 (4.3.2).
//!
//! A value of type i32 is a `u32` and one of type i64 a `u64`: the bits, which each operation reads
//! as a signed or an unsigned number as its name says. There is one function for each instruction,
//! under the instruction's name: `i32.add` is `int32::add`, `i64.shr_s` is `int64::shr_s`, and the
//! conversions are in `convert`. None allocates, loops or branches where one instruction of the
//! machine below does the work.
#![tactic(auto)]

pub mod convert;
pub mod int32;
pub mod int64;
pub mod laws;
mod trap;

pub use trap::Trap;
