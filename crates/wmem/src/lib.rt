//! The linear memory of WebAssembly Core 1.0 (4.2.8 and 4.4.4), with an image that it can be
//! brought back to.
//!
//! A memory takes all its room when it is made. After that no call allocates, and none fails but by
//! a trap. The room is written as pages come into use, so that the system gives memory for those
//! alone.
#![tactic(auto)]

mod access;
mod buffer;
mod extension;
mod laws;
mod memory;
mod noted;
mod tracked;
mod trap;

pub use access::{Load, Width};
pub use laws::{stores_are_loaded, writes_stay_in_place};
pub use memory::{MAX_PAGES, Memory, PAGE_SIZE};
pub use trap::Trap;
