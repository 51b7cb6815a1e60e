//! The store of a checked module (WebAssembly Core 1.0, 4.2.3): its memory, its globals and its
//! table, with an image that they can be brought back to.
//!
//! A store takes all its room when it is made. After that no call allocates.
#![tactic(auto)]

mod constants;
mod first;
mod kept;
mod segments;
mod store;

pub use store::Store;
pub use wmem::{Load, Trap, Width};
