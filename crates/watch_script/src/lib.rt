//! Which steps the script of a storm asks for: what the watch tells, and how time goes on.
//!
//! - `script` reads it whole; many lines at once, by several threads: `batch`.
#![tactic(auto)]

mod batch;
mod script;

pub use script::read_script;
