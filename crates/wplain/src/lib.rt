//! The definition of calls, run as it stands: what is under way is a tree, each rule of reduction
//! is a function, and a loop takes one reduction after the other. It is slow. What it answers is
//! the definition's outcome, so that tests can compare with it.
#![tactic(auto)]

mod calls;
mod code;
mod control;
mod evaluation;
mod execution;
mod memory;
mod numeric;
mod plain;
mod reduce;
mod setting;
mod stop;
mod store;
mod values;
mod variables;

pub use code::Code;
pub use evaluation::evaluate;
pub use setting::{Function, Program, Records, Setting};
pub use store::Store;
