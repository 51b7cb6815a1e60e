//! What a call of a checked module gives (WebAssembly Core 1.0, chapter 4): its outcome and its
//! cost, by reduction rules, and what holds of every call.
//!
//! The rules stand in the definitions: `Reduction` has one case for each instruction, and
//! `HasOutcome` says how chains of reductions end. The laws are functions that do nothing and
//! promise what the rules keep (`laws`). The `Machine` runs the module's own bytes: one step of it
//! is a chain of reductions of the same cost.
//!
//! | Question | Module |
//! |---|---|
//! | What can be called, how does a call end? | `export`, `outcome` |
//! | What do host functions hand over? | `host` |
//! | What does a machine keep? | `machine` |
//! | What of it stays as it is while a call runs? | `code`: `shape`, `records`, `widest` |
//! | How does a call begin, go on and stop? | `invocation`, `run` |
//! | Where is a call, and where do the functions stand that wait? | `state`, `activation` |
//! | Which instruction stands there? | `step`, `families`, `over`, `over_control` |
//! | What did it come to? | `went` |
//! | What does an instruction do? | `plain` with `numbers`, `control`, `calls` with `signature` |
#![tactic(auto)]

mod activation;
mod calls;
mod code;
mod control;
mod export;
mod families;
mod host;
mod invocation;
mod laws;
mod machine;
pub mod numbers;
mod outcome;
mod over;
mod over_control;
mod plain;
mod records;
mod run;
mod shape;
mod signature;
mod state;
mod step;
mod went;
mod widest;

pub use export::Export;
pub use host::Host;
pub use laws::{
    calls_end, cost_within_fuel, first_store_fits, more_fuel_changes_nothing, never_stuck,
    one_outcome, what_a_call_leaves,
};
pub use machine::Machine;
pub use outcome::Outcome;
pub use rules::Trap;
pub use signature::same_signature;
