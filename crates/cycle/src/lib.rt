//! One cycle of the scheduler: a pod is popped, a node is chosen for it, and its place is assumed.
//!
//! - `cycle` is that of any pass of a desk.
//! - A `LoneDesk` is a desk with its only pass: contracts see one state, and its cycles are told by
//!   that state alone.
#![tactic(auto)]

mod lone_desk;
mod one_cycle;

pub use lone_desk::LoneDesk;
pub use one_cycle::{CutShort, Cycled, cycle};
