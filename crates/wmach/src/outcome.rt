//! How a call ends.

use rules::Trap;
use wcode::Value;

/// How a call ended, and what it cost.
#[derive(Clone, Copy)]
pub enum Outcome {
    /// It returned its result, if it has one.
    Value(Option<Value>, u64),
    /// It was cut off, by this trap.
    Trap(Trap, u64),
    /// What comes next would cost more than is left.
    Exhausted(u64),
}
