//! What a site's own rules are to a scheduler: how they are told of a pod and a node, what they
//! say, and what a set of them promises, whoever wrote it and however it is run.
//!
//! A set is shown a pod, and then nodes, each with what is used of it; of each its rules are asked
//! by their places. What they say carries all that may be told of it.
#![tactic(auto)]

mod rule_set;
mod trap;
mod verdict;

pub use rule_set::Rules;
pub use trap::Trap;
pub use verdict::{Cause, FilterVerdict, Rejection, ScoreVerdict};
