//! The scheduling queue: the pods that wait for a node, each under its uid, and which of them is
//! popped next.
//!
//! - The order: the higher priority, then the earlier arrival, then the lesser uid by bytes.
//! - A pop counts an attempt, and the pod is then in flight for the pass that popped it, until that
//!   pass fails it, it is sent back, or it is removed.
//! - A pod whose attempt is to be tried again backs off: 1,000 ms after its first attempt, twice as
//!   long after each further one, and at most 10,000 ms. So does one that no node would take, if
//!   there was a move since it was popped; else it is unschedulable.
//! - A move makes an unschedulable pod active where it has backed off since its failure, and else
//!   sends it to backoff until it has. A tick at least 300,000 ms after its failure releases it
//!   too.
//!
//! These rules are the project's own, after the scheduling queue of kube-scheduler. Moments are in
//! milliseconds of a clock that the caller keeps. The room for all entries is taken when a queue is
//! made, and no call takes memory after that. A refused call changes nothing.
#![tactic(auto)]

mod counts;
mod heap;
mod index;
mod laws;
mod queue;
mod refusal;
mod row;
mod slots;

pub use counts::Counts;
pub use laws::{loses_none, pops_once, pops_the_first, ticks_once};
pub use queue::Queue;
pub use queued::{Failure, PassNumber, State};
pub use refusal::Refusal;
