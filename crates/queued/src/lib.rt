//! One pod in the scheduling queue: where it stands, how often it was popped, and what becomes of it.
//!
//! - `State` is where it stands; a `Slot` is the pod with its state, its arrival and its attempts.
//! - A `Change` is a pop, a return, a failure, a tick or a move; `Slot::apply` makes it.
//! - A pod whose attempt is to be tried again backs off: 1,000 ms after its first attempt, twice as
//!   long after each further one, and at most 10,000 ms.
//!
//! Which pod is popped next, and which one a change is for, is the queue's (`queue`). Moments are in
//! milliseconds of a clock that the caller keeps.
#![tactic(auto)]

mod slot;
mod state;

pub use slot::{Change, Slot};
pub use state::{Failure, PassNumber, State};
