//! The book of a cluster: its nodes, where its pods are placed, and what the pods on each node use.
//!
//! All room is made by `Book::new`; a step takes no memory.
//!
//! - `book` has a call for each kind of step, over `nodes` and `places`, and one for all: `step` is
//!   what happens and what is answered.
//! - `refusal` is why a step is refused, `entry` what the queue has of a pod, and `place` where a pod
//!   is, and how sure that is.
//! - `nodes`: the rows in the order of their names, each with what is used of it.
//! - `places`: the places by uid, and each node's total, changed with every place and never summed
//!   anew. `finishes` has when binds were reported done, and `overdue` the uids whose places
//!   expire, in order: so a tick doesn't look at each place.
//! - `limits`: how large all this may grow, and how long a place stays whose bind was reported
//!   done.
#![tactic(auto)]

mod book;
mod entry;
mod finishes;
mod limits;
mod nodes;
mod overdue;
mod place;
mod places;
mod refusal;
mod step;

pub use book::Book;
pub use entry::Entry;
pub use limits::{EXPIRY, Limits};
pub use place::{Place, Status};
pub use refusal::Refusal;
use std::alloc::AllocError;
pub use step::{ClusterStep, Reply};
use thiserror::Error;

/// Memory was asked for and refused.
#[derive(Clone, Copy, Debug, Error)]
#[error("no memory")]
pub struct NoMemory;

impl From<AllocError> for NoMemory {
    fn from(_refused: AllocError) -> Self {
        NoMemory
    }
}
