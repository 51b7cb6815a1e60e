//! Whether a pod fits on a node, and how much of the node it would leave free.
#![tactic(auto)]

mod allocatable;
mod laws;
mod room;
mod score;

pub use allocatable::Allocatable;
pub use laws::worked_examples;
pub use room::{Shortage, fits};
pub use score::least_allocated;
