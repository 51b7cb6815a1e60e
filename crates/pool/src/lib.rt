//! Which node a pod goes to, decided by workers that stay: each judges a piece of the nodes with a
//! kit of its own, as `pieces` has it, and the decision is the first kit's choice, whatever comes
//! back from the others.
//!
//! - `pool`: a `Pool` keeps its workers from one decision to the next. It is a `Decider`. `cost` is
//!   what its decisions cost, and so how many workers are worth waking.
//! - `lent_kit` is a kit of a pool beside the first, with the way to its worker, `worker`. `way` is
//!   the channel to it, and that back: what holds of each message that goes in holds of each that
//!   comes out.
#![tactic(auto)]

mod cost;
mod lent_kit;
mod pool;
mod way;
mod worker;

pub use pieces::{Blank, Gate, NoGate, Site};
pub use pool::{MAX_KITS, Pool};
