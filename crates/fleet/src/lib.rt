//! Which node a pod goes to, decided by several workers: each judges a piece of the nodes with a
//! kit of its own, as `pieces` has it, and the decision is the one that any of the kits would make
//! alone. A `Pool` keeps its workers from one decision to the next, and stands in `pool`.
//!
//! - `fleet`: a `Fleet` starts its threads anew for each decision, and has ended them when it
//!   answers. `judging` is how they share the pieces.
//! - `laws`: what holds of every fleet.
#![tactic(auto)]

mod fleet;
mod judging;
mod laws;

pub use choose::{Decider, Decision, NoMemory};
pub use fleet::Fleet;
pub use judging::judge_pieces;
pub use laws::most_kits_are_these;
pub use pieces::{Blank, Gate, NoGate, Site, Work, pieces_are_all_nodes};
pub use pool::{MAX_KITS, Pool};
