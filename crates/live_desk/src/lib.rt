//! A desk that is told what a ledger takes, and whose choices are asked of it.
//!
//! The ledger knows all that the API server told of a cluster and every bind whose end isn't known,
//! and says which bind may be asked for. The desk decides, by what the ledger took: a line that the
//! ledger finds old, or has no room for, is none for the desk either.
//!
//! - `live_desk` has both, and `change` is what of the one is told the other; `turn` is a cycle, whose
//!   choice is asked of the ledger before anyone is told of it.
//! - `offered` is which pods the desk has to place, and by which rows; `same_pod` says when two rows
//!   are the same.
#![tactic(auto)]

mod change;
mod laws;
mod live_desk;
mod offered;
mod same_pod;
mod turn;

pub use laws::none_is_lost;
pub use live_desk::{LiveDesk, Taken};
pub use offered::Offered;
pub use turn::Turn;
