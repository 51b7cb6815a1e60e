//! What the API server tells of nodes and pods, and which binds may be asked for.
//!
//! Whatever a scheduler chooses, a bind is asked for only where everything that was told, and every
//! bind whose end isn't known, leaves room for it on its node.
//!
//! - `event` is what a ledger is told and asked, and what it answers.
//! - `known` is what it knows of a pod, of a node and of what is heard of each kind.
//! - `ledger` takes the events, over the `book`, which counts; `pods`, `nodes`, `lists` and `binds`
//!   take those of their kinds. `unnamed` tells what a list didn't name so far, and `swept` takes it
//!   away where the list ends.
#![tactic(auto)]

mod binds;
mod event;
mod known;
mod laws;
mod ledger;
mod lists;
mod nodes;
mod pods;
mod swept;
mod tables;
mod unnamed;

pub use event::{Answer, Event, Kind, Outcome, Said};
pub use known::{Asking, Heard, Known, Seen, Stage};
pub use laws::{
    each_pod_counts_once, each_pod_is_kept, grants_are_right, never_overfull, one_answer,
};
pub use ledger::Ledger;
