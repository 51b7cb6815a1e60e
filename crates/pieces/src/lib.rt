//! Who does what part of the nodes of a decision, and what is taken back.
//!
//! - `cut` is where nodes are cut into pieces, and `judging` judges one, with a kit. `gate` is who is
//!   told when one begins.
//! - `asked` is what a pool of workers is asked, each time under another number: so no answer to
//!   one question passes for one to another.
//! - `message` is what a pool and its workers tell each other, and which of it is taken back.
//! - `laws`: what holds of every cut.
#![tactic(auto)]

mod asked;
mod cut;
mod gate;
mod judging;
mod laws;
mod message;

pub use asked::{Asked, Blank, History, Order, Site};
pub use cut::begin;
pub use gate::{Gate, NoGate};
pub use judging::{Work, judge_asked, judge_piece};
pub use laws::pieces_are_all_nodes;
pub use message::{Done, Job, judge_job, take_verdicts};
