//! Binders: who tells the cluster where a pod is placed, and the one step by which the desk is told
//! how that went.
//!
//! A binder is handed in by the program as a box. `bind_job` asks it for one bind and applies one
//! step: the bind was done, or the place is given up. That the step is right rests on the binder's
//! own counts of binds asked and done.
#![tactic(auto)]

mod answer;
mod bind;
mod binder;
mod job;

pub use answer::{BindAnswer, Tally};
pub use bind::{MAX_BINDS, Unreported, bind_job};
pub use binder::Binder;
pub use job::{Bind, Job};
