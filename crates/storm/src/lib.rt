//! A storm: feeders, cycles and binders at work on one desk at once, each in a thread of its own,
//! and an audit at the end.
//!
//! - `storm` is the whole of it. It reads its script first, as `watch_script` does, and closes the
//!   desk last, whose book is audited.
//! - `stages` is who of the `crew` works beside whom, and who ends when.
//! - `one_kit` is what decides in a cycle thread.
//!
//! A thread that meets want of memory ends its work, and the storm then writes nothing.
#![tactic(auto)]

mod one_kit;
mod one_storm;
mod stages;

pub use one_kit::OneKit;
pub use one_storm::storm;
