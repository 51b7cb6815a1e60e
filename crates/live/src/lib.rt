//! A cluster that is told line by line as the API server tells it, and decided of: which pod goes
//! where, and which binds may be asked for.
//!
//! - `live_run` is the whole of it: it has `live_line` say what each line tells or asks, tells the
//!   ledger and the desk of `live_desk`, and writes the answers, which `answer_text` spells; by a
//!   pool of kits, `with_kits` does.
//! - That the lines are one history of the ledger is the law of `laws`.
#![tactic(auto)]

mod answer_text;
mod laws;
mod live_run;
mod with_kits;

pub use laws::{live_counts_once, one_live_output};
pub use live_run::{MAX_KNOWN, serve_live};
pub use with_kits::live_with_kits;
