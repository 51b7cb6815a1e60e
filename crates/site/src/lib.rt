//! A site: what runs by its plugins come to.
//!
//! - `site_run`: a run by them; `with_kits`: by a pool of kits, which lives as long as the run.
//! - `laws`: that a site's script has one output, and that what is decided is decided by the
//!   plugins' calls.
#![tactic(auto)]

mod laws;
mod site_run;
mod with_kits;

pub use laws::{decided_by_calls, one_site_output};
pub use site_run::{serve, serve_plan};
pub use with_kits::run_with_kits;
