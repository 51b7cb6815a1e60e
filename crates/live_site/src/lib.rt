//! A cluster that is told and decided of, by the rules of a site's plugins, from their files to the
//! exit status.
#![tactic(auto)]

mod live_site;

pub use live_site::live_plan;
