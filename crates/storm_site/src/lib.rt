//! A storm of a script by a site's plugins, from their files, or from their modules, to the exit
//! status.
//!
//! - `storm_site`: what is read, who decides, and the status that tells the audit.
//! - `stand_in`: the binders, which stand in for a cluster.
#![tactic(auto)]

mod stand_in;
mod storm_site;

pub use storm_site::storm_plan;
