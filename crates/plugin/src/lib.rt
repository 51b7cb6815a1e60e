//! What a site's plugins say of a node: kits, which have one instance of each plugin, and a kit as
//! a set of rules.
//!
//! A plugin is asked of a pod and a node by their records. What it says carries all that may be
//! told of it: no number of a module travels above this crate but as what it means. `Plugins` are
//! the modules that a site configures, in order; a `Kit` of them has one instance of each, belongs
//! to one thread, and can be moved to another; `KitRules` is a kit as a set of rules. It keeps what
//! rules said for pods that differ in their uid alone (`kept`), so that they aren't asked again.
//! `kits` makes all that a site's threads need.
#![tactic(auto)]

mod answers;
mod asked;
mod fault;
mod instances;
mod kept;
mod kit;
mod kit_rules;
mod kits;
mod laws;
mod member;
mod plugins;
mod said;
mod shown;
mod told;
mod verdict;

pub use fault::{AddFault, KitFault, NoKits};
pub use kit::Kit;
pub use kit_rules::KitRules;
pub use kits::{Configuration, kits_of};
pub use laws::{kits_are_alike, rules_are_calls};
pub use plugins::{MAX_FUEL, MAX_PLUGINS, MAX_WEIGHT, Plugin, Plugins};
pub use rules::{Cause, FilterVerdict, Rejection, Rules, ScoreVerdict, Trap};
pub use verdict::{filter_verdict, score_verdict};
