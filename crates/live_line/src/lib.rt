//! What a line tells of a cluster, or asks.
//!
//! A line is an object of the API, or an event of its watch, which `objects` reads, or an order,
//! which `order` does, by the fields of `field`; `meaning` says what is meant by it, and
//! `scope` whose pods wait.
#![tactic(auto)]

mod field;
mod meaning;
mod order;
mod scope;

pub use field::Field;
pub use meaning::{Meaning, Meant, meaning_of};
pub use scope::Scope;
