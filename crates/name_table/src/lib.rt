//! A table by name with a fixed room: slots that keep their entries, found by a keyed hash.
//!
//! All room is reserved by `NameTable::new`. After it nothing takes memory, nothing fails, and no
//! step does the work of others: there is no rehash, no migration and no mark for what was removed.
//! What is reserved is touched only as entries come.
#![tactic(auto)]

mod chains;
mod entries;
mod entry;
mod heads;
mod links;
mod table;

pub use entry::Entry;
pub use table::NameTable;
