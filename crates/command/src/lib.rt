//! What the program's words ask for: a run or a storm with a site's plugins, to check a module, to
//! translate objects, to keep a ledger, or which program this is.
//!
//! `arguments` has the words that follow the program's name, and `words` says what they ask for:
//! `run [--workers N] [SPEC]...`, `explain` with the same words behind it, or `storm [--cycles C]
//! [--binders B] [--flaky] [SPEC]...`, where a SPEC is `NAME:WEIGHT:FUEL:FILE`, or `check MODULE`,
//! or `translate [--scheduler NAME] [--labels KEY,..] [--by-uid] [--answers]`, or `live
//! [--scheduler NAME] [--labels KEY,..] [--workers N] [SPEC]...`, or `version`. The words are read as `clap` reads them;
//! `count` and `plugin_words` read what `clap` leaves as text. `verb` has which options each command
//! takes, by which `misuse` says what is wrong with words that ask for nothing.
#![tactic(auto)]

mod asked;
mod command_line;
mod count;
mod fault;
mod laws;
mod misuse;
mod plugin_words;
mod verb;

pub use asked::{LivePlan, Plan, Spec, StormPlan, TranslatePlan, Words};
pub use command_line::{arguments, words};
pub use count::{Count, MAX_STORM_THREADS};
pub use fault::WordFault;
pub use laws::{counts_are_read_as_by_clap, worked_examples};
pub use misuse::{Misuse, Part, misuse_of};
