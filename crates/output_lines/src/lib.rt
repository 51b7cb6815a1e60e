//! The text of answers: what became of a step or a cycle, what a desk shows, and what the rules say
//! of each node, line by line.
//!
//! - `push_reply`, `push_snapshot` and `push_dump` add the lines of a step and of a desk.
//! - `push_cycled` adds the line of a cycle, and `push_verdicts` those that explain it, which begin
//!   with two spaces.
//! - `push_rulings` and `push_judged` add what the rules alone say.
//!
//! Each adds whole lines of known text to what waits to be written.
#![tactic(auto)]

mod named_rule;
mod replies;
mod text;
mod verdicts;

pub use named_rule::NamedRule;
pub use replies::{push_dump, push_reply, push_snapshot};
pub use text::{push_cycled, push_judged};
pub use verdicts::{push_rulings, push_verdicts};
