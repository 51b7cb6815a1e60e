//! The engine: it reads a script line by line, does what each line asks of a desk, and writes the
//! answers.
//!
//! - `run` is the whole of it. Its source, its lines and its sink are those of `streams`, and so is
//!   why it ends early.
//! - What a line asks for is done on a desk with one pass, and answered, by a `Session`.
//! - That a script has one output, whoever runs it and with however many workers, are the laws
//!   `one_output` and `same_output`; that an explained one is the same with lines put in is
//!   `explained_output`, and that questions change nothing `asking_changes_nothing`.
//!
//! Output is written before more input is read, and before 64 KiB of it wait.
#![tactic(auto)]

mod laws;
mod script;

pub use laws::{asking_changes_nothing, explained_output, one_output, same_output};
pub use script::run;
