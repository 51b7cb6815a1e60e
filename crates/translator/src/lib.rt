//! From objects of the Kubernetes API, one a line, to the lines of a script, one for each.
//!
//! - `translate_run` is the whole of it: it has `objects` say what each line gives, under versions
//!   from 1 on, and writes the answers.
//! - `answer_text` has the texts that answer a line, and `waiting` what of them is yet to be
//!   written.
//! - That what is written is a script, and each answer one line, are the laws of `laws`.
//!
//! Answers are written before more input is read, and before 64 KiB of them wait.
#![tactic(auto)]

mod answer_text;
mod laws;
mod translate_run;
mod waiting;

pub use laws::{one_answer_a_line, translations_are_scripts};
pub use translate_run::serve_translation;
