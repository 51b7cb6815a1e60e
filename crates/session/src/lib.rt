//! What a script's commands come to: a desk with one pass (`LoneDesk` of `cycle`), and the text that
//! answers each command, by the lines of `output_lines`.
//!
//! `Session` is both. A command is done and its answer added whole, or nothing is added.
#![tactic(auto)]

mod session;

pub use session::Session;
