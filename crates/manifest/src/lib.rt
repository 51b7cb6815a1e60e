//! The lines of a script: each is one JSON object that spells one command, or has a first fault.
//!
//! `read_line` is the door. Behind it `line` has the fields of each operation in their order, and
//! `members` reads one field, and `row` what of a node's or a pod's row stands together; a field
//! that is an array fills its row in place by `item`, and `label`, `taint`, `toleration` and
//! `container` say what one item is. What is read is defined in `specs/Line.antt`, in the same
//! order, over the value that the reader of JSON makes of a line.
#![tactic(auto)]

mod command;
mod container;
mod fault;
mod field;
mod item;
mod label;
mod laws;
mod line;
mod members;
mod operation;
mod reading;
mod row;
mod taint;
mod toleration;

pub use command::{Command, Question};
pub use fault::LineFault;
pub use field::Field;
pub use label::has_key;
pub use laws::longest_line_is_this;
pub use line::{MAX_LINE, read_line};
pub use taint::{effect_named, has_taint};
pub use toleration::{effect_or_none, is_lawful, operator_named};
