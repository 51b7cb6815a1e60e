//! The record of a pod and the record of a node: what a module is told of a row, as bytes.
//!
//! A record is a list of at most 8,192 bytes, in one buffer that is written in place, so that no
//! call takes memory. The layout stands in `specs/Record.antt`, byte by byte.
//!
//! - `record`: the buffer, field after field; `key_order`: the order of the labels in it.
//! - `rows`: the records of pods and nodes, in all versions.
//! - `laws`: where each field stands, and how it is read back.
#![tactic(auto)]

mod key_order;
mod laws;
mod record;
mod rows;

pub use laws::{fields_stand, labels_are_in_order, numbers_are_read_back};
pub use record::{RECORD_SIZE, Record};
pub use rows::{
    node_record, node_record2, node_record3, pod_record, pod_record2, pod_record3, shared_record,
};
