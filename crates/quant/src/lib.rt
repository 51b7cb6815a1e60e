//! The quantities, names, numbers and objects of the scheduler: what a node offers, what a pod
//! asks, and how both are spelled. Only the lists of a row (`AtMost`) and its first owner
//! (`SharedNode::new`, `SharedPod::new`) take memory.
//!
//! - `amount`: CPU, memory and moments, and what nodes have and pods ask of them. `spelling` reads
//!   CPU and memory as Kubernetes writes them.
//! - `pod_request`: what a pod asks, by its containers.
//! - `name`: names, and the texts beside keys. `taint`: taints and tolerations. `objects`: nodes
//!   and pods, made of all these. `at_most`: their lists, each as long as what it holds;
//!   `label_order`: whether labels stand in order.
//! - `event`: what the watch tells, and the rows that it carries, each with many owners.
//!   `shared_row`: a node's row, packed, so that rows are compared fast. `version`: the numbers of
//!   events and tickets.
//! - `limits`: how much there may be of everything; `laws` says these numbers by contract. `fault`:
//!   why something is refused.
#![tactic(auto)]

mod amount;
mod at_most;
mod event;
mod fault;
mod label_order;
mod laws;
mod limits;
mod name;
mod objects;
mod pod_request;
mod shared_row;
mod spelling;
mod taint;
mod version;

pub use amount::{Bytes, Cpu, Moment, Request, Res};
pub use at_most::AtMost;
pub use event::{Event, SharedNode, SharedPod};
pub use fault::QuantFault;
pub use label_order::are_in_order;
pub use laws::limits_are_these;
pub use limits::{
    LATEST_MOMENT, MAX_CONTAINERS, MAX_CPU, MAX_FUEL, MAX_INIT_CONTAINERS, MAX_LABELS, MAX_MEM,
    MAX_NAME, MAX_NODES, MAX_PLACED, MAX_PLUGINS, MAX_QUEUED, MAX_TAINTS, MAX_TICKET,
    MAX_TOLERATIONS, MAX_VERSION, MAX_WEIGHT, MAX_WORKERS,
};
pub use name::{Name, Text};
pub use objects::{Label, Node, Pod};
pub use pod_request::request;
pub use spelling::{are_digits, read_bytes, read_cpu, split_digits};
pub use taint::{Effect, Operator, Taint, Toleration};
pub use version::{Ticket, Version};
