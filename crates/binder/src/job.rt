//! What is to be bound.
use quant::{Name, Ticket};

/// What a binder is told: a pod, and where it is placed.
#[derive(Drop)]
pub struct Bind {
    /// The pod.
    pub uid: Name,
    /// The node's name.
    pub node: Name,
}

/// A pod whose place is assumed, which the cluster is to be told.
#[derive(Drop)]
pub struct Job {
    /// The pod.
    pub uid: Name,
    /// The node's name.
    pub node: Name,
    /// What names the choice of the place.
    pub ticket: Ticket,
}
