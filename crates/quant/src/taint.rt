//! Taints of nodes, and the tolerations of pods that answer them, with the fields and words of
//! the Kubernetes page "Taints and Tolerations".
use crate::name::{Name, Text};

/// What a taint does to a pod that does not tolerate it.
#[derive(Clone, Copy)]
pub enum Effect {
    /// The pod is not placed on the node.
    NoSchedule,
    /// The node is avoided where another serves.
    PreferNoSchedule,
    /// The pod is not placed on the node, and a running one would be evicted.
    NoExecute,
}

/// A mark on a node that keeps off pods which do not tolerate it.
#[derive(Drop)]
pub struct Taint {
    /// What the taint is about.
    pub key: Name,
    /// The value under the key, which may be empty.
    pub value: Text,
    /// What the taint does.
    pub effect: Effect,
}

/// How a toleration's value is compared with a taint's.
#[derive(Clone, Copy)]
pub enum Operator {
    /// The values are equal.
    Equal,
    /// Every value will do.
    Exists,
}

/// A pod's leave to stand on nodes with certain taints.
#[derive(Drop)]
pub struct Toleration {
    /// The taint's key. An empty key, with `Exists`, stands for every key.
    pub key: Text,
    /// How the values are compared.
    pub operator: Operator,
    /// The taint's value, under `Equal`.
    pub value: Text,
    /// The taint's effect. None stands for every effect.
    pub effect: Option<Effect>,
}
