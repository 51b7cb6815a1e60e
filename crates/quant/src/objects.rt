//! Nodes and pods. A row is immutable once made and may be some kilobytes large, so it travels by
//! its owners, a `SharedNode` or a `SharedPod`, and is never copied by content.
use crate::amount::{Request, Res};
use crate::at_most::AtMost;
use crate::limits::{MAX_LABELS, MAX_TAINTS, MAX_TOLERATIONS};
use crate::name::{Name, Text};
use crate::taint::{Taint, Toleration};

/// A label of a node or a pod.
#[derive(Drop)]
pub struct Label {
    /// The label's key.
    pub key: Name,
    /// The value under the key, which may be empty.
    pub value: Text,
}

/// A node, as the last watch event tells it.
#[derive(Drop)]
pub struct Node {
    /// The node's name.
    pub name: Name,
    /// What the node has for pods.
    pub allocatable: Res,
    /// At most 32 labels.
    pub labels: AtMost<Label, MAX_LABELS>,
    /// At most 8 taints.
    pub taints: AtMost<Taint, MAX_TAINTS>,
    /// Whether the node takes no new pods, but for those that tolerate this mark.
    pub unschedulable: bool,
}

/// A pod that waits for a place.
#[derive(Drop)]
pub struct Pod {
    /// What tells the pod from every other, at all times.
    pub uid: Name,
    /// Greater comes first. Any number may be given.
    pub priority: i32,
    /// What the pod asks of a node.
    pub request: Request,
    /// At most 32 labels.
    pub labels: AtMost<Label, MAX_LABELS>,
    /// At most 16 tolerations.
    pub tolerations: AtMost<Toleration, MAX_TOLERATIONS>,
}
