//! The events of a cluster's watch, and the rows that they carry.
//!
//! A row may be kilobytes large and never changes, so it has many owners and is never copied by
//! content: the reader of a line makes it, and book, queue, snapshots and messages share it.
ghost use Rattle.std.specs.Prelude.{◌≡◌, ◌≤◌, true, false, length, IfOk, IfSome, OnSome, IfNone};
ghost use Rattle.std.specs.Bool.{IsTrue};
ghost use Rattle.std.specs.List.{flat_map};
ghost use Rattle.quant.specs.LabelOrder.{are_in_order};
ghost use Rattle.quant.specs.Packed.{packed_label};

use crate::amount::Request;
use crate::name::Name;
use crate::objects::{Node, Pod};
use crate::shared_row::SharedRow;
use crate::version::Version;
use std::alloc::{AllocError, Global};
use std::marker::Model;
use std::ops::Deref;
use std::sync::Arc;

/// A node's row, which many may own. Contracts see the row, and not where it lies in memory.
pub struct SharedNode {
    row: Arc<SharedRow>,
}

impl Model for SharedNode {
    ghost use Rattle.quant.specs.declared.objects.Node.{Node};
    ghost use Rattle.quant.specs.contracts.objects.Node as node;
    ghost use Rattle.std.specs.Arc.{arc_value};

    ghost Value = { Node };

    ghost coded = { node.the_row.coded };

    ghost view = { λ s. (arc_value s.row).node };
}

/// A pod's row, which many may own. Contracts see the row, and not where it lies in memory.
pub struct SharedPod {
    row: Arc<Pod>,
}

impl Model for SharedPod {
    ghost use Rattle.quant.specs.declared.objects.Pod.{Pod};
    ghost use Rattle.quant.specs.contracts.objects.Pod as pod;
    ghost use Rattle.std.specs.Arc.{arc_value};

    ghost Value = { Pod };

    ghost coded = { pod.the_row.coded };

    ghost view = { λ s. arc_value s.row };
}

impl SharedNode {
    /// The first owner of this row.
    ///
    /// Errors: where no memory is left for it.
    pub fn new(alloc: Global, node: Node) -> Result<SharedNode, AllocError>
        ensures { IfOk result (λ shared. shared ≡ node) }
    {
        let row = Arc::new(alloc, SharedRow::new(alloc, node)?)?;
        Ok(SharedNode { row })
    }

    /// Whether both rows tell the same: `true` is always right. A few hundred bytes of each are
    /// read, that lie together.
    pub fn is_same(&self, other: &SharedNode) -> bool
        ensures { IsTrue result → self.now ≡ other.now }
    {
        self.row.is_same(&other.row)
    }

    /// The labels as they stand in a record, each its key and its value as texts with their lengths,
    /// where they are in rising order of their keys; that was found out when the row was made.
    pub fn labels_in_order(&self) -> Option<&[u8]>
        ensures packed { IfSome result (λ packed. packed.now ≡ flat_map packed_label self.now.labels) }
        ensures in_order { OnSome result (are_in_order self.now.labels ≡ true) }
        ensures not_in_order { IfNone result (are_in_order self.now.labels ≡ false) }
        ensures few { IfSome result (λ packed. length packed.now ≤ 4096) }
    {
        self.row.labels_in_order()
    }

    /// One more owner of the row.
    ///
    /// Errors: where the count of owners is full.
    pub fn share(&self) -> Result<SharedNode, AllocError>
        ensures { IfOk result (λ shared. shared ≡ self.now) }
    {
        let row = self.row.clone()?;
        Ok(SharedNode { row })
    }
}

// By hand, so that who drops a row calls this, and its parts' drops are proved here alone.
impl Drop for SharedNode {
    fn drop(self) {
        let Self { row } = self;
        drop(row);
    }
}

impl Deref for SharedNode {
    type Target = Node;

    ghost deref_gives = { λ shared node. node ≡ shared };

    fn deref(&self) -> &Node
        ensures { result.now ≡ self.now }
    {
        &self.row.node
    }
}

impl SharedPod {
    /// The first owner of this row.
    ///
    /// Errors: where no memory is left for it.
    pub fn new(alloc: Global, pod: Pod) -> Result<SharedPod, AllocError>
        ensures { IfOk result (λ shared. shared ≡ pod) }
    {
        let row = Arc::new(alloc, pod)?;
        Ok(SharedPod { row })
    }

    /// One more owner of the row.
    ///
    /// Errors: where the count of owners is full.
    pub fn share(&self) -> Result<SharedPod, AllocError>
        ensures { IfOk result (λ shared. shared ≡ self.now) }
    {
        let row = self.row.clone()?;
        Ok(SharedPod { row })
    }
}

// By hand, so that who drops a row calls this, and its parts' drops are proved here alone.
impl Drop for SharedPod {
    fn drop(self) {
        let Self { row } = self;
        drop(row);
    }
}

impl Deref for SharedPod {
    type Target = Pod;

    ghost deref_gives = { λ shared pod. pod ≡ shared };

    fn deref(&self) -> &Pod
        ensures { result.now ≡ self.now }
    {
        &self.row
    }
}

/// What a cluster's watch tells. Each event carries the version at which it came, 1 to 10^18.
#[derive(Drop)]
pub enum Event {
    /// A node is there, with this row, or its row has changed to this one.
    NodeSet {
        /// The event's version.
        version: Version,
        /// The node as it is from now on.
        node: SharedNode,
    },
    /// A node is no longer there. Pods may still be placed on its name.
    NodeGone {
        /// The event's version.
        version: Version,
        /// The node's name.
        name: Name,
    },
    /// A pod waits for a place.
    PodPending {
        /// The event's version.
        version: Version,
        /// The pod.
        pod: SharedPod,
    },
    /// A pod runs on a node, whether that node is there or not.
    PodBound {
        /// The event's version.
        version: Version,
        /// Which pod it is.
        uid: Name,
        /// The node's name.
        node: Name,
        /// What the pod takes of the node.
        request: Request,
    },
    /// A pod is no longer there, neither waiting nor placed.
    PodGone {
        /// The event's version.
        version: Version,
        /// Which pod it was.
        uid: Name,
    },
}
