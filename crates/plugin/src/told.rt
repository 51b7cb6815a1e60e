//! The records by which a kit's plugins are told of a pod and a node, and of which these are.
ghost use Rattle.std.specs.Prelude.{◌≡◌, IfSome};
ghost use Rattle.std.specs.Bool.{IsTrue};
ghost use Rattle.whost.specs.Handed.{told_of, pod_records, node_records};
ghost use Rattle.row_record.specs.Record.{pod_bytes3};

use crate::kept::same_amounts;
use quant::{Bytes, Cpu, Name, Pod, Res, SharedNode};
use std::marker::Model;
use whost::{Record, Records};

// What is used where no node is told yet.
const NOTHING: Res = Res {
    cpu: Cpu(0),
    mem: Bytes(0),
    pods: 0,
};

/// The records of the pod and of the node about which a plugin was asked last. Each is kilobytes
/// large: a kit has them once, and writes them in place where a plugin is asked about another pod
/// or node.
#[derive(Drop)]
pub struct Told {
    records: Records,
    // The uid of the pod whose records they are, once there is one.
    uid: Option<Name>,
    // The node whose records they are, if that is known, and what was used of it.
    node: Option<SharedNode>,
    used: Res,
}

impl Model for Told {
    ghost use Rattle.std.specs.Coded.{codes};
    ghost use Rattle.whost.specs.declared.records.Records.{Records};
    ghost use Rattle.plugin.specs.inside.Told.{AreOf};

    ghost Value = { Records };

    ghost coded = { Prim.hlevel codes };

    ghost view = { λ t. t.records };

    ghost invariant = { AreOf };
}

impl Told {
    /// Records of no pod and no node yet.
    pub fn new() -> Told {
        Told {
            records: Records::new(),
            uid: None,
            node: None,
            used: NOTHING,
        }
    }

    /// The records.
    pub fn records(&self) -> &Records
        ensures { result.now ≡ self.now }
    {
        &self.records
    }

    /// Makes them those of this pod, whose record of version 3 is `class`, and of this node on
    /// which pods use so much. What they are already isn't written once more.
    pub fn tell(&mut self, pod: &Pod, class: &Record, node: &SharedNode, used: &Res)
        requires { class.now ≡ pod_bytes3 pod.now }
        ensures { self.new ≡ told_of pod.now node.now used.now }
    {
        if !self.are_of_pod(pod, class) {
            self.write_pod(pod);
        }
        if !self.are_of_node(node, used) {
            self.write_node(node, used);
        }
    }

    // Whether they are of this pod. Pods of one uid and one record of version 3 have the same
    // records.
    fn are_of_pod(&self, pod: &Pod, class: &Record) -> bool
        requires { class.now ≡ pod_bytes3 pod.now }
        ensures { IsTrue result → self.now.pod ≡ pod_records pod.now }
    {
        let Some(uid) = &self.uid else {
            return false;
        };
        uid.as_bytes() == pod.uid.as_bytes() && self.records.pod3().as_bytes() == class.as_bytes()
    }

    // Writes the records of a pod. Those of the node stay.
    fn write_pod(&mut self, pod: &Pod)
        ensures { self.new ≡ record self.old { pod = pod_records pod.now } }
    {
        self.records.show_pod(pod);
        self.uid = Some(pod.uid.copied());
    }

    // Whether they are of this node with so much used of it.
    fn are_of_node(&self, node: &SharedNode, used: &Res) -> bool
        ensures { IsTrue result → self.now.node ≡ node_records node.now used.now }
    {
        let Some(own) = &self.node else {
            return false;
        };
        if !same_amounts(&self.used, used) {
            return false;
        }
        own.is_same(node)
    }

    // Writes the records of a node. Those of the pod stay.
    fn write_node(&mut self, node: &SharedNode, used: &Res)
        ensures { self.new ≡ record self.old { node = node_records node.now used.now } }
    {
        self.records.show_node(node, used);
        self.used = *used;
        self.node = shared(node);
    }
}

// One more owner of a row, if its owners can still be counted.
fn shared(node: &SharedNode) -> Option<SharedNode>
    ensures { IfSome result (λ own. own ≡ node.now) }
{
    match node.share() {
        Ok(own) => Some(own),
        Err(_) => None,
    }
}
