//! What a module is told of a pod and of the node that is looked at: their records, in all
//! versions.
ghost use Rattle.std.specs.Prelude.{◌≡◌, []};
ghost use Rattle.whost.specs.Handed.{pod_records, node_records};

use quant::{Pod, Res, SharedNode};
use row_record::{Record, node_record3, pod_record, pod_record3, shared_record};
use wmach::Host;

/// A record in versions 1, 2 and 3.
#[derive(Drop)]
pub struct Versions {
    first: Record,
    second: Record,
    third: Record,
}

impl Versions {
    // Three records of no bytes.
    fn new() -> Versions
        ensures first { result.first ≡ [] }
        ensures second { result.second ≡ [] }
        ensures third { result.third ≡ [] }
    {
        Versions {
            first: Record::new(),
            second: Record::new(),
            third: Record::new(),
        }
    }

    // Makes them those of a pod.
    #[tactic(auto, unfolding(row_record::specs::Record::pod_bytes, row_record::specs::Record::pod_bytes2))]
    fn show_pod(&mut self, pod: &Pod)
        ensures { self.new ≡ pod_records pod.now }
    {
        pod_record(pod, &mut self.first);
        self.second.copy_as_second(&self.first);
        self.second.put_tolerations(pod.tolerations.as_slice());
        pod_record3(pod, &mut self.third);
    }

    // Makes them those of a node on which pods use so much.
    #[tactic(auto, unfolding(row_record::specs::Record::node_bytes, row_record::specs::Record::node_bytes2))]
    fn show_node(&mut self, node: &SharedNode, used: &Res)
        ensures { self.new ≡ node_records node.now used.now }
    {
        shared_record(node, used, &mut self.first);
        self.second.copy_as_second(&self.first);
        self.second.put_taints(node.taints.as_slice());
        node_record3(node, &mut self.third);
    }
}

/// The records of a pod and those of a node. Each is kilobytes large and is written in place, the
/// pod's once a decision and the node's once a node.
#[derive(Drop)]
pub struct Records {
    pod: Versions,
    node: Versions,
}

impl Records {
    /// Records of no bytes.
    pub fn new() -> Records
        ensures pod { result.pod ≡ record { first = []; second = []; third = [] } }
        ensures node { result.node ≡ record { first = []; second = []; third = [] } }
    {
        Records {
            pod: Versions::new(),
            node: Versions::new(),
        }
    }

    /// The pod's record of version 1.
    pub fn pod(&self) -> &Record
        ensures { result.now ≡ self.now.pod.first }
    {
        &self.pod.first
    }

    /// The pod's record of version 2.
    pub fn pod2(&self) -> &Record
        ensures { result.now ≡ self.now.pod.second }
    {
        &self.pod.second
    }

    /// The pod's record of version 3.
    pub fn pod3(&self) -> &Record
        ensures { result.now ≡ self.now.pod.third }
    {
        &self.pod.third
    }

    /// The node's record of version 1.
    pub fn node(&self) -> &Record
        ensures { result.now ≡ self.now.node.first }
    {
        &self.node.first
    }

    /// Makes the pod's records those of this pod. The node's stay.
    pub fn show_pod(&mut self, pod: &Pod)
        ensures { self.new ≡ record self.old { pod = pod_records pod.now } }
    {
        self.pod.show_pod(pod);
    }

    /// Makes the node's records those of this node, on which pods use so much. The pod's stay.
    pub fn show_node(&mut self, node: &SharedNode, used: &Res)
        ensures { self.new ≡ record self.old { node = node_records node.now used.now } }
    {
        self.node.show_node(node, used);
    }
}

impl Host for Records {
    ghost use Rattle.whost.specs.Handed.{record_of};

    ghost records = { record_of };

    fn record(&self, import: usize) -> Option<&[u8]> {
        match import {
            0 => Some(self.pod.first.as_bytes()),
            1 => Some(self.node.first.as_bytes()),
            2 => Some(self.pod.second.as_bytes()),
            3 => Some(self.node.second.as_bytes()),
            4 => Some(self.pod.third.as_bytes()),
            5 => Some(self.node.third.as_bytes()),
            _ => None,
        }
    }
}
