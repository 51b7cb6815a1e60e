//! The records of a pod and the records of a node, field by field.
ghost use Rattle.std.specs.Prelude.{◌≡◌, ◌+◌, ◌≤◌, ◌++◌, length, IfSome};
ghost use Rattle.row_record.specs.inside.Packed.{ArePacked};
ghost use Rattle.row_record.specs.Record.{pod_fields, node_fields, pod_bytes, pod_bytes2, pod_bytes3, pod_size, node_bytes, node_bytes2, node_bytes3, node_size, taints_size, tolerations_size};

use crate::record::{Record, SECOND_VERSION, THIRD_VERSION};
use quant::{Bytes, Cpu, Node, Pod, Res, SharedNode};

// The version that a record begins with.
const FIRST_VERSION: u8 = 1;

// What a record is of.
const OF_POD: u8 = 1;

const OF_NODE: u8 = 2;

// What version 3 tells of what is used.
const NOTHING_USED: Res = Res {
    cpu: Cpu(0),
    mem: Bytes(0),
    pods: 0,
};

// Writes what all versions tell of a pod of this uid behind the version.
fn put_pod(pod: &Pod, uid: &[u8], out: &mut Record)
    requires short { length uid.now ≤ 63 }
    requires begun { length out.old ≤ 1 }
    ensures fields { out.new ≡ out.old ++ pod_fields (record pod.now { uid = uid.now }) }
    ensures count { length out.new + 1 ≡ length out.old + pod_size (record pod.now { uid = uid.now }) }
    ensures most { length out.new ≤ length out.old + 4182 }
{
    out.put_byte(OF_POD);
    out.put_text(uid);
    out.put_i32(pod.priority);
    out.put_u64(pod.request.cpu.0);
    out.put_u64(pod.request.mem.0);
    out.put_labels(pod.labels.as_slice(), None);
}

// Writes what all versions tell of a node behind the version. Its labels may be packed already.
fn put_node(node: &Node, packed: Option<&[u8]>, used: &Res, out: &mut Record)
    requires begun { length out.old ≤ 1 }
    requires packed { IfSome packed (λ packed. ArePacked node.now.labels packed.now) }
    ensures fields { out.new ≡ out.old ++ node_fields node.now used.now }
    ensures count { length out.new + 1 ≡ length out.old + node_size node.now }
    ensures most { length out.new ≤ length out.old + 4203 }
{
    out.put_byte(OF_NODE);
    out.put_text(node.name.as_bytes());
    out.put_mark(node.unschedulable);
    out.put_amounts(&node.allocatable);
    out.put_amounts(used);
    out.put_labels(node.labels.as_slice(), packed);
}

/// Makes `out` the record of a pod in version 1, whatever stood in it.
#[tactic(auto, unfolding(crate::specs::Record::pod_bytes))]
pub fn pod_record(pod: &Pod, out: &mut Record)
    ensures bytes { out.new ≡ pod_bytes pod.now }
    ensures count { length out.new ≡ pod_size pod.now }
    ensures most { length out.new ≤ 4183 }
{
    out.clear();
    out.put_byte(FIRST_VERSION);
    put_pod(pod, pod.uid.as_bytes(), out);
}

/// Makes `out` the record of a pod in version 2, whatever stood in it.
#[tactic(auto, unfolding(crate::specs::Record::pod_bytes2))]
pub fn pod_record2(pod: &Pod, out: &mut Record)
    ensures bytes { out.new ≡ pod_bytes2 pod.now }
    ensures count { length out.new ≡ pod_size pod.now + tolerations_size pod.now.tolerations }
    ensures most { length out.new ≤ 6264 }
{
    out.clear();
    out.put_byte(SECOND_VERSION);
    put_pod(pod, pod.uid.as_bytes(), out);
    out.put_tolerations(pod.tolerations.as_slice());
}

/// Makes `out` the record in version 1 of a node on which pods use so much, whatever stood in it.
#[tactic(auto, unfolding(crate::specs::Record::node_bytes))]
pub fn node_record(node: &Node, used: &Res, out: &mut Record)
    ensures bytes { out.new ≡ node_bytes node.now used.now }
    ensures count { length out.new ≡ node_size node.now }
    ensures most { length out.new ≤ 4204 }
{
    out.clear();
    out.put_byte(FIRST_VERSION);
    put_node(node, None, used, out);
}

/// Makes `out` the record in version 2 of a node on which pods use so much, whatever stood in it.
#[tactic(auto, unfolding(crate::specs::Record::node_bytes2))]
pub fn node_record2(node: &Node, used: &Res, out: &mut Record)
    ensures bytes { out.new ≡ node_bytes2 node.now used.now }
    ensures count { length out.new ≡ node_size node.now + taints_size node.now.taints }
    ensures most { length out.new ≤ 5237 }
{
    out.clear();
    out.put_byte(SECOND_VERSION);
    put_node(node, None, used, out);
    out.put_taints(node.taints.as_slice());
}

/// Makes `out` the record of a pod in version 3, whatever stood in it.
#[tactic(auto, unfolding(crate::specs::Record::pod_bytes3))]
pub fn pod_record3(pod: &Pod, out: &mut Record)
    ensures bytes { out.new ≡ pod_bytes3 pod.now }
    ensures most { length out.new ≤ 6264 }
{
    out.clear();
    out.put_byte(THIRD_VERSION);
    put_pod(pod, &[], out);
    let tolerations = pod.tolerations.as_slice();
    out.put_tolerations(tolerations);
}

/// Makes `out` the record in version 1 of a row that is shared, whose labels are mostly packed.
#[tactic(auto, unfolding(crate::specs::Record::node_bytes))]
pub fn shared_record(node: &SharedNode, used: &Res, out: &mut Record)
    ensures bytes { out.new ≡ node_bytes node.now used.now }
    ensures count { length out.new ≡ node_size node.now }
    ensures most { length out.new ≤ 4204 }
{
    out.clear();
    out.put_byte(FIRST_VERSION);
    put_node(node, node.labels_in_order(), used, out);
}

/// Makes `out` the record of a node in version 3, whatever stood in it. Its labels are mostly packed.
#[tactic(auto, unfolding(crate::specs::Record::node_bytes3))]
pub fn node_record3(node: &SharedNode, out: &mut Record)
    ensures bytes { out.new ≡ node_bytes3 node.now }
    ensures most { length out.new ≤ 5237 }
{
    out.clear();
    out.put_byte(THIRD_VERSION);
    put_node(node, node.labels_in_order(), &NOTHING_USED, out);
    out.put_taints(node.taints.as_slice());
}
