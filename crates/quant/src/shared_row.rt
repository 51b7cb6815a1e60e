//! A node's row with its labels and its taints packed, so that two rows are compared by a few
//! hundred bytes that lie together.
ghost use Rattle.std.specs.Prelude.{◌≡◌, ◌+◌, ◌*◌, ◌∷◌, ◌++◌, ◌≤◌, true, false, IfOk, OnOk, IfSome, OnSome, IfNone, length};
ghost use Rattle.std.specs.Bool.{IsTrue};
ghost use Rattle.std.specs.List.{flat_map};
ghost use Rattle.quant.specs.LabelOrder.{are_in_order};
ghost use Rattle.quant.specs.Packed.{packed_text, packed_label};
ghost use Rattle.quant.specs.inside.Packed.{packed_taint, packed_effect};

use crate::amount::Res;
use crate::label_order::are_in_order;
use crate::name::Name;
use crate::objects::{Label, Node};
use crate::taint::{Effect, Taint};
use std::alloc::{AllocError, Global};

/// A row, and all that it tells once more in front of it: its name and labels, and its taints, as
/// texts with their lengths. What is compared lies together, where the row's own lists lie apart.
#[derive(Drop)]
pub(crate) struct SharedRow {
    allocatable: Res,
    unschedulable: bool,
    // Whether the labels stand in rising order of their keys.
    in_order: bool,
    // The bytes in front of the labels.
    named: usize,
    labels: Vec<u8>,
    taints: Vec<u8>,
    pub(crate) node: Node,
    ghost allocatable_is: { allocatable ≡ node.allocatable },
    ghost unschedulable_is: { unschedulable ≡ node.unschedulable },
    ghost in_order_is: { in_order ≡ are_in_order node.labels },
    ghost named_is: { named ≡ 1 + length node.name },
    ghost named_within: { named ≤ length labels.items },
    ghost few_labels: { length labels.items ≤ named + 4096 },
    ghost labels_are: { labels.items ≡ packed_text node.name ++ flat_map packed_label node.labels },
    ghost taints_are: { taints.items ≡ flat_map packed_taint node.taints },
}

impl SharedRow {
    /// The row with what is packed of it.
    ///
    /// Errors: where no memory is left.
    pub(crate) fn new(alloc: Global, node: Node) -> Result<SharedRow, AllocError>
        ensures { IfOk result (λ row. row.node ≡ node) }
    {
        let labels = pack_labels(alloc, &node.name, node.labels.as_slice())?;
        let taints = pack_taints(alloc, node.taints.as_slice())?;
        Ok(SharedRow {
            allocatable: node.allocatable,
            unschedulable: node.unschedulable,
            in_order: are_in_order(node.labels.as_slice()),
            named: 1 + node.name.as_bytes().len(),
            labels,
            taints,
            node,
        })
    }

    /// The labels, packed, where they stand in rising order of their keys.
    #[tactic(auto, using(crate::proofs::PackedLemmas::behind_name))]
    pub(crate) fn labels_in_order(&self) -> Option<&[u8]>
        ensures packed { IfSome result (λ packed. packed.now ≡ flat_map packed_label self.now.node.labels) }
        ensures in_order { OnSome result (are_in_order self.now.node.labels ≡ true) }
        ensures not_in_order { IfNone result (are_in_order self.now.node.labels ≡ false) }
        ensures few { IfSome result (λ packed. length packed.now ≤ 4096) }
    {
        if self.in_order {
            Some(&self.labels[self.named..])
        } else {
            None
        }
    }

    /// Whether both rows tell the same.
    pub(crate) fn is_same(&self, other: &SharedRow) -> bool
        ensures { IsTrue result → self.now.node ≡ other.now.node }
    {
        if !are_same_amounts(&self.allocatable, &other.allocatable) {
            return false;
        }
        if !are_same_marks(self.unschedulable, other.unschedulable) {
            return false;
        }
        if !are_same_bytes(self.taints.as_slice(), other.taints.as_slice()) {
            return false;
        }
        are_same_bytes(self.labels.as_slice(), other.labels.as_slice())
    }
}

// Whether two texts are the same. It looks at all bytes, also behind one that differs: without an
// end in the midst a compiler makes it look at sixteen at once, and most rows that are compared are
// the same.
fn are_same_bytes(a: &[u8], b: &[u8]) -> bool
    ensures { IsTrue result → a.now ≡ b.now }
{
    if a.len() != b.len() {
        return false;
    }
    let mut same = true;
    for at in 0..a.len() {
        if a[at] != b[at] {
            same = false;
        }
    }
    same
}

// Whether two amounts are the same.
#[tactic(auto, using(crate::proofs::PackedLemmas::amounts_same))]
fn are_same_amounts(a: &Res, b: &Res) -> bool
    ensures { IsTrue result → a.now ≡ b.now }
{
    if a.cpu.0 != b.cpu.0 {
        return false;
    }
    if a.mem.0 != b.mem.0 {
        return false;
    }
    a.pods == b.pods
}

// Whether two marks are the same.
fn are_same_marks(a: bool, b: bool) -> bool
    ensures { IsTrue result → a ≡ b }
{
    match (a, b) {
        (true, true) => true,
        (false, false) => true,
        _ => false,
    }
}

// A name, and labels, each as its key and its value.
fn pack_labels(alloc: Global, name: &Name, labels: &[Label]) -> Result<Vec<u8>, AllocError>
    ensures packed { IfOk result (λ packed.
        packed.items ≡ packed_text name.now ++ flat_map packed_label labels.now) }
    ensures least { IfOk result (λ packed. 1 + length name.now ≤ length packed.items) }
    ensures most { IfOk result (λ packed. length packed.items ≤ 1 + length name.now + 128 * length labels.now) }
{
    let mut packed = Vec::new(alloc);
    put_text(&mut packed, name.as_bytes())?;
    for label in labels {
        put_label(&mut packed, label)?;
    }
    Ok(packed)
}

// Taints, each as its key, its value and its effect.
fn pack_taints(alloc: Global, taints: &[Taint]) -> Result<Vec<u8>, AllocError>
    ensures { IfOk result (λ packed. packed.items ≡ flat_map packed_taint taints.now) }
{
    let mut packed = Vec::new(alloc);
    for taint in taints {
        put_taint(&mut packed, taint)?;
    }
    Ok(packed)
}

// Writes a label behind what is packed already.
fn put_label(packed: &mut Vec<u8>, label: &Label) -> Result<(), AllocError>
    ensures put { OnOk result (packed.new.items ≡ packed.old.items ++ packed_label label.now) }
    ensures least { OnOk result (length packed.old.items ≤ length packed.new.items) }
    ensures most { OnOk result (length packed.new.items ≤ length packed.old.items + 128) }
{
    put_text(packed, label.key.as_bytes())?;
    put_text(packed, label.value.as_bytes())
}

// Writes a taint behind what is packed already.
fn put_taint(packed: &mut Vec<u8>, taint: &Taint) -> Result<(), AllocError>
    ensures { OnOk result (packed.new.items ≡ packed.old.items ++ packed_taint taint.now) }
{
    put_text(packed, taint.key.as_bytes())?;
    put_text(packed, taint.value.as_bytes())?;
    put_bytes(packed, &[byte_of(taint.effect)])
}

// Writes a text: its length and its bytes.
fn put_text(packed: &mut Vec<u8>, text: &[u8]) -> Result<(), AllocError>
    requires { length text.now ≤ 63 }
    ensures put { OnOk result (packed.new.items ≡ packed.old.items ++ packed_text text.now) }
    ensures count { OnOk result (length packed.new.items ≡ length packed.old.items + 1 + length text.now) }
{
    put_bytes(packed, &[text.len() as u8])?;
    put_bytes(packed, text)
}

// Writes bytes behind what is packed already.
fn put_bytes(packed: &mut Vec<u8>, bytes: &[u8]) -> Result<(), AllocError>
    ensures { OnOk result (packed.new.items ≡ packed.old.items ++ bytes.now) }
{
    packed.extend_from_slice(bytes)
}

// The byte of an effect.
fn byte_of(effect: Effect) -> u8
    ensures { result ≡ packed_effect effect }
{
    match effect {
        Effect::NoSchedule => 1,
        Effect::PreferNoSchedule => 2,
        Effect::NoExecute => 3,
    }
}
