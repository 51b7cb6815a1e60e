//! What some places use on each node, summed anew.
ghost use Rattle.std.specs.Prelude.{◌≡◌, ◌≤◌, ℕ, List, IfOk, OnOk, length, bytes_eq, false};
ghost use Rattle.audit.specs.inside.Audit.{nothing, sum_in, share_in, plus, used_in, HasRoom, AddsShare, IsSumOf};

use book::Place;
use name_table::Entry;
use quant::{Bytes, Cpu, Name, Res};
use std::alloc::{AllocError, Global};
use std::collections::BTreeMap;

/// So many slots are summed together: few enough that their sums fit a `Res`, and enough that the
/// tables are few.
pub(crate) const PIECE: usize = 16_384;

/// What some places add up to, by the name of their node. A tree of names, since nobody can choose
/// names by which it is slow.
#[derive(Drop)]
pub(crate) struct Sums {
    pub(crate) by_node: BTreeMap<Name, Res>,
}

impl Sums {
    fn new(alloc: Global) -> Sums
        ensures { (node : List ℕ) → sum_in result node ≡ nothing }
    {
        Sums {
            by_node: BTreeMap::new(alloc),
        }
    }

    /// What they add up to on this node.
    pub(crate) fn on(&self, node: &Name) -> Res
        ensures { result ≡ sum_in self.now node.now }
    {
        match self.by_node.get(node) {
            Some(sum) => *sum,
            None => Res {
                cpu: Cpu(0),
                mem: Bytes(0),
                pods: 0,
            },
        }
    }

    // Gives a node another sum.
    fn set(&mut self, node: Name, sum: Res) -> Result<(), AllocError>
        ensures same { OnOk result (sum_in self.new node ≡ sum) }
        ensures others { OnOk result ((other : List ℕ) → bytes_eq node other ≡ false →
            sum_in self.new other ≡ sum_in self.old other) }
    {
        self.by_node.insert(node, sum)?;
        Ok(())
    }

    // One place more: the request of its pod and one pod more on its node.
    fn add(&mut self, place: &Place) -> Result<(), AllocError>
        requires { HasRoom (sum_in self.old place.now.node) }
        ensures { OnOk result (AddsShare self.old place.now self.new) }
    {
        let before = self.on(&place.node);
        let sum = Res {
            cpu: Cpu(before.cpu.0 + place.request.cpu.0),
            mem: Bytes(before.mem.0 + place.request.mem.0),
            pods: before.pods + 1,
        };
        self.set(place.node.copied(), sum)
    }

    // What a slot has, if it isn't free.
    fn add_slot(&mut self, slot: &Option<Entry<Place>>) -> Result<(), AllocError>
        requires { (node : List ℕ) → HasRoom (sum_in self.old node) }
        ensures { OnOk result ((node : List ℕ) → sum_in self.new node
            ≡ plus (sum_in self.old node) (share_in node slot.now)) }
    {
        match slot {
            Some(entry) => self.add(&entry.value),
            None => Ok(()),
        }
    }
}

/// What the places in some slots add up to.
pub(crate) fn sums_of(alloc: Global, slots: &[Option<Entry<Place>>]) -> Result<Sums, AllocError>
    requires { length slots.now ≤ PIECE }
    ensures { IfOk result (λ sums. IsSumOf slots.now sums) }
{
    let mut sums = Sums::new(alloc);
    for slot in slots {
        sums.add_slot(slot)?;
    }
    Ok(sums)
}
