//! Where pods are placed, with what the pods on each node use together.
ghost use Rattle.std.specs.Prelude.{◌≡◌, ℕ, ◌+◌, ◌<◌, ◌≤◌, IfOk, IfErr, IfSome, IfNone, OnOk, OnErr, IsSome, true, false, List, Some, length};
ghost use Rattle.std.specs.Bool.{IsTrue};
ghost use Rattle.std.specs.Option.{option_copied};
ghost use Rattle.std.specs.FinMap as fin;
ghost use Rattle.name_table.specs.Slots.{entry_in, map_of, name_in};
ghost use Rattle.book.specs.Tables.{is_full_for};
ghost use Rattle.book.specs.inside.Tables.{IsShown};
ghost use Rattle.book.specs.Used.{used, assumed, bound, assumed_in};
ghost use Rattle.book.specs.Totals.{IsWithin};
ghost use Rattle.book.specs.inside.Totals.{total_at, plus, adds, one_pod, most_of, idle_in, pods_in};
ghost use Rattle.quant.specs.declared.limits.TheConstants.{MAX_PLACED};

mod slots;

use crate::NoMemory;
use crate::finishes::{Finishes, NEVER};
use crate::limits::EXPIRY;
use crate::nodes::Nodes;
use crate::overdue::{Overdue, any_finished};
use crate::place::{Place, Status};
use crate::refusal::Refusal;
use name_table::NameTable;
use quant::{Bytes, Cpu, MAX_PLACED, Moment, Name, Request, Res};
use std::alloc::Global;
use std::hash::RandomState;
use std::marker::Model;

// What is used of a node without pods.
const NOTHING: Res = Res {
    cpu: Cpu(0),
    mem: Bytes(0),
    pods: 0,
};

/// The places of pods, by uid. What the pods on a node use is kept, so that neither a look-up nor a
/// change depends on how many places there are.
///
/// A node's total goes with its last pod, so that there are no more totals than places.
#[derive(Drop)]
pub(crate) struct Places {
    by_uid: NameTable<Place>,
    totals: NameTable<Res>,
    assumed: usize,
    // When the bind of the place in each slot was reported done.
    finishes: Finishes,
    overdue: Overdue,
    // The slot of the place that was put or finished last, at which the next pod is looked for
    // first. It is a guess.
    last: usize,
}

impl Model for Places {
    ghost use Rattle.book.specs.inside.Tables.{Held};
    ghost use Rattle.book.specs.declared.place.Place.{Place};

    ghost Value = { Held Place };

    ghost use Rattle.book.specs.inside.Codes.{held_code};
    ghost use Rattle.book.specs.contracts.place.Place as place;

    ghost coded = { held_code place.the_row.coded };

    ghost use Rattle.std.specs.Prelude.{length};
    ghost use Rattle.name_table.specs.Slots.{entry_in, map_of, name_in};
    ghost use Rattle.book.specs.inside.Finishes.{IsKept};

    ghost view = { λ t. record { map = map_of t.by_uid; room = length t.by_uid } };

    ghost invariant = { λ t. IsKept t.by_uid t.totals t.assumed t.finishes t.overdue };
}

impl Places {
    ghost use Rattle.book.specs.declared.place.Place.{Place};
    ghost use Rattle.book.specs.Step.{finished_status};
    ghost use Rattle.book.specs.Expiry.{is_expired, IsFirstExpired, NoneExpired};

    /// No places, with room for as many.
    pub(crate) fn new(alloc: Global, keys: RandomState, room: usize) -> Result<Self, NoMemory>
        requires { room ≤ MAX_PLACED }
        ensures { IfOk result (λ t. t ≡ record { map = fin.empty; room = room }) }
    {
        let Ok(finishes) = Finishes::new(alloc, room) else {
            return Err(NoMemory);
        };
        let Ok(overdue) = Overdue::new(alloc, room) else {
            return Err(NoMemory);
        };
        // (of the two tables the places take longer to drop)
        let Ok(totals) = NameTable::new(alloc, keys, room) else {
            return Err(NoMemory);
        };
        let Ok(by_uid) = NameTable::new(alloc, keys, room) else {
            return Err(NoMemory);
        };
        Ok(Places {
            by_uid,
            totals,
            assumed: 0,
            finishes,
            overdue,
            last: 0,
        })
    }

    /// How many places are assumed.
    pub(crate) fn assumed(&self) -> usize
        ensures { result ≡ assumed self.now.map }
    {
        self.assumed
    }

    /// How many places are bound.
    pub(crate) fn bound(&self) -> usize
        ensures { result ≡ bound self.now.map }
    {
        self.by_uid.len() - self.assumed
    }

    /// What the pods on a node use together.
    pub(crate) fn used(&self, node: &Name) -> Res
        ensures { result ≡ used self.now.map node.now }
    {
        self.totals.get(node).copied().unwrap_or(NOTHING)
    }

    /// The slot of a node's total, which `put` and `remove` told the nodes with it, where a pod is
    /// on the node.
    pub(crate) fn total_slot(&self, node: &Name) -> Option<usize> {
        self.totals.find(node)
    }

    /// Whether a pod has a place.
    pub(crate) fn has(&self, uid: &Name) -> bool
        ensures { result ≡ fin.contains_key self.now.map uid.now }
    {
        self.by_uid.find(uid).is_some()
    }

    /// A pod's place.
    pub(crate) fn get(&self, uid: &Name) -> Option<&Place>
        ensures { option_copied result ≡ fin.get self.now.map uid.now }
    {
        match slot_near(&self.by_uid, uid, self.last) {
            Some(slot) => Some(self.by_uid.value_at(slot)),
            None => self.by_uid.get(uid),
        }
    }

    /// Gives a pod a place, instead of the one that it may have. What is used of nodes is shown
    /// beside their rows.
    ///
    /// Errors: `Full` where it has none and there is no room for one more; nothing changes.
    pub(crate) fn put(&mut self, nodes: &mut Nodes, uid: Name, place: Place) -> Result<(), Refusal>
        ensures nodes { (nodes.new.map ≡ nodes.old.map) × (nodes.new.room ≡ nodes.old.room) }
        ensures shown { IsShown (used self.old.map) nodes.old → IsShown (used self.new.map) nodes.new }
        ensures put { OnOk result (self.new ≡ record self.old { map = fin.insert self.old.map uid place }) }
        ensures room { OnOk result (is_full_for self.old.map self.old.room uid ≡ false) }
        ensures full { OnErr result (is_full_for self.old.map self.old.room uid ≡ true) }
        ensures why { IfErr result (λ why. why ≡ Refusal.Full) }
        ensures unchanged { OnErr result (self.new ≡ self.old) }
    {
        let finish = place.status.finish();
        match self.by_uid.find(&uid) {
            Some(slot) => {
                let old = self.by_uid.value_at(slot);
                let (slot_before, left) = take(&mut self.totals, &old.node, &old.request);
                nodes.keep(&old.node, left, slot_before);
                self.assumed -= assumed_count(&old.status);
                let (slot_now, total) = add(&mut self.totals, &place.node, &place.request);
                nodes.keep(&place.node, total, slot_now);
                self.assumed += assumed_count(&place.status);
                self.by_uid.replace_at(slot, place);
                self.finishes.set(slot, finish);
                self.overdue.limit = None;
                self.last = slot;
                Ok(())
            }
            None => {
                if self.by_uid.is_full() {
                    return Err(Refusal::Full);
                }
                let (slot_now, total) = add(&mut self.totals, &place.node, &place.request);
                nodes.keep(&place.node, total, slot_now);
                self.assumed += assumed_count(&place.status);
                let slot = self.by_uid.insert(uid, place);
                self.finishes.set(slot, finish);
                self.overdue.limit = None;
                self.last = slot;
                Ok(())
            }
        }
    }

    /// Takes a pod's place away, and tells whether it had one. What is used of its node is shown
    /// beside the node's row.
    pub(crate) fn remove(&mut self, nodes: &mut Nodes, uid: &Name) -> bool
        ensures nodes { (nodes.new.map ≡ nodes.old.map) × (nodes.new.room ≡ nodes.old.room) }
        ensures shown { IsShown (used self.old.map) nodes.old → IsShown (used self.new.map) nodes.new }
        ensures there { result ≡ fin.contains_key self.old.map uid.now }
        ensures gone { self.new ≡ record self.old { map = fin.remove self.old.map uid.now } }
        ensures kept { result ≡ false → self.new ≡ self.old }
    {
        let Some(slot) = self.by_uid.find(uid) else {
            return false;
        };
        let old = self.by_uid.remove_at(slot).value;
        self.finishes.set(slot, NEVER);
        let (slot_before, left) = take(&mut self.totals, &old.node, &old.request);
        nodes.keep(&old.node, left, slot_before);
        self.assumed -= assumed_count(&old.status);
        true
    }

    /// Marks a pod's place as finished at this moment, if it is assumed.
    pub(crate) fn finish(&mut self, uid: &Name, at: Moment)
        requires { IsSome (fin.get self.old.map uid.now) }
        ensures room { self.new.room ≡ self.old.room }
        ensures alike { used self.new.map ≡ used self.old.map }
        ensures finished { (place : Place) → fin.get self.old.map uid.now ≡ Some place
            → self.new ≡ record self.old { map = fin.insert self.old.map uid.now (record place { status = finished_status at place.status }) } }
    {
        let Some(slot) = self.by_uid.find(uid) else {
            return;
        };
        let place = self.by_uid.value_at(slot);
        let finished = Place {
            node: place.node.copied(),
            request: place.request,
            status: place.status.finished(at),
        };
        self.finishes.set(slot, finished.status.finish());
        self.by_uid.replace_at(slot, finished);
        self.overdue.limit = None;
        self.last = slot;
    }

    /// Whether a place expires at this moment.
    pub(crate) fn expires(&self, now: Moment) -> bool
        ensures some { IsTrue result → (uid : List ℕ) × (is_expired self.now.map now uid ≡ true) }
        ensures none { result ≡ false → NoneExpired self.now.map now }
    {
        now.0 >= EXPIRY && any_finished(&self.by_uid, &self.finishes, now.0 - EXPIRY)
    }

    /// Takes the expired place with the least uid away, and answers that uid.
    ///
    /// The first call for a moment finds what expires, passing over all blocks of slots that have
    /// none, and puts it in order. The next ones for that moment take it from there, until a place
    /// is put or finished.
    pub(crate) fn expire(&mut self, nodes: &mut Nodes, now: Moment) -> Option<Name>
        ensures nodes { (nodes.new.map ≡ nodes.old.map) × (nodes.new.room ≡ nodes.old.room) }
        ensures shown { IsShown (used self.old.map) nodes.old → IsShown (used self.new.map) nodes.new }
        ensures first { IfSome result (IsFirstExpired self.old.map now) }
        ensures gone { IfSome result (λ uid. self.new ≡ record self.old { map = fin.remove self.old.map uid }) }
        ensures none { IfNone result (NoneExpired self.old.map now) }
        ensures unchanged { IfNone result (self.new ≡ self.old) }
    {
        if now.0 < EXPIRY {
            return None;
        }
        let limit = now.0 - EXPIRY;
        self.overdue.gather(&self.by_uid, &self.finishes, limit);
        let Some(uid) = self.overdue.first(&self.by_uid, limit) else {
            return None;
        };
        self.remove(nodes, &uid);
        Some(uid)
    }
}

// The slot that was guessed, if it has this name.
fn slot_near(table: &NameTable<Place>, name: &Name, guess: usize) -> Option<usize>
    ensures filled { IfSome result (λ slot. IsSome (entry_in table.now slot)) }
    ensures name { IfSome result (λ slot. name_in table.now slot ≡ Some name.now) }
{
    match table.slots().get(guess) {
        Some(Some(entry)) if entry.name == *name => Some(guess),
        _ => None,
    }
}

// 1 for a place that is assumed, and 0 for one that is bound.
fn assumed_count(status: &Status) -> usize
    ensures { result ≡ assumed_in status.now }
{
    match status {
        Status::Assumed { .. } => 1,
        Status::Bound => 0,
    }
}

// Adds a pod to its node's total. The slot of that total, and what it is now.
fn add(totals: &mut NameTable<Res>, node: &Name, request: &Request) -> (usize, Res)
    requires room { pods_in (map_of totals.old) < length totals.old }
    requires small { length totals.old ≤ MAX_PLACED }
    requires within { IsWithin (total_at (map_of totals.old) node.now) (most_of MAX_PLACED) }
    requires in_use { idle_in (map_of totals.old) ≡ 0 }
    ensures each { (other : List ℕ) → total_at (map_of totals.new) other
        ≡ plus (total_at (map_of totals.old) other) (adds node.now request.now other) }
    ensures now { result.1 ≡ total_at (map_of totals.new) node.now }
    ensures pods { pods_in (map_of totals.new) ≡ pods_in (map_of totals.old) + 1 }
    ensures in_use { idle_in (map_of totals.new) ≡ 0 }
    ensures room { length totals.new ≡ length totals.old }
{
    match totals.find(node) {
        Some(slot) => {
            let had = *totals.value_at(slot);
            let more = Res {
                cpu: Cpu(had.cpu.0 + request.cpu.0),
                mem: Bytes(had.mem.0 + request.mem.0),
                pods: had.pods + 1,
            };
            totals.replace_at(slot, more);
            (slot, more)
        }
        None => {
            let first = Res {
                cpu: request.cpu,
                mem: request.mem,
                pods: 1,
            };
            (totals.insert(node.copied(), first), first)
        }
    }
}

// Takes a pod out of its node's total, which goes with the last pod. The slot of that total, and
// what it is now.
fn take(totals: &mut NameTable<Res>, node: &Name, request: &Request) -> (usize, Res)
    requires within { IsWithin (one_pod request.now) (total_at (map_of totals.old) node.now) }
    requires last { (total_at (map_of totals.old) node.now).pods ≡ 1 →
        total_at (map_of totals.old) node.now ≡ one_pod request.now }
    requires in_use { idle_in (map_of totals.old) ≡ 0 }
    ensures each { (other : List ℕ) → plus (total_at (map_of totals.new) other) (adds node.now request.now other)
        ≡ total_at (map_of totals.old) other }
    ensures now { result.1 ≡ total_at (map_of totals.new) node.now }
    ensures pods { pods_in (map_of totals.new) + 1 ≡ pods_in (map_of totals.old) }
    ensures in_use { idle_in (map_of totals.new) ≡ 0 }
    ensures room { length totals.new ≡ length totals.old }
{
    let Some(slot) = totals.find(node) else {
        unreachable!();
    };
    let had = *totals.value_at(slot);
    if had.pods == 1 {
        totals.remove_at(slot);
        return (slot, NOTHING);
    }
    let less = Res {
        cpu: Cpu(had.cpu.0 - request.cpu.0),
        mem: Bytes(had.mem.0 - request.mem.0),
        pods: had.pods - 1,
    };
    totals.replace_at(slot, less);
    (slot, less)
}
