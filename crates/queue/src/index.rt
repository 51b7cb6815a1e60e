//! Which slots stand where.
ghost use Rattle.std.specs.Prelude.{◌≡◌, ℕ, ◌+◌, ◌<◌, ◌≤◌, ◌⊎◌, true, false, None, Some, IfOk, IfSome, IfNone, IsSome, IsTrue, length, replicate};
ghost use Rattle.quant.specs.declared.limits.TheConstants.{MAX_QUEUED};
ghost use Rattle.name_table.specs.Slots.{entry_in};
ghost use Rattle.queued.specs.Entry.{Entry, is_in_flight};
ghost use Rattle.queue.specs.inside.Row.{at, IsIn};
ghost use Rattle.queue.specs.inside.Heap.{AllThere};
ghost use Rattle.queue.specs.inside.Index.{state_in, stands_in, IsEnd, IsIndex, IsIndexBut};
ghost use Rattle.queued.specs.Change.{is_due};

use crate::heap::{insert, remove};
use crate::row::Row;
use name_table::NameTable;
use quant::Moment;
use queued::{Slot, State};
use std::alloc::{AllocError, Global};

/// The slots of a queue by where their pods stand. Each slot knows its place in its row.
#[derive(Drop)]
pub(crate) struct Index {
    /// A heap of those that wait to be popped, the first one at its top.
    pub(crate) active: Row,
    /// A heap of those that back off, by the end of that.
    pub(crate) backoff: Row,
    /// A heap of those that no node would take, by the moment of their failure.
    pub(crate) unschedulable: Row,
    /// Those that a pass has popped, with no move since, in no order.
    pub(crate) unmarked: Row,
}

impl Index {
    /// An index of slots that have no pod.
    pub(crate) fn new(alloc: Global, room: usize) -> Result<Index, AllocError>
        requires { room ≤ MAX_QUEUED }
        ensures { IfOk result (λ index. IsIndex (replicate room None) index) }
    {
        let Ok(active) = Row::new(alloc, room) else {
            return Err(AllocError);
        };
        let Ok(backoff) = Row::new(alloc, room) else {
            return Err(AllocError);
        };
        let Ok(unschedulable) = Row::new(alloc, room) else {
            return Err(AllocError);
        };
        let Ok(unmarked) = Row::new(alloc, room) else {
            return Err(AllocError);
        };
        Ok(Index {
            active,
            backoff,
            unschedulable,
            unmarked,
        })
    }

    /// A slot leaves where it stands, before its pod changes or goes.
    pub(crate) fn leave(
        &mut self,
        pods: &NameTable<Slot>,
        slot: usize,
        state: State,
        count: &mut u32,
    )
        requires index { IsIndex pods.now self.old }
        requires state { state_in pods.now slot ≡ Some state }
        requires few { count.old ≤ 1 }
        ensures index { IsIndexBut pods.now self.new slot }
        ensures counted { count.new ≤ count.old + 26 }
        ensures none { IsTrue (is_in_flight state) → count.new ≡ count.old }
    {
        match state {
            State::Active => remove(&mut self.active, pods, slot, count),
            State::Backoff(_) => remove(&mut self.backoff, pods, slot, count),
            State::Unschedulable(_) => remove(&mut self.unschedulable, pods, slot, count),
            State::InFlight { moved: false, .. } => self.unmarked.take(slot),
            State::InFlight { moved: true, .. } => {}
        }
    }

    /// A slot that is nowhere enters where its pod stands now.
    pub(crate) fn enter(
        &mut self,
        pods: &NameTable<Slot>,
        slot: usize,
        state: State,
        count: &mut u32,
    )
        requires index { IsIndexBut pods.now self.old slot }
        requires state { state_in pods.now slot ≡ Some state }
        requires few { count.old ≤ 30 }
        ensures index { IsIndex pods.now self.new }
        ensures counted { count.new ≤ count.old + 13 }
        ensures none { IsTrue (is_in_flight state) → count.new ≡ count.old }
    {
        match state {
            State::Active => insert(&mut self.active, pods, slot, count),
            State::Backoff(_) => insert(&mut self.backoff, pods, slot, count),
            State::Unschedulable(_) => insert(&mut self.unschedulable, pods, slot, count),
            State::InFlight { moved: false, .. } => self.unmarked.push(slot),
            State::InFlight { moved: true, .. } => {}
        }
    }

    /// The slot whose pod is popped next.
    pub(crate) fn first(&self) -> Option<usize>
        ensures { IsEnd self.now.active.slots 0 result }
    {
        if self.active.len() == 0 {
            return None;
        }
        Some(self.active.at(0))
    }

    /// A slot whose pod is released at this moment, if there is any.
    pub(crate) fn due(&self, pods: &NameTable<Slot>, now: Moment) -> Option<usize>
        requires { IsIndex pods.now self.now }
        ensures some { IfSome result (λ s. stands_in (is_due now) pods.now s ≡ true) }
        ensures none { IfNone result ((s : ℕ) → stands_in (is_due now) pods.now s ≡ false) }
    {
        match due_in(&self.backoff, pods, now) {
            Some(slot) => Some(slot),
            None => due_in(&self.unschedulable, pods, now),
        }
    }

    /// A slot whose pod has not seen a move, if there is any.
    pub(crate) fn unmoved(&self) -> Option<usize>
        ensures some { IfSome result (λ s. IsIn self.now.unschedulable.slots s ⊎ IsIn self.now.unmarked.slots s) }
        ensures none { IfNone result ((length self.now.unschedulable.slots ≡ 0) ×
            (length self.now.unmarked.slots ≡ 0)) }
    {
        let waiting = self.unschedulable.len();
        if waiting > 0 {
            return Some(self.unschedulable.at(waiting - 1));
        }
        let flying = self.unmarked.len();
        if flying > 0 {
            return Some(self.unmarked.at(flying - 1));
        }
        None
    }
}

/// The top of a heap, if its pod is released at this moment.
fn due_in(row: &Row, pods: &NameTable<Slot>, now: Moment) -> Option<usize>
    requires { AllThere pods.now row.now.slots }
    ensures some { IfSome result (λ s. stands_in (is_due now) pods.now s ≡ true) }
    ensures none { IfNone result (0 < length row.now.slots →
        stands_in (is_due now) pods.now (at row.now.slots 0) ≡ false) }
{
    if row.len() == 0 {
        return None;
    }
    let slot = row.at(0);
    if is_over(pods, slot, now) {
        Some(slot)
    } else {
        None
    }
}

/// Whether the pod in a slot is released at this moment.
fn is_over(pods: &NameTable<Slot>, slot: usize, now: Moment) -> bool
    requires { IsSome (entry_in pods.now slot) }
    ensures { result ≡ stands_in (is_due now) pods.now slot }
{
    pods.value_at(slot).is_due(now)
}
