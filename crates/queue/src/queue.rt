//! The queue: its entries, each under its pod's uid, and the calls that change them.
ghost use Rattle.std.specs.Prelude.{◌≡◌, ◌≤◌, IfOk, option_map, option_copied};
ghost use Rattle.std.specs.Result.{result_err};
ghost use Rattle.queue.specs.Queue.{no_entries, entry_of, has_entry, is_full_queue, IsQueue, holds_in_flight, next_of, counts_of, refusal_to_add, refusal_to_fail, refusal_to_forget, after_add, after_pop, after_fail, after_forget, after_tick, after_move, after_remove};

use crate::counts::Counts;
use crate::index::Index;
use crate::refusal::Refusal;
use crate::slots::{change, count_each, move_each, tick_each};
use name_table::NameTable;
use quant::{LATEST_MOMENT, MAX_QUEUED, Moment, Name, SharedPod};
use queued::{Change, Failure, PassNumber, Slot, State};
use std::alloc::{AllocError, Global};
use std::hash::RandomState;
use std::marker::Model;

/// The scheduling queue: entries under their pods' uids, at most as many as it was made for.
/// Contracts see it as a plain set of entries, however it keeps them.
pub struct Queue {
    pods: NameTable<Slot>,
    index: Index,
    // The comparisons of entries that the last call made.
    compared: u32,
}

impl Model for Queue {
    ghost use Rattle.std.specs.Prelude.{ℕ, refl};
    ghost use Rattle.std.specs.Coded.{code_by, coded×, coded_ℕ, coded_list};
    ghost use Rattle.std.specs.FinMap as table;
    ghost use Rattle.queued.specs.contracts.slot.Slot as slot;
    ghost use Rattle.queue.specs.Queue.{QueueState, Entries};
    ghost use Rattle.queue.specs.inside.Slots.{state_of, IsKept};

    ghost Value = { QueueState };

    ghost coded = { code_by (ℕ × Entries) (coded× coded_ℕ (table.code (coded_list coded_ℕ) slot.the_row.coded))
        (λ q. (q.limit, q.entries)) (λ p. record { limit = p.0; entries = p.1 }) (λ _. refl) };

    ghost view = { λ q. state_of q.pods };

    ghost invariant = { λ q. IsKept q.pods q.index q.compared };
}

impl Queue {
    /// A queue with no entry, and with room for `limit` of them. The keys are those of the hash by
    /// which uids are found. The only call that may find no memory.
    pub fn new(alloc: Global, keys: RandomState, limit: usize) -> Result<Queue, AllocError>
        requires { limit ≤ MAX_QUEUED }
        ensures { IfOk result (λ queue. queue ≡ no_entries limit) }
    {
        let Ok(pods) = NameTable::new(alloc, keys, limit) else {
            return Err(AllocError);
        };
        let Ok(index) = Index::new(alloc, limit) else {
            return Err(AllocError);
        };
        Ok(Queue {
            pods,
            index,
            compared: 0,
        })
    }

    /// Whether there is an entry of this uid.
    pub fn has(&self, uid: &Name) -> bool
        ensures answer { result ≡ has_entry self.now uid.now }
        ensures shape { IsQueue self.now }
    {
        self.pods.find(uid).is_some()
    }

    /// Whether there are as many entries as there may be, those in flight among them.
    pub fn is_full(&self) -> bool
        ensures answer { result ≡ is_full_queue self.now }
        ensures shape { IsQueue self.now }
    {
        self.pods.is_full()
    }

    /// The pod of this uid, if there is an entry of it.
    pub fn pod_of(&self, uid: &Name) -> Option<&SharedPod>
        ensures { option_copied result ≡ option_map (λ entry. entry.pod) (entry_of self.now uid.now) }
    {
        match self.pods.get(uid) {
            Some(slot) => Some(slot.pod()),
            None => None,
        }
    }

    /// Whether this pass has popped the pod of this uid and not given it back. `fail` by this pass
    /// is accepted exactly then.
    pub fn is_in_flight(&self, uid: &Name, pass: PassNumber) -> bool
        ensures { result ≡ holds_in_flight self.now pass uid.now }
    {
        match self.pods.get(uid) {
            Some(slot) => slot.is_in_flight_for(pass),
            None => false,
        }
    }

    /// How many entries stand where.
    pub fn counts(&self) -> Counts
        ensures answer { result ≡ counts_of self.now }
        ensures shape { IsQueue self.now }
    {
        count_each(self.pods.slots())
    }

    /// How many comparisons of entries the last call of `add`, `pop`, `fail`, `forget_back` or
    /// `remove` made: none of a new queue, and never more than 28.
    pub fn compared(&self) -> u32
        ensures { result ≤ 28 }
    {
        self.compared
    }

    /// The pod that `pop` pops next, if any is active. A pop hands out no pod, since another owner
    /// of it may not be had: take one from here first.
    pub fn peek(&self) -> Option<&SharedPod>
        ensures { option_copied result ≡ option_map (λ item. item.1.pod) (next_of self.now) }
    {
        match self.index.first() {
            Some(slot) => Some(self.pods.value_at(slot).pod()),
            None => None,
        }
    }

    /// A pod comes. It is active, and came now. `Known` is told before `Full`.
    pub fn add(&mut self, pod: SharedPod, now: Moment) -> Result<(), Refusal>
        ensures answer { result_err result ≡ refusal_to_add self.old pod.uid }
        ensures after { self.new ≡ after_add self.old pod now }
    {
        self.compared = 0;
        if self.pods.find(&pod.uid).is_some() {
            return Err(Refusal::Known);
        }
        if self.pods.is_full() {
            return Err(Refusal::Full);
        }
        let uid = pod.uid.copied();
        let slot = self.pods.insert(uid, Slot::new(pod, now));
        self.index
            .enter(&self.pods, slot, State::Active, &mut self.compared);
        Ok(())
    }

    /// A pass pops the active pod that goes first, if any is active, and is told its uid.
    /// `peek` lends the pod beforehand.
    pub fn pop(&mut self, pass: PassNumber) -> Option<Name>
        ensures answer { result ≡ option_map (λ item. item.0) (next_of self.old) }
        ensures after { self.new ≡ after_pop self.old pass }
    {
        self.compared = 0;
        let Some(slot) = self.index.first() else {
            return None;
        };
        let uid = self.pods.name_at(slot).copied();
        self.compared = change(&mut self.pods, &mut self.index, slot, Change::Pop(pass));
        Some(uid)
    }

    /// A pass gives a pod back that it popped, since its attempt failed now. It is `NotInFlight`
    /// where there is no such entry, where the pod is not in flight, and where another pass popped
    /// it.
    pub fn fail(
        &mut self,
        uid: &Name,
        pass: PassNumber,
        how: Failure,
        now: Moment,
    ) -> Result<(), Refusal>
        requires { now.0 ≤ LATEST_MOMENT }
        ensures answer { result_err result ≡ refusal_to_fail self.old uid.now pass }
        ensures after { self.new ≡ after_fail self.old uid.now pass how now }
    {
        self.compared = 0;
        match self.pods.find(uid) {
            Some(slot) if self.pods.value_at(slot).is_in_flight_for(pass) => {
                let fail = Change::Fail(how, now);
                self.compared = change(&mut self.pods, &mut self.index, slot, fail);
                Ok(())
            }
            _ => Err(Refusal::NotInFlight),
        }
    }

    /// A pod in flight comes back to back off from now on, whichever pass popped it. Any other, and
    /// one that is not there, is `NotInFlight`.
    pub fn forget_back(&mut self, uid: &Name, now: Moment) -> Result<(), Refusal>
        requires { now.0 ≤ LATEST_MOMENT }
        ensures answer { result_err result ≡ refusal_to_forget self.old uid.now }
        ensures after { self.new ≡ after_forget self.old uid.now now }
    {
        self.compared = 0;
        match self.pods.find(uid) {
            Some(slot) if self.pods.value_at(slot).is_in_flight() => {
                let back = Change::SendBack(now);
                self.compared = change(&mut self.pods, &mut self.index, slot, back);
                Ok(())
            }
            _ => Err(Refusal::NotInFlight),
        }
    }

    /// Time goes on to this moment: what has backed off, and what was unschedulable for 300,000 ms,
    /// is active again.
    pub fn tick(&mut self, now: Moment)
        ensures { self.new ≡ after_tick self.old now }
    {
        tick_each(&mut self.pods, &mut self.index, now);
    }

    /// Something moved that may let unschedulable pods in: each is active if it has backed off
    /// since its failure, and else backs off until then. Pods in flight keep in mind that there was
    /// a move.
    pub fn move_all(&mut self, now: Moment)
        ensures { self.new ≡ after_move self.old now }
    {
        move_each(&mut self.pods, &mut self.index, now);
    }

    /// The pod of this uid goes, if there is an entry of it, and is handed out.
    pub fn remove(&mut self, uid: &Name) -> Option<SharedPod>
        ensures answer { result ≡ option_map (λ entry. entry.pod) (entry_of self.old uid.now) }
        ensures after { self.new ≡ after_remove self.old uid.now }
    {
        self.compared = 0;
        let Some(slot) = self.pods.find(uid) else {
            return None;
        };
        let state = self.pods.value_at(slot).state();
        self.index
            .leave(&self.pods, slot, state, &mut self.compared);
        Some(self.pods.remove_at(slot).value.into_pod())
    }
}

// By hand, so that who drops a queue calls this, and its parts' drops are proved here alone.
impl Drop for Queue {
    fn drop(self) {
        let Self {
            pods: _pods,
            index: _index,
            compared: _,
        } = self;
    }
}
