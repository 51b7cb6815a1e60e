//! The pods in their slots: changes of one and of all, and how many stand where.
ghost use Rattle.std.specs.Prelude.{◌≡◌, ◌≤◌, true, length, IsSome};
ghost use Rattle.quant.specs.declared.limits.TheConstants.{MAX_QUEUED};
ghost use Rattle.name_table.specs.Slots.{entry_in, map_of, NamesOnce};
ghost use Rattle.queued.specs.Entry.{is_in_flight, ticked, moved_on};
ghost use Rattle.queue.specs.Queue.{each_changed};
ghost use Rattle.queue.specs.inside.Index.{stands_in, IsIndex, changed_in};
ghost use Rattle.queued.specs.Change.{applied, IsTimelyChange};
ghost use Rattle.queue.specs.inside.Slots.{OwnUids, counts_so_far};

use crate::counts::Counts;
use crate::index::Index;
use name_table::{Entry, NameTable};
use quant::Moment;
use queued::{Change, Slot};

/// The pod in a slot changes, and with it where the slot stands. It answers how many entries were
/// compared.
pub(crate) fn change(
    pods: &mut NameTable<Slot>,
    index: &mut Index,
    slot: usize,
    change: Change,
) -> u32
    requires index { IsIndex pods.old index.old }
    requires there { IsSome (entry_in pods.old slot) }
    requires timely { IsTimelyChange change }
    ensures index { IsIndex pods.new index.new }
    ensures after { pods.new ≡ changed_in pods.old slot (applied change) }
    ensures from_flight { stands_in is_in_flight pods.old slot ≡ true → result ≤ 26 }
    ensures to_flight { stands_in is_in_flight pods.new slot ≡ true → result ≤ 26 }
{
    let mut count = 0;
    let before = pods.value_at(slot).state();
    index.leave(pods, slot, before, &mut count);
    let value = pods.value_at_mut(slot);
    value.apply(change);
    let after = pods.value_at(slot).state();
    index.enter(pods, slot, after, &mut count);
    count
}

/// How many pods stand where.
pub(crate) fn count_each(slots: &[Option<Entry<Slot>>]) -> Counts
    requires { length slots.now ≤ MAX_QUEUED }
    ensures { result ≡ counts_so_far slots.now }
{
    let mut counts = Counts::default();
    for slot in slots {
        if let Some(entry) = slot {
            counts.add(entry.value.state());
        }
    }
    counts
}

/// Time goes on to this moment.
pub(crate) fn tick_each(pods: &mut NameTable<Slot>, index: &mut Index, now: Moment)
    requires index { IsIndex pods.old index.old }
    requires once { NamesOnce pods.old }
    requires own { OwnUids pods.old }
    ensures index { IsIndex pods.new index.new }
    ensures once { NamesOnce pods.new }
    ensures own { OwnUids pods.new }
    ensures room { length pods.new ≡ length pods.old }
    ensures after { map_of pods.new ≡ each_changed (ticked now) (map_of pods.old) }
{
    while let Some(slot) = index.due(pods, now) {
        change(pods, index, slot, Change::Tick(now));
    }
}

/// Something moved that may let unschedulable pods in.
pub(crate) fn move_each(pods: &mut NameTable<Slot>, index: &mut Index, now: Moment)
    requires index { IsIndex pods.old index.old }
    requires once { NamesOnce pods.old }
    requires own { OwnUids pods.old }
    ensures index { IsIndex pods.new index.new }
    ensures once { NamesOnce pods.new }
    ensures own { OwnUids pods.new }
    ensures room { length pods.new ≡ length pods.old }
    ensures after { map_of pods.new ≡ each_changed (moved_on now) (map_of pods.old) }
{
    while let Some(slot) = index.unmoved() {
        change(pods, index, slot, Change::Move(now));
    }
}
