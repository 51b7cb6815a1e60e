//! Heaps of slots: no parent comes after its child, in the order in which their entries go.
ghost use Rattle.std.specs.Prelude.{◌≡◌, ◌≢◌, ℕ, ◌+◌, ◌-◌, ◌*◌, ◌^◌, ◌<◌, ◌≤◌, IsSome, length};
ghost use Rattle.quant.specs.declared.limits.TheConstants.{MAX_QUEUED};
ghost use Rattle.name_table.specs.Slots.{entry_in};
ghost use Rattle.queue.specs.inside.Row.{at, IsIn, HasSame, IsWithout, IsWith};
ghost use Rattle.queue.specs.inside.Heap.{wait_cmp, goes_before, AllThere, IsHeap, GoesFirst, IsHeapBut};

use crate::row::Row;
use name_table::{Entry, NameTable};
use queued::Slot;
use std::cmp::Ordering;

/// How two entries go: by the moment that they wait for, then as they are popped.
fn order_of(x: &Entry<Slot>, y: &Entry<Slot>) -> Ordering
    ensures { result ≡ wait_cmp (x.now.name, x.now.value) (y.now.name, y.now.value) }
{
    let by_moment = x.value.moment().0.cmp(&y.value.moment().0);
    if by_moment.is_ne() {
        return by_moment;
    }
    let by_priority = y.value.priority().cmp(&x.value.priority());
    if by_priority.is_ne() {
        return by_priority;
    }
    let by_arrival = x.value.arrival().0.cmp(&y.value.arrival().0);
    if by_arrival.is_ne() {
        return by_arrival;
    }
    x.name.cmp(&y.name)
}

/// Whether what the first slot has goes before what the second has. It counts as one comparison.
fn before(pods: &NameTable<Slot>, a: usize, b: usize, count: &mut u32) -> bool
    requires first { IsSome (entry_in pods.now a) }
    requires second { IsSome (entry_in pods.now b) }
    requires few { count.old < 100 }
    ensures answer { result ≡ goes_before pods.now a b }
    ensures counted { count.new ≡ count.old + 1 }
{
    *count += 1;
    order_of(pods.entry_at(a), pods.entry_at(b)).is_lt()
}

/// The child of a place that goes first.
fn first_child(row: &Row, pods: &NameTable<Slot>, place: usize, count: &mut u32) -> usize
    requires there { AllThere pods.now row.now.slots }
    requires parent { place * 2 + 1 < length row.now.slots }
    requires few { count.old < 100 }
    ensures within { result < length row.now.slots }
    ensures low { place * 2 + 1 ≤ result }
    ensures high { result ≤ place * 2 + 2 }
    ensures first { GoesFirst pods.now row.now.slots place result }
    ensures more { count.old ≤ count.new }
    ensures counted { count.new ≤ count.old + 1 }
{
    let len = row.len();
    let left = place * 2 + 1;
    let right = left + 1;
    if len <= right {
        return left;
    }
    if before(pods, row.at(right), row.at(left), count) {
        right
    } else {
        left
    }
}

/// The slot at a place goes up until its parent goes before it.
pub(crate) fn rise(row: &mut Row, pods: &NameTable<Slot>, from: usize, count: &mut u32)
    requires inside { from < length row.old.slots }
    requires short { length row.old.slots ≤ MAX_QUEUED }
    requires there { AllThere pods.now row.old.slots }
    requires hole { IsHeapBut pods.now row.old.slots from }
    requires first { GoesFirst pods.now row.old.slots from from }
    requires few { count.old ≤ 50 }
    ensures heap { IsHeap pods.now row.new.slots }
    ensures same { HasSame row.old.slots row.new.slots }
    ensures room { row.new.room ≡ row.old.room }
    ensures more { count.old ≤ count.new }
    ensures counted { 2 ^ (count.new - count.old) ≤ from + 1 }
{
    let mut place = from;
    while place > 0 {
        let parent = (place - 1) / 2;
        if !before(pods, row.at(place), row.at(parent), count) {
            return;
        }
        row.swap(parent, place);
        place = parent;
    }
}

/// The place of a slot goes down to where it has no children. At each step the child that goes
/// first takes its place.
fn fall(row: &mut Row, pods: &NameTable<Slot>, from: usize, count: &mut u32) -> usize
    requires inside { from < length row.old.slots }
    requires short { length row.old.slots ≤ MAX_QUEUED }
    requires there { AllThere pods.now row.old.slots }
    requires hole { IsHeapBut pods.now row.old.slots from }
    requires few { count.old ≤ 30 }
    ensures inside { result < length row.new.slots }
    ensures last { length row.new.slots ≤ result * 2 + 1 }
    ensures hole { IsHeapBut pods.now row.new.slots result }
    ensures same { HasSame row.old.slots row.new.slots }
    ensures room { row.new.room ≡ row.old.room }
    ensures more { count.old ≤ count.new }
    ensures counted { 2 ^ (count.new - count.old) * (from + 1) ≤ result + 1 }
{
    let mut place = from;
    while place * 2 + 1 < row.len() {
        let child = first_child(row, pods, place, count);
        row.swap(place, child);
        place = child;
    }
    place
}

/// A slot comes.
pub(crate) fn insert(row: &mut Row, pods: &NameTable<Slot>, slot: usize, count: &mut u32)
    requires a_slot { slot < row.old.room }
    requires new { IsIn row.old.slots slot → ⊥ }
    requires filled { IsSome (entry_in pods.now slot) }
    requires there { AllThere pods.now row.old.slots }
    requires heap { IsHeap pods.now row.old.slots }
    requires few { count.old ≤ 30 }
    ensures heap { IsHeap pods.now row.new.slots }
    ensures with { IsWith row.old.slots row.new.slots slot }
    ensures room { row.new.room ≡ row.old.room }
    ensures more { count.old ≤ count.new }
    ensures counted { count.new ≤ count.old + 13 }
{
    row.push(slot);
    let len = row.len();
    rise(row, pods, len - 1, count);
}

/// A slot goes, wherever it stands.
pub(crate) fn remove(row: &mut Row, pods: &NameTable<Slot>, slot: usize, count: &mut u32)
    requires here { IsIn row.old.slots slot }
    requires there { AllThere pods.now row.old.slots }
    requires heap { IsHeap pods.now row.old.slots }
    requires few { count.old ≤ 30 }
    ensures heap { IsHeap pods.now row.new.slots }
    ensures without { IsWithout row.old.slots row.new.slots slot }
    ensures room { row.new.room ≡ row.old.room }
    ensures more { count.old ≤ count.new }
    ensures counted { count.new ≤ count.old + 26 }
{
    let place = row.place_of(slot);
    let last = row.len() - 1;
    row.swap(place, last);
    row.pop();
    if place < last {
        let leaf = fall(row, pods, place, count);
        rise(row, pods, leaf, count);
    }
}
