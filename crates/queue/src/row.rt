//! Slots in a row, each at most once, that know their places.
ghost use Rattle.std.specs.Prelude.{◌≡◌, ℕ, ◌+◌, ◌<◌, ◌≤◌, [], IfOk, length, slice_index_or};
ghost use Rattle.quant.specs.declared.limits.TheConstants.{MAX_QUEUED};
ghost use Rattle.queue.specs.inside.Row.{at, IsIn, IsSwapped, IsPushed, IsInverse, IsWithout};

use std::alloc::{AllocError, Global};
use std::marker::Model;

/// Some of the slots 0 to the room, in an order of their own. To ask for a slot's place searches
/// none.
pub(crate) struct Row {
    // All slots: first those in the row, in its order, then all others.
    slots: Vec<u32>,
    // The place of each slot among them.
    places: Vec<u32>,
    // How many are in the row.
    len: usize,
}

impl Model for Row {
    ghost use Rattle.std.specs.Prelude.{take, vec_len};
    ghost use Rattle.queue.specs.inside.Row.{SlotRow, IsRow};

    ghost Value = { SlotRow };

    ghost view = { λ r. record { room = vec_len r.slots; slots = take r.len r.slots.items } };

    ghost invariant = { λ r. IsRow r.slots r.places r.len };
}

// By hand, so that who drops a row calls this, and its parts' drops are proved here alone.
impl Drop for Row {
    fn drop(self) {
        let Self {
            slots: _slots,
            places: _places,
            len: _,
        } = self;
    }
}

/// The numbers below n, in order.
fn in_order(alloc: Global, n: usize) -> Result<Vec<u32>, AllocError>
    requires { n ≤ MAX_QUEUED }
    ensures len { IfOk result (λ v. length v.items ≡ n) }
    ensures each { IfOk result (λ v. (k : ℕ) → k < n → at v.items k ≡ k) }
{
    let Ok(mut row) = Vec::with_capacity(alloc, n) else {
        return Err(AllocError);
    };
    for number in 0..n {
        let Ok(()) = row.push(number as u32) else {
            return Err(AllocError);
        };
    }
    Ok(row)
}

/// The slots at two places change places.
fn exchange(slots: &mut [u32], places: &mut [u32], i: usize, j: usize)
    requires inverse { IsInverse slots.old places.old }
    requires few { length slots.old ≤ MAX_QUEUED }
    requires first { i < length slots.old }
    requires second { j < length slots.old }
    ensures inverse { IsInverse slots.new places.new }
    ensures swapped { IsSwapped slots.old slots.new i j }
{
    let a = slots[i];
    let b = slots[j];
    slots[i] = b;
    slots[j] = a;
    places[a as usize] = j as u32;
    places[b as usize] = i as u32;
}

impl Row {
    /// A row of none of the slots that there is room for.
    pub(crate) fn new(alloc: Global, room: usize) -> Result<Row, AllocError>
        requires { room ≤ MAX_QUEUED }
        ensures { IfOk result (λ row. row ≡ record { room = room; slots = [] }) }
    {
        let Ok(slots) = in_order(alloc, room) else {
            return Err(AllocError);
        };
        let Ok(places) = in_order(alloc, room) else {
            return Err(AllocError);
        };
        Ok(Row {
            slots,
            places,
            len: 0,
        })
    }

    /// How many slots are in the row.
    pub(crate) fn len(&self) -> usize
        ensures len { result ≡ length self.now.slots }
        ensures few { result ≤ MAX_QUEUED }
    {
        self.len
    }

    /// The slot at a place.
    pub(crate) fn at(&self, place: usize) -> usize
        requires { place < length self.now.slots }
        ensures slot { result ≡ at self.now.slots place }
        ensures within { result < self.now.room }
    {
        self.slots[place] as usize
    }

    /// The place of a slot in the row.
    pub(crate) fn place_of(&self, slot: usize) -> usize
        requires { IsIn self.now.slots slot }
        ensures within { result < length self.now.slots }
        ensures is { at self.now.slots result ≡ slot }
    {
        self.places[slot] as usize
    }

    /// The slots at two places change places.
    pub(crate) fn swap(&mut self, i: usize, j: usize)
        requires first { i < length self.old.slots }
        requires second { j < length self.old.slots }
        ensures swapped { IsSwapped self.old.slots self.new.slots i j }
        ensures room { self.new.room ≡ self.old.room }
    {
        exchange(&mut self.slots, &mut self.places, i, j);
    }

    /// A slot comes to the row's end.
    pub(crate) fn push(&mut self, slot: usize)
        requires a_slot { slot < self.old.room }
        requires new { IsIn self.old.slots slot → ⊥ }
        ensures pushed { IsPushed self.old.slots self.new.slots slot }
        ensures room { self.new.room ≡ self.old.room }
    {
        let place = self.places[slot] as usize;
        exchange(&mut self.slots, &mut self.places, self.len, place);
        self.len += 1;
    }

    /// The last slot goes.
    pub(crate) fn pop(&mut self) -> usize
        requires { 0 < length self.old.slots }
        ensures popped { IsPushed self.new.slots self.old.slots result }
        ensures gone { IsIn self.new.slots result → ⊥ }
        ensures room { self.new.room ≡ self.old.room }
    {
        self.len -= 1;
        self.slots[self.len] as usize
    }

    /// A slot goes, wherever it stands. The last one takes its place.
    pub(crate) fn take(&mut self, slot: usize)
        requires { IsIn self.old.slots slot }
        ensures without { IsWithout self.old.slots self.new.slots slot }
        ensures room { self.new.room ≡ self.old.room }
    {
        let place = self.place_of(slot);
        let last = self.len() - 1;
        self.swap(place, last);
        self.pop();
    }
}
