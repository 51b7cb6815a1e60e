//! Slots for entries, of which those that were never filled take no memory.
ghost use Rattle.std.specs.Prelude.{◌≡◌, ◌<◌, List, ℕ, None, Some, IsSome, IfOk, length, replicate, slice_set};
ghost use Rattle.std.specs.Borrow.{sem};
ghost use Rattle.std.specs.Option.{option_copied, option_map};
ghost use Rattle.name_table.specs.Slots.{entry_in, value_in, has_name, with_free};
ghost use Rattle.name_table.specs.inside.Lends.{lends_value, lends_entry};

use crate::entry::Entry;
use quant::Name;
use std::alloc::{AllocError, Global};
use std::marker::Model;

/// Slots, each free or with an entry. All room is reserved by `Entries::new`, but the system gives
/// memory as it is written first: with few entries little is touched, however many there is room
/// for.
#[derive(Drop)]
pub(crate) struct Entries<V> {
    // The slots up to the last that was ever filled. Those after it are free.
    written: Vec<Option<Entry<V>>>,
    room: usize,
}

impl<V> Model for Entries<V> {
    ghost use Rattle.std.specs.Prelude.{List, Option, ◌≤◌, vec_len, vec_capacity};
    ghost use Rattle.name_table.specs.declared.entry.Entry.{Entry};

    ghost Value = { List (Option (Entry V)) };

    ghost use Rattle.name_table.specs.Slots.{with_free};

    ghost view = { λ e. with_free e.written.items e.room };

    ghost invariant = { λ e. (vec_len e.written ≤ e.room) × (e.room ≤ vec_capacity e.written) };
}

impl<V: Drop> Entries<V> {
    /// So many free slots.
    pub(crate) fn new(alloc: Global, room: usize) -> Result<Self, AllocError>
        ensures { IfOk result (λ e. e ≡ replicate room None) }
    {
        let Ok(written) = Vec::with_capacity(alloc, room) else {
            return Err(AllocError);
        };
        Ok(Entries { written, room })
    }

    /// How many slots there are.
    pub(crate) fn room(&self) -> usize
        ensures { result ≡ length self.now }
    {
        self.room
    }

    /// The slots up to the last that was ever filled.
    pub(crate) fn written(&self) -> &[Option<Entry<V>>]
        ensures { with_free result.now (length self.now) ≡ self.now }
    {
        &self.written
    }

    /// The entry in a slot.
    pub(crate) fn get(&self, slot: usize) -> Option<&Entry<V>>
        ensures { option_copied result ≡ entry_in self.now slot }
    {
        match self.written.get(slot) {
            Some(entry) => entry.as_ref(),
            None => None,
        }
    }

    /// Whether a slot has this name.
    pub(crate) fn holds(&self, slot: usize, name: &Name) -> bool
        ensures { result ≡ has_name name.now (entry_in self.now slot) }
    {
        match self.get(slot) {
            Some(entry) => name == &entry.name,
            None => false,
        }
    }

    /// Fills a slot.
    pub(crate) fn put(&mut self, slot: usize, entry: Entry<V>)
        requires { slot < length self.old }
        ensures { self.new ≡ slice_set self.old slot (Some entry) }
    {
        // Free slots are filled in their order, so that this is one at most.
        while self.written.len() <= slot {
            self.written.push(None).unwrap();
        }
        self.written[slot] = Some(entry);
    }

    /// Takes the entry out of a slot.
    pub(crate) fn take(&mut self, slot: usize) -> Entry<V>
        requires { IsSome (entry_in self.old slot) }
        ensures entry { entry_in self.old slot ≡ Some result }
        ensures slots { self.new ≡ slice_set self.old slot None }
    {
        self.written[slot].take().unwrap()
    }

    /// The value in a slot, to write.
    pub(crate) fn value_mut(&mut self, slot: usize) -> &mut V
        requires { IsSome (entry_in self.old slot) }
        ensures* writes_back { sem 𝓛 (lends_entry V.row self.entry slot result) }
        ensures value { value_in self.old slot ≡ Some result.now }
    {
        value_of(&mut self.written[slot])
    }
}

// The value in a slot that has one, to write.
fn value_of<V>(slot: &mut Option<Entry<V>>) -> &mut V
    requires { IsSome slot.old }
    ensures* lends { sem 𝓛 (lends_value V.row slot.entry result) }
    ensures value { option_map (λ e. e.value) slot.old ≡ Some result.now }
{
    match slot {
        Some(entry) => &mut entry.value,
        None => unreachable!(),
    }
}
