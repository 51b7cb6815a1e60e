//! A table by name.
ghost use Rattle.std.specs.Prelude.{◌≡◌, ℕ, ◌<◌, ◌≤◌, List, None, Some, IsSome, IfSome, IfNone, IfOk, MatchOption, is_some, nat_le, length, replicate, slice_set, count_by};
ghost use Rattle.std.specs.Borrow.{sem};
ghost use Rattle.std.specs.Option.{option_copied};
ghost use Rattle.std.specs.FinMap as fin;
ghost use Rattle.name_table.specs.Slots.{entry_in, name_in, value_in, slot_of, map_of, NamesOnce, put_in, with_free};
ghost use Rattle.name_table.specs.Lends.{lends_slot};
ghost use Rattle.name_table.specs.inside.Woven.{Ends, chain, times};
ghost use Rattle.name_table.specs.inside.Buckets.{bucket_of};

use crate::chains::Chains;
use crate::entries::Entries;
use crate::entry::Entry;
use crate::links::Links;
use quant::Name;
use std::alloc::{AllocError, Global};
use std::hash::{BuildHasher, Hasher, RandomState};
use std::marker::Model;
use std::mem;

/// Values by name, as many as there was room for when the table was made. Each entry stays in its
/// slot until it is removed.
///
/// A call goes along the names of one bucket. There are at least as many buckets as slots, and the
/// hash has keys of its own (SipHash, by `RandomState`), so that nobody who doesn't know them can
/// choose names that share one.
pub struct NameTable<V> {
    keys: RandomState,
    // The number of buckets, a power of two, less 1.
    mask: u64,
    chains: Chains,
    entries: Entries<V>,
    len: usize,
}

impl<V> Model for NameTable<V> {
    ghost use Rattle.std.specs.Prelude.{List, ℕ, Option};
    ghost use Rattle.name_table.specs.declared.entry.Entry.{Entry};

    ghost Value = { List (Option (Entry V)) };

    ghost use Rattle.name_table.specs.inside.Buckets.{IsFiled};

    ghost view = { λ t. t.entries };

    ghost invariant = { λ t. IsFiled t.keys t.mask t.chains t.entries t.len };
}

impl<V: Drop> NameTable<V> {
    /// An empty table with this many slots.
    ///
    /// Errors: `AllocError` where there is no memory.
    pub fn new(alloc: Global, keys: RandomState, room: usize) -> Result<Self, AllocError>
        requires { room ≤ 1000000 }
        ensures { IfOk result (λ t. t ≡ replicate room None) }
    {
        let buckets = room.next_power_of_two();
        let Ok(chains) = Chains::new(alloc, buckets, room) else {
            return Err(AllocError);
        };
        let Ok(entries) = Entries::new(alloc, room) else {
            return Err(AllocError);
        };
        Ok(NameTable {
            keys,
            mask: (buckets - 1) as u64,
            chains,
            entries,
            len: 0,
        })
    }

    /// How many slots there are.
    pub fn room(&self) -> usize
        ensures { result ≡ length self.now }
    {
        self.entries.room()
    }

    /// How many names there are.
    pub fn len(&self) -> usize
        ensures len { result ≡ fin.len (map_of self.now) }
        ensures few { fin.len (map_of self.now) ≤ length self.now }
        ensures filled { result ≡ count_by is_some self.now }
        ensures once { NamesOnce self.now }
    {
        self.len
    }

    /// Whether each slot has a name.
    pub fn is_full(&self) -> bool
        ensures full { result ≡ nat_le (length self.now) (fin.len (map_of self.now)) }
        ensures few { fin.len (map_of self.now) ≤ length self.now }
    {
        self.len >= self.entries.room()
    }

    /// The slots up to the last that ever had a name. Those after it are free.
    pub fn slots(&self) -> &[Option<Entry<V>>]
        ensures { with_free result.now (length self.now) ≡ self.now }
    {
        self.entries.written()
    }

    /// The slot of a name.
    pub fn find(&self, name: &Name) -> Option<usize>
        ensures slot { result ≡ slot_of self.now name.now }
        ensures there { is_some result ≡ fin.contains_key (map_of self.now) name.now }
        ensures value { MatchOption result (fin.get (map_of self.now) name.now ≡ None)
            (λ i. fin.get (map_of self.now) name.now ≡ value_in self.now i) }
        ensures name { IfSome result (λ i. name_in self.now i ≡ Some name.now) }
        ensures filled { IfSome result (λ i. IsSome (entry_in self.now i)) }
        ensures once { NamesOnce self.now }
    {
        let bucket = bucket(&self.keys, self.mask, name);
        find_from(
            &self.chains.links,
            &self.entries,
            self.chains.heads.get(bucket) as usize,
            name,
        )
    }

    /// What a slot has.
    pub fn entry_at(&self, slot: usize) -> &Entry<V>
        requires { IsSome (entry_in self.now slot) }
        ensures entry { entry_in self.now slot ≡ Some result.now }
        ensures once { NamesOnce self.now }
    {
        match self.entries.get(slot) {
            Some(entry) => entry,
            None => unreachable!(),
        }
    }

    /// The name in a slot.
    pub fn name_at(&self, slot: usize) -> &Name
        requires { IsSome (entry_in self.now slot) }
        ensures { name_in self.now slot ≡ Some result.now }
    {
        &self.entry_at(slot).name
    }

    /// The value in a slot.
    pub fn value_at(&self, slot: usize) -> &V
        requires { IsSome (entry_in self.now slot) }
        ensures value { value_in self.now slot ≡ Some result.now }
        ensures by_name { (name : List ℕ) → name_in self.now slot ≡ Some name →
            fin.get (map_of self.now) name ≡ Some result.now }
    {
        &self.entry_at(slot).value
    }

    /// The value of a name.
    pub fn get(&self, name: &Name) -> Option<&V>
        ensures { option_copied result ≡ fin.get (map_of self.now) name.now }
    {
        match self.find(name) {
            Some(slot) => Some(self.value_at(slot)),
            None => None,
        }
    }

    /// Puts a new name and its value into a free slot, which it answers.
    pub fn insert(&mut self, name: Name, value: V) -> usize
        requires new { fin.get (map_of self.old) name ≡ None }
        requires room { fin.len (map_of self.old) < length self.old }
        ensures free { entry_in self.old result ≡ None }
        ensures a_slot { result < length self.old }
        ensures slots { self.new ≡ slice_set self.old result (Some (record { name = name; value = value })) }
        ensures map { map_of self.new ≡ fin.insert (map_of self.old) name value }
        ensures room { length self.new ≡ length self.old }
        ensures once { NamesOnce self.new }
    {
        let bucket = bucket(&self.keys, self.mask, &name);
        let slot = self.chains.heads.get(self.mask as usize + 1) as usize;
        self.chains.transfer(slot, bucket);
        self.entries.put(slot, Entry { name, value });
        self.len += 1;
        slot
    }

    /// Takes the entry out of a slot, which is free then.
    pub fn remove_at(&mut self, slot: usize) -> Entry<V>
        requires { IsSome (entry_in self.old slot) }
        ensures entry { entry_in self.old slot ≡ Some result }
        ensures slots { self.new ≡ slice_set self.old slot None }
        ensures map { map_of self.new ≡ fin.remove (map_of self.old) result.name }
        ensures room { length self.new ≡ length self.old }
        ensures once { NamesOnce self.new }
    {
        self.chains.transfer(slot, self.mask as usize + 1);
        self.len -= 1;
        self.entries.take(slot)
    }

    /// Takes out the entry of a name, if there is one, and answers its value.
    pub fn remove(&mut self, name: &Name) -> Option<V>
        ensures value { result ≡ fin.get (map_of self.old) name.now }
        ensures slots { MatchOption (slot_of self.old name.now) (self.new ≡ self.old) (λ i. self.new
            ≡ slice_set self.old i None) }
        ensures map { map_of self.new ≡ fin.remove (map_of self.old) name.now }
        ensures room { length self.new ≡ length self.old }
        ensures once { NamesOnce self.new }
    {
        match self.find(name) {
            Some(slot) => Some(self.remove_at(slot).value),
            None => None,
        }
    }

    /// The value in a slot, to write.
    pub fn value_at_mut(&mut self, slot: usize) -> &mut V
        requires { IsSome (entry_in self.old slot) }
        ensures* writes_back { sem 𝓛 (lends_slot V.row self.entry slot result) }
        ensures value { value_in self.old slot ≡ Some result.now }
        ensures once { NamesOnce self.old }
    {
        self.entries.value_mut(slot)
    }

    /// Gives a slot's name another value, and answers the one before.
    pub fn replace_at(&mut self, slot: usize, value: V) -> V
        requires { IsSome (entry_in self.old slot) }
        ensures before { value_in self.old slot ≡ Some result }
        ensures slots { self.new ≡ put_in self.old slot value }
        ensures map { (name : List ℕ) → name_in self.old slot ≡ Some name →
            map_of self.new ≡ fin.insert (map_of self.old) name value }
        ensures room { length self.new ≡ length self.old }
    {
        mem::replace(self.value_at_mut(slot), value)
    }
}

// By hand, so that who drops a table calls this, and its parts' drops are proved here alone.
impl<V: Drop> Drop for NameTable<V> {
    fn drop(self) {
        let Self {
            keys: _,
            mask: _,
            chains: _chains,
            entries: _entries,
            len: _,
        } = self;
    }
}

// The bucket of a name.
#[inline]
fn bucket(keys: &RandomState, mask: u64, name: &Name) -> usize
    ensures bucket { result ≡ bucket_of keys.now mask name.now }
    ensures within { result ≤ mask }
{
    let mut hasher = keys.build_hasher();
    hasher.write(name.as_bytes());
    (hasher.finish() & mask) as usize
}

// The slot of a name in the chain that begins with a slot.
fn find_from<V: Drop>(
    links: &Links,
    entries: &Entries<V>,
    first: usize,
    name: &Name,
) -> Option<usize>
    requires ends { Ends links.now.nexts first }
    ensures found { IfSome result (λ i. name_in entries.now i ≡ Some name.now) }
    ensures none { IfNone result ((i : ℕ) → name_in entries.now i ≡ Some name.now →
        times i (chain links.now.nexts first) ≡ 0) }
{
    let mut at = first;
    while at < links.room() {
        if entries.holds(at, name) {
            return Some(at);
        }
        at = links.next(at) as usize;
    }
    None
}
