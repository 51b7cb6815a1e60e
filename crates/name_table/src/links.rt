//! How slots hang in chains, of which those that never moved take no memory.
ghost use Rattle.std.specs.Prelude.{◌≡◌, ℕ, ◌+◌, ◌<◌, ◌≤◌, IfOk, length, replicate, slice_set, slice_index_or, vec_len, vec_capacity};
ghost use Rattle.std.specs.List.{range_with_len};
ghost use Rattle.name_table.specs.inside.Written.{link_at};

use std::alloc::{AllocError, Global};
use std::marker::Model;

/// How a slot hangs in a chain.
#[derive(Clone, Copy)]
pub(crate) struct Link {
    /// The slot after it. A number past the last slot is the chain's end.
    pub(crate) next: u32,
    /// Its chain.
    pub(crate) home: u32,
}

/// The links of slots, which are in one chain at first, in their order. All room is reserved by
/// `Links::new`, but the system gives memory as it is written first: where few slots ever moved
/// little is touched, however many there are.
#[derive(Drop)]
pub(crate) struct Links {
    // The links up to that of the last slot that ever moved.
    written: Vec<Link>,
    room: usize,
    // The chain of the others.
    free: u32,
}

impl Model for Links {
    ghost use Rattle.name_table.specs.inside.Written.{Hung};

    ghost Value = { Hung };

    ghost use Rattle.std.specs.Prelude.{◌≤◌, vec_capacity};
    ghost use Rattle.name_table.specs.inside.Written.{hung};

    ghost view = { λ s. hung s.written.items s.room s.free };

    ghost invariant = { λ s. (s.room ≤ 1000000) × (s.room ≤ vec_capacity s.written) };
}

impl Links {
    /// So many slots in one chain.
    pub(crate) fn new(alloc: Global, room: usize, free: u32) -> Result<Self, AllocError>
        requires { room ≤ 1000000 }
        ensures { IfOk result (λ s. s ≡ record { nexts = range_with_len 1 room; homes = replicate room free }) }
    {
        let Ok(written) = Vec::with_capacity(alloc, room) else {
            return Err(AllocError);
        };
        Ok(Links {
            written,
            room,
            free,
        })
    }

    /// How many slots there are.
    pub(crate) fn room(&self) -> usize
        ensures { result ≡ length self.now.nexts }
    {
        self.room
    }

    /// The slot after a slot.
    #[inline]
    pub(crate) fn next(&self, slot: usize) -> u32
        requires { slot < length self.now.nexts }
        ensures { result ≡ slice_index_or self.now.nexts slot 0 }
    {
        match self.written.get(slot) {
            Some(link) => link.next,
            None => slot as u32 + 1,
        }
    }

    /// The chain of a slot.
    #[inline]
    pub(crate) fn home(&self, slot: usize) -> u32
        requires { slot < length self.now.homes }
        ensures { result ≡ slice_index_or self.now.homes slot 0 }
    {
        match self.written.get(slot) {
            Some(link) => link.home,
            None => self.free,
        }
    }

    /// Gives a slot a whole link.
    #[inline]
    pub(crate) fn set(&mut self, slot: usize, next: u32, home: u32)
        requires { slot < length self.old.nexts }
        ensures { self.new ≡ record {
          nexts = slice_set self.old.nexts slot next;
          homes = slice_set self.old.homes slot home;
        } }
    {
        write_up_to(&mut self.written, slot, self.free);
        self.written[slot] = Link { next, home };
    }

    /// Puts another slot after a slot.
    #[inline]
    pub(crate) fn set_next(&mut self, slot: usize, next: u32)
        requires { slot < length self.old.nexts }
        ensures { self.new ≡ record self.old { nexts = slice_set self.old.nexts slot next } }
    {
        write_up_to(&mut self.written, slot, self.free);
        self.written[slot].next = next;
    }

    /// Gives a slot another chain.
    #[inline]
    pub(crate) fn set_home(&mut self, slot: usize, home: u32)
        requires { slot < length self.old.homes }
        ensures { self.new ≡ record self.old { homes = slice_set self.old.homes slot home } }
    {
        write_up_to(&mut self.written, slot, self.free);
        self.written[slot].home = home;
    }
}

// Writes the links up to that of a slot, as they are.
#[inline]
fn write_up_to(written: &mut Vec<Link>, slot: usize, free: u32)
    requires few { slot < 1000000 }
    requires room { slot < vec_capacity written.old }
    ensures there { slot < vec_len written.new }
    ensures room { vec_capacity written.old ≤ vec_capacity written.new }
    ensures same { (k : ℕ) → link_at written.new.items free k ≡ link_at written.old.items free k }
{
    if written.len() <= slot {
        write_more(written, slot, free);
    }
}

// Writes those that were never written, up to that of a slot.
#[inline(never)]
fn write_more(written: &mut Vec<Link>, slot: usize, free: u32)
    requires few { slot < 1000000 }
    requires room { slot < vec_capacity written.old }
    ensures there { slot < vec_len written.new }
    ensures room { vec_capacity written.old ≤ vec_capacity written.new }
    ensures same { (k : ℕ) → link_at written.new.items free k ≡ link_at written.old.items free k }
{
    // Free slots move in their order, so that this is one at most.
    while written.len() <= slot {
        let next = written.len() as u32 + 1;
        written.push(Link { next, home: free }).unwrap();
    }
}
