//! Chains of slots: each slot hangs in the chain of its home.
ghost use Rattle.std.specs.Prelude.{◌≡◌, ◌≢◌, ℕ, ◌+◌, ◌<◌, ◌≤◌, List, ◌∷◌, ◌++◌, IfOk, length, replicate, slice_set, slice_index_or};
ghost use Rattle.name_table.specs.inside.Woven.{nowhere, times, chain, Ends, IsWoven};

use crate::heads::Heads;
use crate::links::Links;
use std::alloc::{AllocError, Global};

// The home of a slot that hangs in no chain.
const NOWHERE: u32 = u32::MAX;

/// Slots in chains. A number past the last slot, as a head or after a slot, is a chain's end.
#[derive(Drop)]
pub(crate) struct Chains {
    pub(crate) heads: Heads,
    pub(crate) links: Links,
}

impl Chains {
    /// All slots in the chain after the buckets', which are empty.
    pub(crate) fn new(alloc: Global, buckets: usize, room: usize) -> Result<Self, AllocError>
        requires few_buckets { buckets < 2000000 }
        requires few_slots { room ≤ 1000000 }
        ensures woven { IfOk result (λ c. IsWoven c) }
        ensures homes { IfOk result (λ c. c.links.homes ≡ replicate room buckets) }
        ensures heads { IfOk result (λ c. length c.heads ≡ buckets + 1) }
    {
        let Ok(mut heads) = Heads::new(alloc, buckets + 1, room as u32) else {
            return Err(AllocError);
        };
        heads.set(buckets, 0);
        let Ok(links) = Links::new(alloc, room, buckets as u32) else {
            return Err(AllocError);
        };
        Ok(Chains { heads, links })
    }

    /// Takes a slot out of its chain and puts it first in another.
    #[inline]
    pub(crate) fn transfer(&mut self, slot: usize, chain: usize)
        requires woven { IsWoven self.old }
        requires a_slot { slot < length self.old.links.homes }
        requires at_home { slice_index_or self.old.links.homes slot nowhere < length self.old.heads }
        requires a_chain { chain < length self.old.heads }
        ensures woven { IsWoven self.new }
        ensures homes { self.new.links.homes ≡ slice_set self.old.links.homes slot chain }
        ensures heads { length self.new.heads ≡ length self.old.heads }
    {
        self.unhook(slot);
        self.hook(slot, chain);
    }

    // Takes a slot out of its chain.
    #[inline]
    fn unhook(&mut self, slot: usize)
        requires woven { IsWoven self.old }
        requires a_slot { slot < length self.old.links.homes }
        requires at_home { slice_index_or self.old.links.homes slot nowhere < length self.old.heads }
        ensures woven { IsWoven self.new }
        ensures homes { self.new.links.homes ≡ slice_set self.old.links.homes slot nowhere }
        ensures heads { length self.new.heads ≡ length self.old.heads }
    {
        let home = self.links.home(slot) as usize;
        let first = self.heads.get(home) as usize;
        let next = self.links.next(slot);
        if first == slot {
            self.heads.set(home, next);
        } else {
            let before = slot_before(&self.links, first, slot);
            self.links.set_next(before, next);
        }
        self.links.set_home(slot, NOWHERE);
    }

    // Puts a slot that hangs nowhere first in a chain.
    #[inline]
    fn hook(&mut self, slot: usize, chain: usize)
        requires woven { IsWoven self.old }
        requires a_slot { slot < length self.old.links.homes }
        requires loose { slice_index_or self.old.links.homes slot nowhere ≡ nowhere }
        requires a_chain { chain < length self.old.heads }
        ensures woven { IsWoven self.new }
        ensures homes { self.new.links.homes ≡ slice_set self.old.links.homes slot chain }
        ensures heads { length self.new.heads ≡ length self.old.heads }
    {
        let first = self.heads.get(chain);
        self.links.set(slot, first, chain as u32);
        self.heads.set(chain, slot as u32);
    }
}

// The slot before this one, in the chain that begins with another.
fn slot_before(links: &Links, first: usize, slot: usize) -> usize
    requires ends { Ends links.now.nexts first }
    requires there { times slot (chain links.now.nexts first) ≡ 1 }
    requires later { first ≢ slot }
    ensures a_slot { result < length links.now.nexts }
    ensures linked { (front : List ℕ) × (back : List ℕ) ×
        (chain links.now.nexts first ≡ front ++ result ∷ slot ∷ back) }
{
    let mut at = first;
    while links.next(at) as usize != slot {
        at = links.next(at) as usize;
    }
    at
}
