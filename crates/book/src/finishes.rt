//! When binds were reported done, slot by slot, and where the earliest of them are.
ghost use Rattle.std.specs.Prelude.{◌≡◌, ℕ, ◌+◌, ◌*◌, ◌/◌, ◌<◌, ◌≤◌, IfOk, IfSome, IfNone, length, replicate, slice_index, slice_set};
ghost use Rattle.quant.specs.declared.limits.TheConstants.{MAX_PLACED};
ghost use Rattle.book.specs.inside.Finishes.{IsEarliest};

use quant::MAX_PLACED;
use std::alloc::{AllocError, Global};
use std::marker::Model;

/// Stands for the moment of a bind that wasn't reported done. None that is looked for is as late.
pub(crate) const NEVER: u64 = u64::MAX;

// How many milliseconds have one earliest among them kept beside them.
const BLOCK: usize = 64;

/// A millisecond for each slot. The earliest one of each block of slots is kept beside them, and
/// the earliest one of each block of these beside these, so that a search for early ones passes
/// over all that has none.
#[derive(Drop)]
pub(crate) struct Finishes {
    each: Vec<u64>,
    earliest: Vec<u64>,
    first: Vec<u64>,
}

impl Model for Finishes {
    ghost use Rattle.std.specs.Prelude.{List, ℕ};

    ghost Value = { List ℕ };

    ghost use Rattle.book.specs.inside.Finishes.{IsEarliest};

    ghost view = { λ f. f.each.items };

    ghost invariant = { λ f. IsEarliest f.each.items f.earliest.items × IsEarliest f.earliest.items f.first.items };
}

impl Finishes {
    /// Slots of which each has no bind that was reported done.
    pub(crate) fn new(alloc: Global, room: usize) -> Result<Self, AllocError>
        requires { room ≤ MAX_PLACED }
        ensures { IfOk result (λ f. f ≡ replicate room NEVER) }
    {
        let blocks = room / BLOCK + 1;
        let Ok(each) = Vec::from_elem(alloc, NEVER, room) else {
            return Err(AllocError);
        };
        let Ok(earliest) = Vec::from_elem(alloc, NEVER, blocks) else {
            return Err(AllocError);
        };
        let Ok(first) = Vec::from_elem(alloc, NEVER, blocks / BLOCK + 1) else {
            return Err(AllocError);
        };
        Ok(Finishes {
            each,
            earliest,
            first,
        })
    }

    /// A slot has this millisecond from now on.
    pub(crate) fn set(&mut self, slot: usize, at: u64)
        requires { slot < length self.old }
        ensures { self.new ≡ slice_set self.old slot at }
    {
        let block = slot / BLOCK;
        let before = self.each[slot];
        let earliest = self.earliest[block];
        self.each[slot] = at;
        keep_earliest(&self.each, &mut self.earliest, slot, before);
        keep_earliest(&self.earliest, &mut self.first, block, earliest);
    }

    /// The first slot from one on that has a millisecond up to the limit.
    pub(crate) fn next(&self, from: usize, limit: u64) -> Option<usize>
        ensures later { IfSome result (λ slot. from ≤ slot) }
        ensures a_slot { IfSome result (λ slot. slot < length self.now) }
        ensures early { IfSome result (λ slot. slice_index self.now slot ≤ limit) }
        ensures first { IfSome result (λ slot. (i : ℕ) → from ≤ i → i < slot → limit < slice_index self.now i) }
        ensures none { IfNone result ((i : ℕ) → from ≤ i → i < length self.now → limit < slice_index self.now i) }
    {
        let mut slot = from;
        while slot < self.each.len() {
            let block = slot / BLOCK;
            if slot % (BLOCK * BLOCK) == 0 && self.first[block / BLOCK] > limit {
                slot += BLOCK * BLOCK;
            } else if slot % BLOCK == 0 && self.earliest[block] > limit {
                slot += BLOCK;
            } else if self.each[slot] <= limit {
                return Some(slot);
            } else {
                slot += 1;
            }
        }
        None
    }
}

// One of the milliseconds has changed from what it was before. The earliest of its block is found
// anew only where that one was it.
fn keep_earliest(each: &[u64], earliest: &mut Vec<u64>, at: usize, before: u64)
    requires here { at < length each.now }
    requires kept { IsEarliest (slice_set each.now at before) earliest.old.items }
    ensures kept { IsEarliest each.now earliest.new.items }
    ensures block { slice_set earliest.new.items (at / BLOCK) (slice_index earliest.old.items (at / BLOCK))
        ≡ earliest.old.items }
{
    let block = at / BLOCK;
    let now = each[at];
    if now <= earliest[block] {
        earliest[block] = now;
    } else if before == earliest[block] {
        earliest[block] = earliest_in(each, block);
    }
}

// The earliest millisecond of a block.
fn earliest_in(each: &[u64], block: usize) -> u64
    requires here { block * BLOCK < length each.now }
    requires few { length each.now ≤ MAX_PLACED }
    ensures { (i : ℕ) → block * BLOCK ≤ i → i < block * BLOCK + BLOCK → i < length each.now →
        result ≤ slice_index each.now i }
{
    let start = block * BLOCK;
    let end = each.len().min(start + BLOCK);
    let mut earliest = NEVER;
    for i in start..end {
        if each[i] < earliest {
            earliest = each[i];
        }
    }
    earliest
}
