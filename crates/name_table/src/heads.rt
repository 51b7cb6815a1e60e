//! The first slot of each chain, of which only those that were written near take memory.
ghost use Rattle.std.specs.Prelude.{◌≡◌, ℕ, ◌*◌, ◌<◌, ◌≤◌, IfOk, length, replicate, slice_set, slice_index_or, vec_len, vec_capacity};
ghost use Rattle.name_table.specs.inside.Written.{unwritten, head_at, AreBlocks};

use std::alloc::{AllocError, Global};
use std::marker::Model;

// So many heads are written together, the first time that one of them is.
const BLOCK: usize = 1024;

// Where a block that was never written is.
const UNWRITTEN: u16 = u16::MAX;

/// Numbers that are all the same at first. All room is reserved by `Heads::new`, but the system
/// gives memory as it is written first, and blocks lie in the order in which they were: with few
/// chains little is touched, however many there are.
#[derive(Drop)]
pub(crate) struct Heads {
    // Which of the written blocks each block is: so few numbers that they stay in the nearest
    // cache.
    blocks: Vec<u16>,
    // The blocks that were ever written, one after another.
    written: Vec<u32>,
    len: usize,
    // What the others have.
    end: u32,
}

impl Model for Heads {
    ghost use Rattle.std.specs.Prelude.{List, ℕ, vec_capacity};

    ghost Value = { List ℕ };

    ghost use Rattle.name_table.specs.inside.Written.{listed, head_at, AreRoomy};

    ghost view = { λ h. listed (head_at h.blocks.items h.written.items h.end) h.len };

    ghost invariant = { λ h. AreRoomy h.blocks.items h.written.items h.len (vec_capacity h.written) };
}

impl Heads {
    /// So many, each the end.
    pub(crate) fn new(alloc: Global, len: usize, end: u32) -> Result<Self, AllocError>
        requires { len ≤ 2000000 }
        ensures { IfOk result (λ h. h ≡ replicate len end) }
    {
        let count = len / BLOCK + 1;
        let Ok(blocks) = Vec::from_elem(alloc, UNWRITTEN, count) else {
            return Err(AllocError);
        };
        let Ok(written) = Vec::with_capacity(alloc, BLOCK * count) else {
            return Err(AllocError);
        };
        Ok(Heads {
            blocks,
            written,
            len,
            end,
        })
    }

    /// The first slot of a chain.
    #[inline]
    pub(crate) fn get(&self, chain: usize) -> u32
        requires { chain < length self.now }
        ensures { result ≡ slice_index_or self.now chain 0 }
    {
        let place = self.blocks[chain / BLOCK] as usize * BLOCK + chain % BLOCK;
        match self.written.get(place) {
            Some(head) => *head,
            None => self.end,
        }
    }

    /// Gives a chain another first slot.
    #[inline]
    pub(crate) fn set(&mut self, chain: usize, head: u32)
        requires { chain < length self.old }
        ensures { self.new ≡ slice_set self.old chain head }
    {
        let block = chain / BLOCK;
        open(&mut self.blocks, &mut self.written, block, self.end);
        let place = self.blocks[block] as usize * BLOCK + chain % BLOCK;
        self.written[place] = head;
    }
}

// Writes a block as it is, if it never was.
#[inline]
fn open(blocks: &mut Vec<u16>, written: &mut Vec<u32>, block: usize, end: u32)
    requires blocks { AreBlocks blocks.old.items written.old.items }
    requires room { 1024 * vec_len blocks.old ≤ vec_capacity written.old }
    requires a_block { block < vec_len blocks.old }
    ensures blocks { AreBlocks blocks.new.items written.new.items }
    ensures as_many { vec_len blocks.new ≡ vec_len blocks.old }
    ensures room { vec_capacity written.old ≤ vec_capacity written.new }
    ensures there { slice_index_or blocks.new.items block 0 < unwritten }
    ensures same { (k : ℕ) → head_at blocks.new.items written.new.items end k
        ≡ head_at blocks.old.items written.old.items end k }
{
    if blocks[block] == UNWRITTEN {
        write(blocks, written, block, end);
    }
}

// Writes a block for the first time, as it is.
#[cold]
fn write(blocks: &mut Vec<u16>, written: &mut Vec<u32>, block: usize, end: u32)
    requires blocks { AreBlocks blocks.old.items written.old.items }
    requires room { 1024 * vec_len blocks.old ≤ vec_capacity written.old }
    requires a_block { block < vec_len blocks.old }
    requires new { slice_index_or blocks.old.items block 0 ≡ unwritten }
    ensures blocks { AreBlocks blocks.new.items written.new.items }
    ensures as_many { vec_len blocks.new ≡ vec_len blocks.old }
    ensures room { vec_capacity written.old ≤ vec_capacity written.new }
    ensures there { slice_index_or blocks.new.items block 0 < unwritten }
    ensures same { (k : ℕ) → head_at blocks.new.items written.new.items end k
        ≡ head_at blocks.old.items written.old.items end k }
{
    let len = written.len();
    blocks[block] = (len / BLOCK) as u16;
    written.resize(len + BLOCK, end).unwrap();
}
