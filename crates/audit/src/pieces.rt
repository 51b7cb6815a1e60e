//! The slots in pieces, each summed by one of several threads.
ghost use Rattle.std.specs.Prelude.{◌≡◌, ◌≤◌, ◌↔◌, ℕ, List, IfOk, length};
ghost use Rattle.std.specs.Bool.{IsTrue};
ghost use Rattle.audit.specs.inside.Audit.{used_in, total_in, IsSumOf};
ghost use Rattle.audit.specs.declared.sums.TheConstants.{PIECE};

use crate::sums::{PIECE, Sums, sums_of};
use book::Place;
use name_table::Entry;
use quant::{Name, Res};
use rayon::prelude::*;
use std::alloc::{AllocError, Global};
use std::thread::Threads;

/// What the places in all slots add up to, in pieces.
pub(crate) fn sum_pieces<R: Threads + Sync>(
    rt: &R,
    alloc: Global,
    slots: &[Option<Entry<Place>>],
) -> Result<Vec<Sums>, AllocError>
    ensures { IfOk result (λ pieces. (node : List ℕ) → total_in pieces.items node ≡ used_in slots.now node) }
{
    slots
        .par_chunks(PIECE)
        .map(
            |piece: &[Option<Entry<Place>>]| -> Result<Sums, AllocError>
                requires { length piece.now ≤ PIECE }
                ensures { IfOk result (λ sums. IsSumOf piece.entry.now sums) }
            { sums_of(alloc, piece) },
        )
        .with_min_len(1)
        .collect::<Result<Vec<Sums>, AllocError>>(rt, alloc)?
}

/// Whether this is what the pieces together have for a node.
pub(crate) fn is_used(used: &Res, pieces: &[Sums], node: &Name) -> bool
    ensures { IsTrue result ↔ (used.now ≡ total_in pieces.now node.now) }
{
    let mut cpu = 0u128;
    let mut mem = 0u128;
    let mut pods = 0u128;
    for piece in pieces {
        let sum = piece.on(node);
        cpu += u128::from(sum.cpu.0);
        mem += u128::from(sum.mem.0);
        pods += u128::from(sum.pods);
    }
    let same_cpu = u128::from(used.cpu.0) == cpu;
    let same_mem = u128::from(used.mem.0) == mem;
    let same_pods = u128::from(used.pods) == pods;
    same_cpu && same_mem && same_pods
}
