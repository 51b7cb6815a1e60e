//! What a module's memory, globals and table are at first.

ghost use Rattle.std.specs.Prelude.{◌≡◌, ◌≤◌, All, map, IfOk};
ghost use Rattle.std.specs.List.{AllByRecursion};
ghost use Rattle.wmodule.specs.Placed.{IsGlobal};
ghost use Rattle.wstore.specs.Store.{cap_of, first_table};
ghost use Rattle.wstore.specs.inside.Store.{least_of};
ghost use Rattle.wstore.specs.inside.Words.{first_word_of};

use crate::constants::first_word;
use std::alloc::{AllocError, Global};
use wmem::MAX_PAGES;
use wmodule::{GlobalVariable, Limits, Module};

/// The least size, or none where there is nothing of the kind.
pub fn least(all: &[Limits]) -> u32
    ensures { result ≡ least_of all.now }
{
    match all.first() {
        Some(limits) => limits.least,
        None => 0,
    }
}

/// The most pages of a memory.
pub fn cap(memories: &[Limits]) -> u32
    ensures { result ≡ cap_of memories.now }
{
    match memories.first() {
        Some(limits) => match limits.most {
            Some(most) => most.min(MAX_PAGES),
            None => MAX_PAGES,
        },
        None => 0,
    }
}

/// The numbers of the globals' first values.
pub fn first_words(
    alloc: Global,
    decoded: &Module,
    globals: &[GlobalVariable],
) -> Result<Vec<u64>, AllocError>
    requires { All (IsGlobal decoded.now.bytes) globals.now }
    ensures { IfOk result (λ words. words.items ≡ map (first_word_of decoded.now.bytes) globals.now) }
{
    let Ok(mut words) = Vec::with_capacity(alloc, globals.len()) else {
        return Err(AllocError);
    };
    for global in globals {
        words.push_reserved(first_word(decoded, *global));
    }
    Ok(words)
}

/// A table without functions.
pub fn empty_table(alloc: Global, tables: &[Limits]) -> Result<Vec<Option<u32>>, AllocError>
    ensures { IfOk result (λ table. table.items ≡ first_table tables.now) }
{
    vec![in alloc; None; least(tables) as usize]
}
