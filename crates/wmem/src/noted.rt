//! Which stretches of a memory were written since its image was kept.
ghost use Rattle.std.specs.Prelude.{◌≡◌, ◌*◌, ◌/◌, ◌<◌, ◌++◌, ◌∷◌, [], length, true, false, IfNone, IfSome, IfOk, ℕ, ◌≤◌, slice_set, slice_index_or};
ghost use Rattle.wmem.specs.inside.Noted.{AreIn, no_pages, with_pages};

use std::alloc::{AllocError, Global};
use std::marker::Model;

// How many of these pages make a large one, by which it is told how much was written.
const IN_A_LARGE: usize = 16;

/// The pages that are noted. These are small pages, for noting alone: 256 bytes each.
///
/// A flag a page answers whether it is noted, and a list of them lets a reset go to those alone.
/// Room for more pages is taken when it is made.
#[derive(Drop)]
pub(crate) struct NotedPages {
    is_noted: Vec<bool>,
    order: Vec<usize>,
}

impl Model for NotedPages {
    ghost use Rattle.std.specs.Prelude.{◌≤◌, length, vec_capacity};
    ghost use Rattle.wmem.specs.inside.Noted.{Noted, noted_code, IsListed};

    ghost Value = { Noted };

    ghost coded = { noted_code };

    ghost view = { λ n. record { flags = n.is_noted.items; order = n.order.items; room = vec_capacity n.order } };

    ghost invariant = { λ n. IsListed (record { flags = n.is_noted.items; order = n.order.items; room = vec_capacity n.order })
        × (length n.is_noted.items ≤ vec_capacity n.order)
        × (vec_capacity n.order ≤ vec_capacity n.is_noted) };
}

impl NotedPages {
    /// No pages, with room to note each of so many.
    pub(crate) fn new(alloc: Global, room: usize) -> Result<NotedPages, AllocError>
        ensures { IfOk result (λ noted. noted ≡ no_pages room) }
    {
        Ok(NotedPages {
            is_noted: Vec::with_capacity(alloc, room)?,
            order: Vec::with_capacity(alloc, room)?,
        })
    }

    /// There are so many pages from now on, or as many as there were. New ones aren't noted.
    pub(crate) fn extend(&mut self, pages: usize)
        requires { pages ≤ self.old.room }
        ensures { self.new ≡ with_pages self.old pages }
    {
        if pages > self.is_noted.len() {
            self.is_noted.resize(pages, false).unwrap();
        }
    }

    /// How many large pages, each of sixteen of these, have a noted one.
    pub(crate) fn count_large(&self) -> usize
        ensures { AreIn self.now.flags result }
    {
        let mut count = 0;
        for large in 0..self.is_noted.len().div_ceil(IN_A_LARGE) {
            if self.has_noted(large) {
                count += 1;
            }
        }
        count
    }

    // Whether one of the sixteen pages of a large one is noted.
    fn has_noted(&self, large: usize) -> bool
        requires { large * 16 < length self.now.flags }
        ensures { result ≡ false → (page : ℕ) → page / 16 ≡ large →
            slice_index_or self.now.flags page false ≡ false }
    {
        let len = self.is_noted.len();
        let first = large * IN_A_LARGE;
        let end = len.min(first + IN_A_LARGE);
        for page in first..end {
            if self.is_noted[page] {
                return true;
            }
        }
        false
    }

    /// Notes a page, where it isn't noted yet.
    #[inline(always)]
    pub(crate) fn note(&mut self, page: usize)
        requires { page < length self.old.flags }
        ensures flags { self.new.flags ≡ slice_set self.old.flags page true }
        ensures room { self.new.room ≡ self.old.room }
    {
        if !self.is_noted[page] {
            self.note_first(page);
        }
    }

    /// Notes the pages from one up to another.
    pub(crate) fn note_each(&mut self, from: usize, to: usize)
        requires { to ≤ length self.old.flags }
        ensures pages { length self.new.flags ≡ length self.old.flags }
        ensures noted { (page : ℕ) → from ≤ page → page < to → slice_index_or self.new.flags page false ≡ true }
        ensures stays { (page : ℕ) → slice_index_or self.new.flags page false ≡ false →
            slice_index_or self.old.flags page false ≡ false }
        ensures room { self.new.room ≡ self.old.room }
    {
        for page in from..to {
            self.note(page);
        }
    }

    // Notes a page that isn't noted.
    #[inline(never)]
    fn note_first(&mut self, page: usize)
        requires within { page < length self.old.flags }
        requires fresh { slice_index_or self.old.flags page true ≡ false }
        ensures flags { self.new.flags ≡ slice_set self.old.flags page true }
        ensures room { self.new.room ≡ self.old.room }
    {
        self.is_noted[page] = true;
        self.order.push_reserved(page);
    }

    /// Takes one of the noted pages off.
    pub(crate) fn pop(&mut self) -> Option<usize>
        ensures none { IfNone result ((page : ℕ) → slice_index_or self.old.flags page false ≡ false) }
        ensures unchanged { IfNone result (self.new ≡ self.old) }
        ensures listed { IfSome result (λ page. self.old.order ≡ self.new.order ++ page ∷ []) }
        ensures within { IfSome result (λ page. page < length self.old.flags) }
        ensures taken { IfSome result (λ page. self.new.flags ≡ slice_set self.old.flags page false) }
        ensures room { self.new.room ≡ self.old.room }
    {
        let page = self.order.pop()?;
        self.is_noted[page] = false;
        Some(page)
    }
}
