//! The bytes of a memory beside its image, and which of them may differ.
ghost use Rattle.std.specs.Prelude.{◌≡◌, ◌+◌, ◌-◌, ◌*◌, ◌^◌, ◌<◌, ◌≤◌, length, replicate, slice_set, slice_index_or, true, false, IfOk, ℕ, ◌/◌, [], take, drop, ◌++◌};
ghost use Rattle.wmem.specs.Access.{byte_count, with_bytes};
ghost use Rattle.wmem.specs.Bytes.{bytes_of};
ghost use Rattle.wmem.specs.inside.Noted.{AreIn};
ghost use Rattle.wmem.specs.inside.Tracked.{TrackedBytes, AgreesElsewhere, stretch, IsTracked, extended};

use crate::access::Width;
use crate::buffer;
use crate::noted::NotedPages;
use std::alloc::{AllocError, Global};
use std::marker::Model;

/// How many bytes are noted together.
pub(crate) const STRETCH: usize = 256;

/// Two buffers of one length: the bytes, which are written, and the image, which they can be
/// brought back to. Each stretch of 256 bytes that a write touches is noted, and one that isn't
/// noted is alike in both; so both ways of making them alike copy the noted pages alone.
///
/// Room for all pages is taken when it is made, but the system gives memory as it is written for
/// the first time: so zeros are written where a page comes into use, and none before.
#[derive(Drop)]
pub(crate) struct Tracked {
    bytes: Vec<u8>,
    image: Vec<u8>,
    noted: NotedPages,
}

impl Model for Tracked {
    ghost use Rattle.std.specs.Prelude.{◌*◌, ◌≤◌, vec_capacity};
    ghost use Rattle.wmem.specs.inside.Tracked.{TrackedBytes, tracked_code, IsTracked, stretch};

    ghost Value = { TrackedBytes };

    ghost coded = { tracked_code };

    ghost view = { λ t. record { bytes = t.bytes.items; image = t.image.items; noted = t.noted } };

    ghost invariant = { λ t. IsTracked (record { bytes = t.bytes.items; image = t.image.items; noted = t.noted })
        × (stretch * t.noted.room ≤ vec_capacity t.bytes) × (stretch * t.noted.room ≤ vec_capacity t.image) };
}

// The page of the last of the bytes that a write touches.
#[inline(always)]
fn last_page(at: usize, width: Width) -> usize
    requires { at + byte_count width < 2 ^ 63 }
    ensures { result ≡ (at + byte_count width - 1) / stretch }
{
    (at + width.bytes() - 1) / STRETCH
}

impl Tracked {
    /// No pages, with room for so many.
    pub(crate) fn new(alloc: Global, room: usize) -> Result<Tracked, AllocError>
        requires { room ≤ 8192 }
        ensures bytes { IfOk result (λ tracked. tracked.bytes ≡ []) }
        ensures image { IfOk result (λ tracked. tracked.image ≡ []) }
        ensures room { IfOk result (λ tracked. tracked.noted.room ≡ room) }
    {
        Ok(Tracked {
            bytes: Vec::with_capacity(alloc, STRETCH * room)?,
            image: Vec::with_capacity(alloc, STRETCH * room)?,
            noted: NotedPages::new(alloc, room)?,
        })
    }

    /// There are so many pages from now on, or as many as there were. New ones are zeros, in the
    /// image too.
    #[tactic(auto, unfolding(crate::specs::Memory::zeros))]
    pub(crate) fn extend(&mut self, pages: usize)
        requires { pages ≤ self.old.noted.room }
        ensures bytes { self.new.bytes ≡ extended self.old.bytes pages }
        ensures image { self.new.image ≡ extended self.old.image pages }
        ensures room { self.new.noted.room ≡ self.old.noted.room }
    {
        if self.bytes.len() < STRETCH * pages {
            self.bytes.resize(STRETCH * pages, 0).unwrap();
            self.image.resize(STRETCH * pages, 0).unwrap();
            self.noted.extend(pages);
        }
    }

    /// The bytes.
    #[inline(always)]
    pub(crate) fn bytes(&self) -> &[u8]
        ensures { result.now ≡ self.now.bytes }
    {
        &self.bytes
    }

    /// The image's bytes.
    #[inline(always)]
    pub(crate) fn image(&self) -> &[u8]
        ensures { result.now ≡ self.now.image }
    {
        &self.image
    }

    /// How many pages of 4,096 bytes have a noted stretch.
    pub(crate) fn touched(&self) -> usize
        ensures pages { AreIn self.now.noted.flags result }
        ensures tracked { IsTracked self.now }
    {
        self.noted.count_large()
    }

    /// Writes the low bytes of `value`, as many as `width` says, at a place.
    #[inline(always)]
    pub(crate) fn write(&mut self, at: usize, width: Width, value: u64)
        requires { at + byte_count width ≤ length self.old.bytes }
        ensures bytes { self.new.bytes ≡ with_bytes self.old.bytes at (bytes_of (byte_count width) value) }
        ensures image { self.new.image ≡ self.old.image }
        ensures room { self.new.noted.room ≡ self.old.noted.room }
    {
        self.noted.note(at / STRETCH);
        let last = last_page(at, width);
        self.noted.note(last);
        buffer::write(&mut self.bytes, at, width, value);
    }

    /// Writes all of `new` at a place.
    pub(crate) fn copy_at(&mut self, at: usize, new: &[u8])
        requires { at + length new.now ≤ length self.old.bytes }
        ensures bytes { self.new.bytes ≡ with_bytes self.old.bytes at new.now }
        ensures image { self.new.image ≡ self.old.image }
        ensures room { self.new.noted.room ≡ self.old.noted.room }
    {
        self.noted
            .note_each(at / STRETCH, (at + new.len()).div_ceil(STRETCH));
        buffer::copy_at(&mut self.bytes, at, new);
    }

    /// Makes the image the bytes'.
    pub(crate) fn keep(&mut self)
        ensures bytes { self.new.bytes ≡ self.old.bytes }
        ensures image { self.new.image ≡ self.old.bytes }
        ensures room { self.new.noted.room ≡ self.old.noted.room }
    {
        make_alike(&mut self.image, &self.bytes, &mut self.noted);
    }

    /// Makes the bytes the image's.
    pub(crate) fn reset(&mut self)
        ensures bytes { self.new.bytes ≡ self.old.image }
        ensures image { self.new.image ≡ self.old.image }
        ensures room { self.new.noted.room ≡ self.old.noted.room }
    {
        make_alike(&mut self.bytes, &self.image, &mut self.noted);
    }
}

// Copies the noted pages, after which none is noted.
fn make_alike(to: &mut [u8], from: &[u8], noted: &mut NotedPages)
    requires whole { length to.old ≡ stretch * length noted.old.flags }
    requires same { length from.now ≡ length to.old }
    requires agrees { AgreesElsewhere to.old from.now noted.old }
    ensures alike { to.new ≡ from.now }
    ensures pages { length noted.new.flags ≡ length noted.old.flags }
    ensures room { noted.new.room ≡ noted.old.room }
{
    while let Some(page) = noted.pop() {
        copy_page(to, from, page * STRETCH);
    }
}

// Copies the page that begins at a place.
fn copy_page(to: &mut [u8], from: &[u8], at: usize)
    requires room { at + 256 ≤ length to.old }
    requires given { at + 256 ≤ length from.now }
    ensures { to.new ≡ with_bytes to.old at (take 256 (drop at from.now)) }
{
    buffer::copy_at(to, at, &from[at..at + STRETCH]);
}
