//! The memory itself.
ghost use Rattle.std.specs.Prelude.{◌≡◌, ◌+◌, ◌*◌, ◌^◌, ◌<◌, ◌≤◌, length, IfOk};
ghost use Rattle.wmem.specs.declared.trap.Trap.TheVariants.{MemoryOutOfBounds, HostOutOfBounds};

use crate::access::{Load, Width};
use crate::buffer;
use crate::tracked::{STRETCH, Tracked};
use crate::trap::Trap;
use std::alloc::{AllocError, Global};
use std::marker::Model;

/// How many bytes a page has (WebAssembly Core 1.0, 4.2.8).
pub const PAGE_SIZE: usize = 65_536;

/// The most pages that a memory may have.
pub const MAX_PAGES: u32 = 32;

/// A linear memory, with an image that it can be brought back to.
///
/// The bytes and the image have room for the whole cap from the start. They are written as pages
/// come into use, so that the system gives memory for those alone, and are zero past what is in
/// use. Stretches of 256 bytes that were written since the image was kept are noted: to bring the
/// image back copies those alone.
#[derive(Drop)]
pub struct Memory {
    tracked: Tracked,
    /// How many of the bytes are in use.
    len: usize,
    /// How many of the image's bytes are in use.
    image_len: usize,
    cap: u32,
}

impl Model for Memory {
    ghost use Rattle.wmem.specs.Memory.{MemoryInstance};

    ghost Value = { MemoryInstance };

    ghost use Rattle.wmem.specs.inside.Inside.{instance_of, IsSound};

    ghost view = { instance_of };

    ghost invariant = { IsSound };
}

// The sum has up to 33 bits.
#[inline(always)]
fn effective_address(base: u32, offset: u32) -> usize
    ensures { result ≡ base + offset }
{
    base as usize + offset as usize
}

impl Memory {
    ghost use Rattle.wmem.specs.Access.{LoadGives, byte_count, reading_of, value_read, with_bytes};
    ghost use Rattle.wmem.specs.Bytes.{bytes_of};
    ghost use Rattle.wmem.specs.Memory.{new_memory, pages_in, IsMemory, WriteGives, GrowGives, TouchesAtMost};

    /// A memory of `min` pages of zeros, which is also its image. It takes the room for `cap` pages
    /// of each, and nothing later takes more.
    pub fn new(alloc: Global, min: u32, cap: u32) -> Result<Memory, AllocError>
        requires within { min ≤ cap }
        requires limited { cap ≤ 32 }
        ensures { IfOk result (λ memory. memory ≡ new_memory min cap) }
    {
        let len = min as usize * PAGE_SIZE;
        let mut tracked = Tracked::new(alloc, cap as usize * (PAGE_SIZE / STRETCH))?;
        tracked.extend(len / STRETCH);
        Ok(Memory {
            tracked,
            len,
            image_len: len,
            cap,
        })
    }

    /// The size in pages (`memory.size`).
    pub fn size(&self) -> u32
        ensures pages { result ≡ pages_in self.now.bytes }
        ensures shape { IsMemory self.now }
    {
        (self.len / PAGE_SIZE) as u32
    }

    /// Loads from the address `base + offset`, which doesn't wrap. An i32 is below 2^32.
    ///
    /// # Errors
    ///
    /// [`Trap::MemoryOutOfBounds`] where one of the bytes lies past the end.
    #[inline(always)]
    pub fn load(&self, base: u32, offset: u32, load: Load) -> Result<u64, Trap>
        ensures value { LoadGives load self.now.bytes (base + offset) result }
        ensures fits { IfOk result (λ value. value < 2 ^ (reading_of load).bits) }
    {
        let address = effective_address(base, offset);
        if address + load.bytes() > self.byte_size() {
            return Err(Trap::MemoryOutOfBounds);
        }
        Ok(self.read_at(address, load))
    }

    /// Stores the low bytes of `value` at the address `base + offset`, which doesn't wrap.
    ///
    /// # Errors
    ///
    /// [`Trap::MemoryOutOfBounds`] where one of the bytes lies past the end: nothing is written
    /// then.
    #[inline(always)]
    pub fn store(&mut self, base: u32, offset: u32, width: Width, value: u64) -> Result<(), Trap>
        ensures { WriteGives MemoryOutOfBounds self.old (base + offset) (bytes_of (byte_count width) value) result
            self.new }
    {
        let address = effective_address(base, offset);
        if address + width.bytes() > self.byte_size() {
            return Err(Trap::MemoryOutOfBounds);
        }
        self.write_at(address, width, value);
        Ok(())
    }

    /// Writes the host's bytes at `at`, all of them.
    ///
    /// # Errors
    ///
    /// [`Trap::HostOutOfBounds`] where one of the bytes would lie past the end: nothing is written
    /// then.
    pub fn copy_in(&mut self, at: u32, bytes: &[u8]) -> Result<(), Trap>
        ensures { WriteGives HostOutOfBounds self.old at bytes.now result self.new }
    {
        let at = at as usize;
        if at + bytes.len() > self.byte_size() {
            return Err(Trap::HostOutOfBounds);
        }
        self.copy_at(at, bytes);
        Ok(())
    }

    /// Grows by `delta` pages and answers the old size in pages (`memory.grow`). Where that would
    /// pass the cap it answers `None`, which the instruction gives as -1.
    pub fn grow(&mut self, delta: u32) -> Option<u32>
        ensures { GrowGives self.old delta result self.new }
    {
        let pages = self.size();
        if delta > self.cap - pages {
            return None;
        }
        let len = self.len + delta as usize * PAGE_SIZE;
        self.tracked.extend(len / STRETCH);
        self.len = len;
        Some(pages)
    }

    /// Makes the bytes the image.
    pub fn keep(&mut self)
        ensures { self.new ≡ record self.old { image = self.old.bytes } }
    {
        self.tracked.keep();
        self.image_len = self.len;
    }

    /// Brings the image back, its size too. It copies only stretches of 256 bytes that were written
    /// since the image was kept.
    pub fn reset(&mut self)
        ensures { self.new ≡ record self.old { bytes = self.old.image } }
    {
        self.tracked.reset();
        self.len = self.image_len;
    }

    /// How many pages of 4,096 bytes were written to since the image was kept or brought back. One
    /// that isn't among them is the image's, and zero past the image's end.
    pub fn touched(&self) -> usize
        ensures { TouchesAtMost self.now result }
    {
        self.tracked.touched()
    }

    /// The bytes in use.
    #[inline(always)]
    pub fn bytes(&self) -> &[u8]
        ensures { result.now ≡ self.now.bytes }
    {
        &self.tracked.bytes()[..self.len]
    }

    /// The image's bytes.
    #[inline(always)]
    pub fn image(&self) -> &[u8]
        ensures { result.now ≡ self.now.image }
    {
        &self.tracked.image()[..self.image_len]
    }

    #[inline(always)]
    fn byte_size(&self) -> usize
        ensures { result ≡ length self.now.bytes }
    {
        self.len
    }

    #[inline(always)]
    fn read_at(&self, address: usize, load: Load) -> u64
        requires { address + (reading_of load).bytes ≤ length self.now.bytes }
        ensures value { result ≡ value_read (reading_of load) self.now.bytes address }
        ensures fits { result < 2 ^ (reading_of load).bits }
    {
        buffer::read(self.tracked.bytes(), address, load)
    }

    #[inline(always)]
    fn write_at(&mut self, address: usize, width: Width, value: u64)
        requires { address + byte_count width ≤ length self.old.bytes }
        ensures { self.new ≡ record self.old {
          bytes = with_bytes self.old.bytes address
              (bytes_of (byte_count width) value);
        } }
    {
        self.tracked.write(address, width, value);
    }

    fn copy_at(&mut self, at: usize, bytes: &[u8])
        requires { at + length bytes.now ≤ length self.old.bytes }
        ensures { self.new ≡ record self.old { bytes = with_bytes self.old.bytes at bytes.now } }
    {
        self.tracked.copy_at(at, bytes);
    }
}
