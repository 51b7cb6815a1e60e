//! The store itself.
ghost use Rattle.std.specs.Prelude.{◌≡◌, ◌+◌, ◌^◌, ◌<◌, ◌↔◌, Some, length, slice_get, option_map, IfOk, IfSome, IsTrue};
ghost use Rattle.std.specs.Arc.{arc_value};
ghost use Rattle.std.specs.List.{AllByRecursion};
ghost use Rattle.wcode.specs.Operators.{type_of};
ghost use Rattle.wmem.specs.declared.trap.Trap.TheVariants.{MemoryOutOfBounds, HostOutOfBounds};
ghost use Rattle.wmem.specs.Access.{LoadGives, byte_count, reading_of};
ghost use Rattle.wmem.specs.Bytes.{bytes_of};
ghost use Rattle.wmem.specs.Memory.{pages_in, IsMemory};
ghost use Rattle.wmodule.specs.Syntax.{ElementSyntax, DataSyntax};
ghost use Rattle.wstore.specs.Values.{value_of, word_of, InRange};
ghost use Rattle.wstore.specs.Fits.{StoreFits};
ghost use Rattle.wstore.specs.Segments.{ElementsFit, DataFits, with_elements, with_data};
ghost use Rattle.wstore.specs.State.{syntax_of, new_state, with_current, with_number, with_globals, StoreGives, GrowthGives};

use crate::first::{cap, empty_table, first_words, least};
use crate::kept::{Kept, put_functions};
use crate::segments::{data_of, elements_of, is_within};
use std::alloc::{AllocError, Global};
use std::marker::Model;
use std::sync::Arc;
use wmem::{Load, Memory, Trap, Width};
use wtype::Checked;

// Bytes are below 256; for the proof alone.
fn are_bytes(bytes: &[u8])
    ensures { AllByRecursion (λ byte. byte < 256) bytes.now }
{}

// Sizes are whole pages, and the image isn't larger than the memory; for the proof alone.
#[inline(always)]
fn is_memory(memory: &Memory)
    ensures { IsMemory memory.now }
{
    let _ = memory.size();
}

/// The memory, the globals and the table of a checked module, with an image that they can be
/// brought back to.
///
/// Globals are kept as numbers of 64 bits without their types, which the module has.
pub struct Store {
    checked: Arc<Checked>,
    memory: Memory,
    globals: Kept<u64>,
    table: Kept<Option<u32>>,
}

impl Model for Store {
    ghost use Rattle.std.specs.Coded.{codes};
    ghost use Rattle.wstore.specs.State.{StoreState};

    ghost Value = { StoreState };

    ghost coded = { Prim.hlevel codes };

    ghost use Rattle.wstore.specs.inside.Inside.{state_of, IsSound};

    ghost view = { state_of };

    ghost invariant = { IsSound };
}

// By hand, so that who drops a store calls this, and its parts' drops are proved here alone.
impl Drop for Store {
    fn drop(self) {
        let Self {
            checked: _checked,
            memory: _memory,
            globals: _globals,
            table: _table,
        } = self;
    }
}

impl Store {
    /// The store that the module has at first, which is also the image. It takes the room for all
    /// that either may come to hold, and nothing later takes more.
    pub fn new(alloc: Global, checked: Arc<Checked>) -> Result<Store, AllocError>
        ensures { IfOk result (λ store. store ≡ new_state (arc_value checked)) }
    {
        let module = checked.module();
        let tables = module.tables();
        let memories = tables.memories.as_slice();
        let Ok(empty) = empty_table(alloc, tables.tables.as_slice()) else {
            return Err(AllocError);
        };
        let Ok(table) = Kept::new(alloc, empty) else {
            return Err(AllocError);
        };
        let Ok(words) = first_words(alloc, module, tables.globals.as_slice()) else {
            return Err(AllocError);
        };
        let Ok(globals) = Kept::new(alloc, words) else {
            return Err(AllocError);
        };
        let Ok(memory) = Memory::new(alloc, least(memories), cap(memories)) else {
            return Err(AllocError);
        };
        Ok(Store {
            checked,
            memory,
            globals,
            table,
        })
    }

    /// The module, with the notes of its bodies.
    #[inline(always)]
    pub fn checked(&self) -> &Checked
        ensures { result.now ≡ self.now.checked }
    {
        &self.checked
    }

    /// The bytes of the memory. There are none where the module has no memory.
    #[inline(always)]
    pub fn memory(&self) -> &[u8]
        ensures { result.now ≡ self.now.current.memory }
    {
        self.memory.bytes()
    }

    /// Does nothing: it promises what is so of every store.
    pub fn always_fits(&self)
        ensures current { StoreFits (syntax_of self.now) self.now.current }
        ensures image { StoreFits (syntax_of self.now) self.now.image }
    {
        are_bytes(self.memory.bytes());
        are_bytes(self.memory.image());
        is_memory(&self.memory);
    }

    /// The memory's size in pages (`memory.size`).
    #[inline(always)]
    pub fn size(&self) -> u32
        ensures { result ≡ pages_in self.now.current.memory }
    {
        self.memory.size()
    }

    /// Loads from the address `base + offset`, which doesn't wrap. An i32 is below 2^32.
    ///
    /// # Errors
    ///
    /// [`Trap::MemoryOutOfBounds`] where one of the bytes lies past the end.
    #[inline(always)]
    pub fn load(&self, base: u32, offset: u32, load: Load) -> Result<u64, Trap>
        ensures value { LoadGives load self.now.current.memory (base + offset) result }
        ensures fits { IfOk result (λ value. value < 2 ^ (reading_of load).bits) }
    {
        self.memory.load(base, offset, load)
    }

    /// Stores the low bytes of `value` at the address `base + offset`, which doesn't wrap.
    ///
    /// # Errors
    ///
    /// [`Trap::MemoryOutOfBounds`] where one of the bytes lies past the end: nothing is written
    /// then.
    #[inline(always)]
    pub fn store(&mut self, base: u32, offset: u32, width: Width, value: u64) -> Result<(), Trap>
        ensures { StoreGives MemoryOutOfBounds self.old (base + offset) (bytes_of (byte_count width) value) result
            self.new }
    {
        self.memory.store(base, offset, width, value)
    }

    /// Writes the host's bytes at `at`, all of them.
    ///
    /// # Errors
    ///
    /// [`Trap::HostOutOfBounds`] where one of the bytes would lie past the end: nothing is written
    /// then.
    pub fn copy_in(&mut self, at: u32, bytes: &[u8]) -> Result<(), Trap>
        ensures { StoreGives HostOutOfBounds self.old at bytes.now result self.new }
    {
        self.memory.copy_in(at, bytes)
    }

    /// Grows the memory by `delta` pages and answers the old size in pages (`memory.grow`), or
    /// `None`, which the instruction gives as -1, where the module's memory may not have as many.
    pub fn grow(&mut self, delta: u32) -> Option<u32>
        ensures { GrowthGives self.old delta result self.new }
    {
        self.memory.grow(delta)
    }

    /// How many globals there are.
    pub fn global_count(&self) -> usize
        ensures { result ≡ length self.now.current.globals }
    {
        self.globals.places().len()
    }

    /// The number of a global's value (`global.get`).
    #[inline(always)]
    pub fn global(&self, index: usize) -> u64
        requires { index < length self.now.current.globals }
        ensures { option_map word_of (slice_get self.now.current.globals index) ≡ Some result }
    {
        self.globals.get(index)
    }

    /// Writes a global's value by its number, which its type holds (`global.set`).
    #[inline(always)]
    pub fn set_global(&mut self, index: usize, number: u64)
        requires there { index < length self.old.current.globals }
        requires in_range { IfSome (slice_get self.old.current.globals index)
            (λ value. InRange (value_of (type_of value) number)) }
        ensures { self.new ≡ with_globals self.old (with_number self.old.current.globals index number) }
    {
        self.globals.set(index, number);
    }

    /// What the table has at an index: `None` past its end, `Some(None)` where no function was put.
    #[inline(always)]
    pub fn element(&self, index: u32) -> Option<Option<u32>>
        ensures { result ≡ slice_get self.now.current.table index }
    {
        self.table.places().get(index as usize).copied()
    }

    /// How many element segments the module has.
    pub fn element_segment_count(&self) -> usize
        ensures { result ≡ length (syntax_of self.now).element_segments }
    {
        self.checked.module().tables().element_segments.len()
    }

    /// How many data segments the module has.
    pub fn data_segment_count(&self) -> usize
        ensures { result ≡ length (syntax_of self.now).data_segments }
    {
        self.checked.module().tables().data_segments.len()
    }

    /// Whether all of this element segment lies within the table.
    pub fn fits_elements(&self, segment: usize) -> bool
        requires { segment < length (syntax_of self.now).element_segments }
        ensures { (s : ElementSyntax) → slice_get (syntax_of self.now).element_segments segment ≡ Some s →
            IsTrue result ↔ ElementsFit s self.now.current }
    {
        let (at, functions) = elements_of(self.checked.module(), segment);
        is_within(at, functions.len(), self.table.places().len())
    }

    /// Writes this element segment's functions into the table.
    pub fn put_elements(&mut self, segment: usize)
        requires there { segment < length (syntax_of self.old).element_segments }
        requires in_bounds { (s : ElementSyntax) → slice_get (syntax_of self.old).element_segments segment ≡ Some s →
            ElementsFit s self.old.current }
        ensures { (s : ElementSyntax) → slice_get (syntax_of self.old).element_segments segment ≡ Some s
            → self.new ≡ with_current self.old (with_elements s self.old.current) }
    {
        let (at, functions) = elements_of(self.checked.module(), segment);
        put_functions(&mut self.table, at, functions);
    }

    /// Whether all of this data segment lies within the memory.
    pub fn fits_data(&self, segment: usize) -> bool
        requires { segment < length (syntax_of self.now).data_segments }
        ensures { (s : DataSyntax) → slice_get (syntax_of self.now).data_segments segment ≡ Some s →
            IsTrue result ↔ DataFits s self.now.current }
    {
        let (at, bytes) = data_of(self.checked.module(), segment);
        is_within(at, bytes.len(), self.memory.bytes().len())
    }

    /// Writes this data segment's bytes into the memory.
    pub fn put_data(&mut self, segment: usize)
        requires there { segment < length (syntax_of self.old).data_segments }
        requires in_bounds { (s : DataSyntax) → slice_get (syntax_of self.old).data_segments segment ≡ Some s →
            DataFits s self.old.current }
        ensures { (s : DataSyntax) → slice_get (syntax_of self.old).data_segments segment ≡ Some s →
            self.new ≡ with_current self.old (with_data s self.old.current) }
    {
        let (at, bytes) = data_of(self.checked.module(), segment);
        let _ = self.memory.copy_in(at, bytes);
    }

    /// Makes the store the image.
    pub fn keep(&mut self)
        ensures { self.new ≡ record self.old { image = self.old.current } }
    {
        is_memory(&self.memory);
        self.memory.keep();
        self.globals.keep();
        self.table.keep();
    }

    /// Brings the image back. It copies stretches of 256 bytes of the memory that were written
    /// since the image was kept, and globals or table where one of them was.
    pub fn reset(&mut self)
        ensures { self.new ≡ record self.old { current = self.old.image } }
    {
        self.memory.reset();
        self.globals.reset();
        self.table.reset();
    }
}
