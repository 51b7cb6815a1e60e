//! The machine: a checked module, its store, and the room for its calls.

ghost use Rattle.std.specs.Prelude.{◌≡◌, ◌<◌, ◌↔◌, Some, length, slice_get, IfOk, IsSome, IsTrue};
ghost use Rattle.std.specs.Arc.{arc_value};
ghost use Rattle.wmodule.specs.Syntax.{ElementSyntax, DataSyntax, module_of};
ghost use Rattle.wstore.specs.Fits.{StoreFits};
ghost use Rattle.wstore.specs.Segments.{ElementsFit, DataFits, with_elements, with_data};
ghost use Rattle.wmach.specs.inside.Known.{IsChecked};
ghost use Rattle.wmach.specs.Call.{called_function, first_machine, result_type, Calls, ResultFits};

use crate::activation::Activation;
use crate::calls::MOST_FRAMES;
use crate::code::Code;
use crate::export::{Export, function_of};
use crate::host::{During, Host};
use crate::invocation::invoke;
use crate::outcome::Outcome;
use crate::records::records_of;
use crate::shape::{Shape, shapes_of};
use crate::widest::widest_frame;
use std::alloc::{AllocError, Global};
use std::marker::Model;
use std::sync::Arc;
use wstore::Store;
use wtype::Checked;

/// A machine for one checked module. It runs the module's own bytes, and nothing is translated:
/// beside them it has the notes of the module's branches, one row for each function, and slots of
/// 64 bits without tags for 256 frames of the widest function. It takes all its room when it is
/// made; after that no call allocates.
pub struct Machine {
    checked: Arc<Checked>,
    store: Store,
    shapes: Vec<Shape>,
    records: Vec<usize>,
    slots: Vec<u64>,
    waiting: Vec<Activation>,
}

impl Model for Machine {
    ghost use Rattle.std.specs.Coded.{codes};
    ghost use Rattle.wmach.specs.Call.{MachineState};
    ghost use Rattle.wmach.specs.inside.Kept.{machine_of, IsMachine};

    ghost Value = { MachineState };

    ghost coded = { Prim.hlevel codes };

    ghost view = { machine_of };

    ghost invariant = { IsMachine };
}

// By hand, so that who drops a machine calls this, and its parts' drops are proved here alone.
impl Drop for Machine {
    fn drop(self) {
        let Self {
            checked: _checked,
            store: _store,
            shapes: _shapes,
            records: _records,
            slots: _slots,
            waiting: _waiting,
        } = self;
    }
}

// What is so of every checked module; for the proof alone.
#[inline(always)]
fn is_checked(checked: &Checked)
    ensures { IsChecked checked.now }
{
    let _ = checked.module().tables();
    let _ = checked.notes();
}

impl Machine {
    /// A machine for the module, with the module's first store, which is also the image.
    ///
    /// # Errors
    ///
    /// `AllocError` where there is no memory for its room.
    pub fn new(alloc: Global, checked: Arc<Checked>) -> Result<Machine, AllocError>
        ensures { IfOk result (λ m. m ≡ first_machine (arc_value checked).content) }
    {
        is_checked(&checked);
        let Ok(shapes) = shapes_of(alloc, checked.module()) else {
            return Err(AllocError);
        };
        let Ok(records) = records_of(alloc, checked.module()) else {
            return Err(AllocError);
        };
        let widest = widest_frame(shapes.as_slice(), checked.notes());
        let Ok(slots) = vec![in alloc; 0; MOST_FRAMES * widest] else {
            return Err(AllocError);
        };
        let Ok(waiting) = Vec::with_capacity(alloc, MOST_FRAMES) else {
            return Err(AllocError);
        };
        let Ok(shared) = checked.clone() else {
            return Err(AllocError);
        };
        let Ok(store) = Store::new(alloc, shared) else {
            return Err(AllocError);
        };
        Ok(Machine {
            checked,
            store,
            shapes,
            records,
            slots,
            waiting,
        })
    }

    /// The module has this to be called.
    pub fn has(&self, export: Export) -> bool
        ensures { IsTrue result ↔ IsSome (called_function (module_of self.now.content) export) }
    {
        function_of(&self.checked, export).is_some()
    }

    /// Does nothing: it promises what is so of every machine.
    pub fn always_fits(&self)
        ensures store { StoreFits (module_of self.now.content) self.now.store }
        ensures image { StoreFits (module_of self.now.content) self.now.image }
    {
        self.store.always_fits();
    }

    /// Calls it, with so much fuel. The store changes as the call says, also where it is cut off. A
    /// start function is given no record.
    pub fn invoke<H: Host>(&mut self, export: Export, host: &H, fuel: u64) -> Outcome
        requires { IsSome (called_function (module_of self.old.content) export) }
        ensures calls { Calls self.old export (H.records host.now) fuel result self.new }
        ensures result { ResultFits (result_type export) result }
    {
        is_checked(&self.checked);
        let function = function_of(&self.checked, export).unwrap();
        let code = Code {
            module: self.checked.module(),
            notes: self.checked.notes(),
            shapes: self.shapes.as_slice(),
            records: self.records.as_slice(),
        };
        let during = During { host, export };
        invoke(
            &code,
            &during,
            &mut self.store,
            &mut self.waiting,
            self.slots.as_mut_slice(),
            export,
            function as usize,
            fuel,
        )
    }

    /// Makes the store the image.
    pub fn keep(&mut self)
        ensures { self.new ≡ record self.old { image = self.old.store } }
    {
        self.store.keep();
    }

    /// Brings the image back. It copies stretches of 256 bytes of the memory that were written
    /// since the image was kept, and globals or table where one of them was.
    pub fn reset(&mut self)
        ensures { self.new ≡ record self.old { store = self.old.image } }
    {
        self.store.reset();
    }

    /// How many element segments the module has.
    pub fn element_segment_count(&self) -> usize
        ensures { result ≡ length (module_of self.now.content).element_segments }
    {
        self.store.element_segment_count()
    }

    /// How many data segments the module has.
    pub fn data_segment_count(&self) -> usize
        ensures { result ≡ length (module_of self.now.content).data_segments }
    {
        self.store.data_segment_count()
    }

    /// Whether all of this element segment lies within the table.
    pub fn fits_elements(&self, segment: usize) -> bool
        requires { segment < length (module_of self.now.content).element_segments }
        ensures { (s : ElementSyntax) → slice_get (module_of self.now.content).element_segments segment ≡ Some s →
            IsTrue result ↔ ElementsFit s self.now.store }
    {
        self.store.fits_elements(segment)
    }

    /// Writes this element segment's functions into the table.
    pub fn put_elements(&mut self, segment: usize)
        requires there { segment < length (module_of self.old.content).element_segments }
        requires in_bounds { (s : ElementSyntax) → slice_get (module_of self.old.content).element_segments segment
            ≡ Some s → ElementsFit s self.old.store }
        ensures { (s : ElementSyntax) → slice_get (module_of self.old.content).element_segments segment ≡ Some s
            → self.new ≡ record self.old { store = with_elements s self.old.store } }
    {
        self.store.put_elements(segment);
    }

    /// Whether all of this data segment lies within the memory.
    pub fn fits_data(&self, segment: usize) -> bool
        requires { segment < length (module_of self.now.content).data_segments }
        ensures { (s : DataSyntax) → slice_get (module_of self.now.content).data_segments segment ≡ Some s →
            IsTrue result ↔ DataFits s self.now.store }
    {
        self.store.fits_data(segment)
    }

    /// Writes this data segment's bytes into the memory.
    pub fn put_data(&mut self, segment: usize)
        requires there { segment < length (module_of self.old.content).data_segments }
        requires in_bounds { (s : DataSyntax) → slice_get (module_of self.old.content).data_segments segment ≡ Some s →
            DataFits s self.old.store }
        ensures { (s : DataSyntax) → slice_get (module_of self.old.content).data_segments segment ≡ Some s
            → self.new ≡ record self.old { store = with_data s self.old.store } }
    {
        self.store.put_data(segment);
    }
}
