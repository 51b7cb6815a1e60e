//! The steps that make a module an instance (WebAssembly Core 1.0, 4.5.4).
ghost use Rattle.std.specs.Prelude.{◌≡◌, All, Any, Err, MatchBool, MatchResult, None};
ghost use Rattle.wmodule.specs.Syntax.{module_of};
ghost use Rattle.wstore.specs.Segments.{ElementsFit, DataFits};
ghost use Rattle.whost.specs.Image.{InBounds, with_segments, with_all_elements, with_all_data, Started};
ghost use Rattle.whost.specs.Refused.{BoundsRefused, StartRefused};

use crate::fault::InstanceFault;
use crate::records::Records;
use crate::sight::{Shows, Sight};
use wmach::{Export, Machine, Outcome};

// Whether each element segment lies within the table.
fn elements_fit(machine: &Machine) -> bool
    ensures { MatchBool result (All (λ s. ElementsFit s machine.now.store)
        (module_of machine.now.content).element_segments)
        (Any (λ s. ¬ (ElementsFit s machine.now.store)) (module_of machine.now.content).element_segments) }
{
    for segment in 0..machine.element_segment_count() {
        if !machine.fits_elements(segment) {
            return false;
        }
    }
    true
}

// Whether each data segment lies within the memory.
fn data_fits(machine: &Machine) -> bool
    ensures { MatchBool result (All (λ s. DataFits s machine.now.store) (module_of machine.now.content).data_segments)
        (Any (λ s. ¬ (DataFits s machine.now.store)) (module_of machine.now.content).data_segments) }
{
    for segment in 0..machine.data_segment_count() {
        if !machine.fits_data(segment) {
            return false;
        }
    }
    true
}

/// Tests the bounds of all element segments, and then those of all data segments.
pub fn test_bounds(machine: &Machine) -> Result<(), InstanceFault>
    ensures { MatchResult result (λ _. InBounds (module_of machine.now.content) machine.now.store)
        (BoundsRefused (module_of machine.now.content) machine.now.store) }
{
    if !elements_fit(machine) {
        return Err(InstanceFault::ElementOutOfBounds);
    }
    if !data_fits(machine) {
        return Err(InstanceFault::DataOutOfBounds);
    }
    Ok(())
}

/// Writes all segments, the element segments first.
pub fn write_segments(machine: &mut Machine)
    requires { InBounds (module_of machine.old.content) machine.old.store }
    ensures { machine.new ≡ record machine.old {
      store = with_segments (module_of machine.old.content)
          machine.old.store;
    } }
{
    write_elements(machine);
    write_data(machine);
}

// Writes the element segments, one after the other.
fn write_elements(machine: &mut Machine)
    requires { All (λ s. ElementsFit s machine.old.store) (module_of machine.old.content).element_segments }
    ensures { machine.new ≡ record machine.old {
      store = with_all_elements
          (module_of machine.old.content).element_segments machine.old.store;
    } }
{
    for segment in 0..machine.element_segment_count() {
        machine.put_elements(segment);
    }
}

// Writes the data segments, one after the other.
fn write_data(machine: &mut Machine)
    requires { All (λ s. DataFits s machine.old.store) (module_of machine.old.content).data_segments }
    ensures { machine.new ≡ record machine.old {
      store = with_all_data (module_of machine.old.content).data_segments
          machine.old.store;
    } }
{
    for segment in 0..machine.data_segment_count() {
        machine.put_data(segment);
    }
}

/// Calls the start function, if there is one, with so much fuel.
pub fn start(machine: &mut Machine, fuel: u64) -> Result<(), InstanceFault>
    ensures stays { machine.new ≡ record machine.old { store = machine.new.store } }
    ensures ends { MatchResult result (λ _. Started (module_of machine.old.content)
        (module_of machine.old.content).start machine.old.store fuel machine.new.store)
        (StartRefused (module_of machine.old.content) machine.old.store fuel) }
{
    if !machine.has(Export::Start) {
        return Ok(());
    }
    let sight = Sight {
        records: &Records::new(),
        shows: Shows::ThisPod,
    };
    match machine.invoke(Export::Start, &sight, fuel) {
        Outcome::Value(_, _) => Ok(()),
        Outcome::Trap(trap, _) => Err(InstanceFault::StartTrap(trap)),
        Outcome::Exhausted(_) => Err(InstanceFault::StartExhausted),
    }
}
