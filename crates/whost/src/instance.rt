//! An instance: a module that is ready to be called.
ghost use Rattle.std.specs.Prelude.{◌≡◌, ◌≢◌, ◌≤◌, ◌↔◌, IfErr, IfOk, IfSome, IsSome, IsTrue};
ghost use Rattle.std.specs.Arc.{arc_value};
ghost use Rattle.wmodule.specs.Syntax.{module_of};
ghost use Rattle.wstore.specs.Fits.{StoreFits};
ghost use Rattle.wmach.specs.Call.{called_function, first_machine, result_type, ResultFits};
ghost use Rattle.wmach.specs.Outcome.{cost_of};
ghost use Rattle.whost.specs.Image.{IsImage};
ghost use Rattle.whost.specs.Refused.{WhyRefused};
ghost use Rattle.whost.specs.Calls.{CallsFromImage};
ghost use Rattle.whost.specs.Handed.{LookAlike};
ghost use Rattle.whost.specs.declared.records.Records.{Records};
ghost use Rattle.whost.specs.declared.records.Versions.{Versions};
ghost use Rattle.whost.specs.inside.Sight.{wants_record};

use crate::fault::InstanceFault;
use crate::instantiation::{start, test_bounds, write_segments};
use crate::records::Records;
use crate::sight::{Shows, Sight};
use std::alloc::Global;
use std::marker::Model;
use std::sync::Arc;
use wmach::{Export, Machine, Outcome, Trap};
use wtype::Checked;

/// An accepted module with its segments written and its start function run. What its store was then
/// is the image, from which each call begins. It takes all its room when it is made; after that no
/// call allocates.
pub struct Instance {
    machine: Machine,
}

impl Model for Instance {
    ghost use Rattle.std.specs.Coded.{codes};
    ghost use Rattle.wmach.specs.Call.{MachineState};

    ghost Value = { MachineState };

    ghost coded = { Prim.hlevel codes };

    ghost view = { λ instance. instance.machine };
}

// By hand, so that who drops an instance calls this, and its parts' drops are proved here alone.
impl Drop for Instance {
    fn drop(self) {
        let Self { machine: _machine } = self;
    }
}

// Whether a call was cut off for want of a record.
fn wants_record(outcome: Outcome) -> bool
    ensures { result ≡ wants_record outcome }
{
    matches!(outcome, Outcome::Trap(Trap::NoRecord, _))
}

// Writes the segments of a new machine, runs its start function and keeps what its store is then. It
// borrows the machine, which is dropped where one of these fails, so that the drop is proved once.
fn instantiate(machine: &mut Machine, fuel: u64) -> Result<(), InstanceFault>
    requires { machine.old ≡ first_machine machine.old.content }
    ensures content { machine.new.content ≡ machine.old.content }
    ensures image { IfOk result (λ _. IsImage (module_of machine.old.content) fuel machine.new.image) }
    ensures store { IfOk result (λ _. machine.new.store ≡ machine.new.image) }
    ensures refused { IfErr result (WhyRefused (module_of machine.old.content) fuel) }
{
    match test_bounds(machine) {
        Ok(()) => {}
        Err(fault) => return Err(fault),
    }
    write_segments(machine);
    match start(machine, fuel) {
        Ok(()) => {
            machine.keep();
            Ok(())
        }
        Err(fault) => Err(fault),
    }
}

impl Instance {
    /// An instance of the module, whose start function has so much fuel. The bounds of all element
    /// segments are tested, then those of all data segments, and only then anything is written.
    ///
    /// # Errors
    ///
    /// The first of the module's parts that fails, or `NoMemory` where there is no memory for its
    /// room.
    pub fn new(alloc: Global, checked: Arc<Checked>, fuel: u64) -> Result<Instance, InstanceFault>
        ensures content { IfOk result (λ i. i.content ≡ (arc_value checked).content) }
        ensures image { IfOk result (λ i. IsImage (module_of (arc_value checked).content) fuel i.image) }
        ensures store { IfOk result (λ i. i.store ≡ i.image) }
        ensures refused { IfErr result (WhyRefused (module_of (arc_value checked).content) fuel) }
    {
        let Ok(mut machine) = Machine::new(alloc, checked) else {
            return Err(InstanceFault::NoMemory);
        };
        match instantiate(&mut machine, fuel) {
            Ok(()) => Ok(Instance { machine }),
            Err(fault) => Err(fault),
        }
    }

    /// The module has this to be called.
    pub fn has(&self, export: Export) -> bool
        ensures { IsTrue result ↔ IsSome (called_function (module_of self.now.content) export) }
    {
        self.machine.has(export)
    }

    /// Calls it, from the image, with these records and so much fuel. What earlier calls wrote is
    /// gone.
    pub fn call(&mut self, records: &Records, export: Export, fuel: u64) -> Outcome
        requires there { IsSome (called_function (module_of self.old.content) export) }
        requires by_name { export ≢ Export.Start }
        ensures calls { CallsFromImage self.old export records.now fuel result self.new }
        ensures result { ResultFits (result_type export) result }
        ensures cost { cost_of result ≤ fuel }
        ensures stays { self.new ≡ record self.old { store = self.new.store } }
    {
        wmach::cost_within_fuel();
        self.reset();
        let sight = Sight {
            records,
            shows: Shows::All,
        };
        self.machine.invoke(export, &sight, fuel)
    }

    /// Calls it likewise, but hands over of the records only what is shown: where it asks for
    /// another one, there is no outcome. Else the outcome is that of its calls with all records
    /// that look alike.
    pub fn call_shown(
        &mut self,
        records: &Records,
        shows: Shows,
        export: Export,
        fuel: u64,
    ) -> Option<Outcome>
        requires there { IsSome (called_function (module_of self.old.content) export) }
        requires by_name { export ≢ Export.Start }
        ensures calls { IfSome result (λ outcome. (other : Records) → LookAlike shows records.now other →
            CallsFromImage self.old export other fuel outcome self.new) }
        ensures result { IfSome result (ResultFits (result_type export)) }
        ensures stays { self.new ≡ record self.old { store = self.new.store } }
    {
        self.machine.reset();
        let sight = Sight { records, shows };
        let outcome = self.machine.invoke(export, &sight, fuel);
        if wants_record(outcome) {
            return None;
        }
        Some(outcome)
    }

    /// Makes the store the image again.
    pub fn reset(&mut self)
        ensures { self.new ≡ record self.old { store = self.old.image } }
    {
        self.machine.reset();
    }

    /// Does nothing: it promises what is so of every instance.
    pub fn always_fits(&self)
        ensures store { StoreFits (module_of self.now.content) self.now.store }
        ensures image { StoreFits (module_of self.now.content) self.now.image }
    {
        self.machine.always_fits();
    }
}
