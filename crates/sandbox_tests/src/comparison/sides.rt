//! A call of a module, made by the machine and by the plain evaluator of the definition.

use crate::comparison::definition::{first_globals, first_store, setting_of};
use std::alloc::Global;
use std::panic::Expect;
use std::process::Abort;
use std::sync::Arc;
use wbin::decode;
use wcode::Value;
use wmach::{Export, Host, Machine, Outcome};
use wmem::{Load, PAGE_SIZE};
use wplain::{Setting, Store, evaluate};
use wtype::{Checked, validate};

const MEMORY: &str = "there is memory";

/// How a call ended: the number of its trap, or 0 for a value, `EXHAUSTED` and `NOTHING`; the
/// value; the cost.
pub type Ended = (u8, u64, u64);

pub const EXHAUSTED: u8 = 100;

/// There is no such function, or nothing is answered.
pub const NOTHING: u8 = 101;

/// More than any call here costs that ends, and more reductions than the plain evaluator takes
/// then.
pub const AMPLE: u64 = 20_000;

// Enough for `score`, which goes over the whole memory.
const SCORE_FUEL: u64 = 100_000_000;

fn told(outcome: Outcome) -> Ended {
    match outcome {
        Outcome::Value(None, cost) => (0, 0, cost),
        Outcome::Value(Some(Value::I32(n)), cost) => (0, u64::from(n), cost),
        Outcome::Value(Some(Value::I64(n)), cost) => (0, n, cost),
        Outcome::Trap(why, cost) => (why.number(), 0, cost),
        Outcome::Exhausted(cost) => (EXHAUSTED, 0, cost),
    }
}

// The record of a pod that is handed over; there is none of a node.
const POD: &[u8] = &[7; 257];

#[derive(Clone, Copy)]
struct PodAlone<'a>(&'a [u8]);

impl Host for PodAlone<'_> {
    ghost use Rattle.sandbox_tests.specs.inside.Records.{pod_alone};

    ghost records = { λ handed. pod_alone handed.0.now };

    fn record(&self, import: usize) -> Option<&[u8]> {
        if import == 0 { Some(self.0) } else { None }
    }
}

// The same for the definition; a start function is given none.
fn record_for<R: Abort>(rt: &R, alloc: Global, export: Export) -> Option<Vec<u8>> {
    match export {
        Export::Start => None,
        _ => Some(Vec::from_slice(alloc, POD).expect(rt, MEMORY)),
    }
}

/// A call that the machine makes.
pub fn invoked(machine: &mut Machine, export: Export, fuel: u64) -> Ended {
    if machine.has(export) {
        told(machine.invoke(export, &PodAlone(POD), fuel))
    } else {
        (NOTHING, 0, 0)
    }
}

/// Writes the element segment, if it is in bounds.
pub fn put_elements(machine: &mut Machine) {
    if machine.element_segment_count() > 0 && machine.fits_elements(0) {
        machine.put_elements(0);
    }
}

/// Writes the data segment, if it is in bounds.
pub fn put_data(machine: &mut Machine) {
    if machine.data_segment_count() > 0 && machine.fits_data(0) {
        machine.put_data(0);
    }
}

fn checked<R: Abort>(rt: &R, alloc: Global, bytes: &[u8]) -> Checked {
    let module = decode(alloc, bytes).expect(rt, "a module");
    validate(alloc, module).expect(rt, "a module of the profile")
}

fn machine_of<R: Abort>(rt: &R, alloc: Global, checked: Checked) -> Machine {
    let checked = Arc::new(alloc, checked).expect(rt, MEMORY);
    Machine::new(alloc, checked).expect(rt, MEMORY)
}

/// A machine for the module that bytes spell.
pub fn machine<R: Abort>(rt: &R, alloc: Global, bytes: &[u8]) -> Machine {
    machine_of(rt, alloc, checked(rt, alloc, bytes))
}

/// The machine beside the definition, each with the first store of one module.
#[derive(Drop)]
pub struct Sides {
    alloc: Global,
    machine: Machine,
    setting: Setting,
    store: Store,
    // the first values of the globals
    globals: Vec<Value>,
    export: Export,
    function: u32,
}

// The next joins a digest.
fn join(digest: u64, next: u64) -> u64 {
    digest.rotate_left(7) ^ next
}

// What `score` is to tell of a store: each i64 of the memory, each global and the number of pages,
// joined to a digest.
fn digest_of(store: &Store) -> u64 {
    let pages = store.memory.size();
    let mut digest = 0;
    for i in 0..pages * (PAGE_SIZE as u32 / 8) {
        digest = join(digest, store.memory.load(i * 8, 0, Load::I64).unwrap_or(0));
    }
    for global in &store.globals {
        digest = match *global {
            Value::I32(number) => join(digest, u64::from(number)),
            Value::I64(number) => join(digest, number),
        };
    }
    join(digest, u64::from(pages))
}

impl Sides {
    /// Both for calls of this export of the module that bytes spell, whose store has the module's
    /// segments or none of them.
    pub fn new<R: Abort>(
        rt: &R,
        alloc: Global,
        bytes: &[u8],
        export: Export,
        segments: bool,
    ) -> Sides {
        let checked = checked(rt, alloc, bytes);
        let module = checked.module();
        let function = match export {
            Export::Filter => checked.filter(),
            Export::Score => checked.score(),
            Export::Start => module.tables().start,
        };
        let function = function.expect(rt, "there is such a function");
        let setting = setting_of(rt, alloc, module, record_for(rt, alloc, export));
        let store = first_store(rt, alloc, module, segments);
        let globals = first_globals(rt, alloc, module);
        let mut machine = machine_of(rt, alloc, checked);
        if segments {
            put_elements(&mut machine);
            put_data(&mut machine);
            machine.keep();
        }
        Sides {
            alloc,
            machine,
            setting,
            store,
            globals,
            export,
            function,
        }
    }

    /// How the machine's call ends from the image.
    pub fn ends_by_machine(&mut self, fuel: u64) -> Ended {
        self.machine.reset();
        invoked(&mut self.machine, self.export, fuel)
    }

    /// The same by the definition, from the first store. Calls don't write the table.
    pub fn ends_by_definition<R: Abort>(&mut self, rt: &R, fuel: u64) -> Ended {
        self.store.memory.reset();
        self.store.globals = Vec::from_slice(self.alloc, self.globals.as_slice()).expect(
            rt, MEMORY,
        );
        let outcome = evaluate(
            self.alloc,
            &self.setting,
            &mut self.store,
            self.function,
            fuel,
            AMPLE,
        );
        match outcome.expect(rt, MEMORY) {
            Some(outcome) => told(outcome),
            None => (NOTHING, 0, 0),
        }
    }

    /// How the machine's call ends, and what `score` then tells of the store.
    pub fn by_machine(&mut self, fuel: u64) -> (Ended, u64) {
        let ended = self.ends_by_machine(fuel);
        let (_, digest, _) = invoked(&mut self.machine, Export::Score, SCORE_FUEL);
        (ended, digest)
    }

    /// The same by the definition.
    pub fn by_definition<R: Abort>(&mut self, rt: &R, fuel: u64) -> (Ended, u64) {
        let ended = self.ends_by_definition(rt, fuel);
        (ended, digest_of(&self.store))
    }
}
