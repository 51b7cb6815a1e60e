//! A call from its beginning to its outcome.

ghost use Rattle.std.specs.Prelude.{◌≡◌, ℕ, ◌<◌, ◌≤◌, Option, Some, length, slice_get, vec_capacity};
ghost use Rattle.wcode.specs.declared.value.Value.{Value as TheValue};
ghost use Rattle.wmodule.specs.Syntax.{module_of};
ghost use Rattle.wstore.specs.State.{StoreState};
ghost use Rattle.wmach.specs.Call.{called_function, result_type, ResultFits};
ghost use Rattle.wmach.specs.inside.Coded.{IsCoded};
ghost use Rattle.wmach.specs.Configuration.{Store as TheStore};
ghost use Rattle.wmach.specs.inside.Known.{IsChecked};
ghost use Rattle.wmach.specs.inside.Kept.{HasSlots, Begun, HoldsResult, IsCallOf, setting_of};
ghost use Rattle.wmach.specs.declared.shape.Shape.{Shape as TheShape};
ghost use Rattle.wmach.specs.Outcome.{HasOutcome};
ghost use Rattle.wmach.specs.Reduction.{most_frames};
ghost use Rattle.wmach.specs.inside.Running.{Run, Stops};

use crate::activation::Activation;
use crate::calls::push_zeros;
use crate::code::Code;
use crate::export::Export;
use crate::host::Host;
use crate::outcome::Outcome;
use crate::run::run;
use crate::state::{State, Stop, slot};
use wcode::Value;
use wstore::Store;

// At the beginning of a function that takes nothing, by its place among those of the module: its
// locals are zeros.
fn begin(code: &Code<'_>, slots: &mut [u64], function: usize, fuel: u64) -> State
    requires there { function < length code.now.shapes.now }
    requires room { (shape : TheShape) → slice_get code.now.shapes.now function ≡ Some shape →
        shape.locals ≤ length slots.old }
    ensures begun { Begun code.now function fuel result slots.new }
    ensures long { length slots.new ≡ length slots.old }
{
    let shape = code.shapes[function];
    let top = push_zeros(slots, 0, shape.locals);
    State {
        function,
        at: shape.begin,
        cursor: 0,
        base: 0,
        operands: top,
        top,
        left: fuel,
        end: shape.end,
    }
}

// What a call gave: it is the lowest slot.
fn result_of(slots: &[u64], export: Export) -> Option<Value>
    requires { (found : Option TheValue) × HoldsResult slots.now (result_type export) found }
    ensures { (found : Option TheValue) → HoldsResult slots.now (result_type export) found → result ≡ found }
{
    match export {
        Export::Filter => Some(Value::I32(slot(slots, 0) as u32)),
        Export::Score => Some(Value::I64(slot(slots, 0))),
        Export::Start => None,
    }
}

// The outcome of a call that stopped, by what was left of its fuel.
fn outcome_of(slots: &[u64], export: Export, fuel: u64, how: Stop) -> Outcome
    requires { (r : Run) × (before : TheStore) × (function : ℕ) × (store : StoreState) ×
        IsCallOf r before export function fuel × Stops r how slots.now store }
    ensures outcome { (r : Run) (before : TheStore) (function : ℕ) (store : StoreState) →
        IsCallOf r before export function fuel
        → Stops r how slots.now store → HasOutcome r.setting before function fuel result store.current }
    ensures fits { ResultFits (result_type export) result }
{
    match how {
        Stop::Exhausted(left) => Outcome::Exhausted(fuel - left),
        Stop::Trap(trap, left) => Outcome::Trap(trap, fuel - left),
        Stop::Ended(left) => Outcome::Value(result_of(slots, export), fuel - left),
    }
}

/// Calls a function of the module that is an export, by its index.
pub fn invoke<H: Host>(
    code: &Code<'_>,
    host: &H,
    store: &mut Store,
    waiting: &mut Vec<Activation>,
    slots: &mut [u64],
    export: Export,
    function: usize,
    fuel: u64,
) -> Outcome
    requires checked { IsChecked store.old.checked }
    requires coded { IsCoded code.now store.old.checked }
    requires room { most_frames ≤ vec_capacity waiting.old }
    requires slots { HasSlots store.old.checked slots.old }
    requires there { called_function (module_of store.old.checked.content) export ≡ Some function }
    ensures ends { HasOutcome (setting_of store.old.checked (H.records host.now))
        store.old.current function fuel result store.new.current }
    ensures fits { ResultFits (result_type export) result }
    ensures checked { store.new.checked ≡ store.old.checked }
    ensures image { store.new.image ≡ store.old.image }
    ensures long { length slots.new ≡ length slots.old }
    ensures room { most_frames ≤ vec_capacity waiting.new }
{
    let place = function - code.records.len();
    waiting.clear();
    let first = begin(code, slots, place, fuel);
    store.always_fits();
    let how = run(code, host, store, waiting, slots, first);
    outcome_of(slots, export, fuel, how)
}
