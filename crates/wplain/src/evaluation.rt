//! A call, one reduction after the other.

ghost use Rattle.std.specs.Prelude.{◌≡◌, ◌≤◌, Ok, IfOk, IfSome};
ghost use Rattle.wmach.specs.Configuration.{Store as machine_store};
ghost use Rattle.wmach.specs.Outcome.{call_of, HasOutcome};
ghost use Rattle.wcode.specs.Syntax.{done};
ghost use Rattle.wplain.specs.Seen.{setting_of, body_of_code};
ghost use Rattle.wplain.specs.Stores.{store_of};
ghost use Rattle.wplain.specs.inside.Running.{configuration_of, EndsAs, Goes};

use crate::code::Code;
use crate::execution::{Execution, Next, Place};
use crate::reduce::reduce;
use crate::setting::Setting;
use crate::stop::Stop;
use crate::store::{Store, apply};
use std::alloc::{AllocError, Global};
use wcode::Value;
use wmach::Outcome;

/// Where a call stands, and what it has cost.
#[derive(Drop)]
pub struct Running<'a> {
    pub locals: Vec<Value>,
    pub execution: Execution<'a>,
    pub cost: u64,
}

// The outcome, where the call has ended.
fn end_of(running: &Running<'_>) -> Option<Outcome>
    ensures { IfSome result (EndsAs running.now) }
{
    if !running.locals.is_empty() {
        return None;
    }
    match &running.execution {
        Execution::Here(place) => match place.next {
            Next::Code(Code::Done) => match place.values.as_slice() {
                [] => Some(Outcome::Value(None, running.cost)),
                [v] => Some(Outcome::Value(Some(*v), running.cost)),
                _ => None,
            },
            Next::Trap(why) => Some(Outcome::Trap(why, running.cost)),
            _ => None,
        },
        _ => None,
    }
}

// The outcome, if the call has ended or the fuel is used up, and else one reduction more.
#[tactic(auto, using(crate::proofs::Reached::ends_now))]
fn advance<'a>(
    alloc: Global,
    setting: &'a Setting,
    store: &mut Store,
    fuel: u64,
    running: &mut Running<'a>,
) -> Result<Option<Outcome>, Stop>
    requires { running.old.cost ≤ fuel }
    ensures { IfOk result (Goes (setting_of setting.now) fuel (store_of store.old) running.old (store_of store.new)
        running.new) }
{
    if let Some(outcome) = end_of(running) {
        return Ok(Some(outcome));
    }
    let effect = reduce(
        alloc,
        setting,
        0,
        store,
        &mut running.locals,
        &mut running.execution,
    )?;
    if effect.cost > fuel - running.cost {
        return Ok(Some(Outcome::Exhausted(running.cost)));
    }
    if !apply(store, effect.write) {
        return Err(Stop::Stuck);
    }
    running.cost += effect.cost;
    Ok(None)
}

// A call of the function, with no arguments, and nothing behind it.
fn called(alloc: Global, function: u32, rest: &Code) -> Running<'_>
    requires { body_of_code rest.now ≡ done }
    ensures place { (store : machine_store) → configuration_of store result ≡ call_of store function }
    ensures cost { result.cost ≡ 0 }
{
    let place = Place {
        values: Vec::new(alloc),
        next: Next::Call(function, rest),
    };
    Running {
        locals: Vec::new(alloc),
        execution: Execution::Here(place),
        cost: 0,
    }
}

// The outcome of a call that stands at its beginning. It stops where the call gets stuck, and after
// so many reductions.
#[tactic(auto, using(crate::proofs::Reached::reached_first))]
fn outcome_of<'a>(
    alloc: Global,
    setting: &'a Setting,
    store: &mut Store,
    function: u32,
    fuel: u64,
    most: u64,
    running: &mut Running<'a>,
) -> Result<Outcome, Stop>
    requires place { (store : machine_store) → configuration_of store running.old ≡ call_of store function }
    requires cost { running.old.cost ≡ 0 }
    ensures { IfOk result (λ outcome. HasOutcome (setting_of setting.now) (store_of store.old) function fuel outcome
        (store_of store.new)) }
{
    for _i in 0..most {
        if let Some(outcome) = advance(alloc, setting, store, fuel, running)? {
            return Ok(outcome);
        }
    }
    Err(Stop::Stuck)
}

// The outcome, or nothing where the call got stuck.
fn told(outcome: Result<Outcome, Stop>) -> Result<Option<Outcome>, AllocError>
    ensures { IfOk result (λ o. IfSome o (λ given. outcome ≡ Ok given)) }
{
    match outcome {
        Ok(outcome) => Ok(Some(outcome)),
        Err(Stop::Stuck) => Ok(None),
        Err(Stop::NoMemory) => Err(AllocError),
    }
}

/// The outcome of a call of the function with this index, by the definition, with so much fuel; the
/// store is left as the call leaves it. It gives up where the call gets stuck, and after so many
/// reductions.
pub fn evaluate(
    alloc: Global,
    setting: &Setting,
    store: &mut Store,
    function: u32,
    fuel: u64,
    most: u64,
) -> Result<Option<Outcome>, AllocError>
    ensures { IfOk result (λ o. IfSome o (λ outcome. HasOutcome (setting_of setting.now) (store_of store.old) function
        fuel outcome (store_of store.new))) }
{
    let rest = Code::Done;
    let mut running = called(alloc, function, &rest);
    let outcome = outcome_of(alloc, setting, store, function, fuel, most, &mut running);
    told(outcome)
}
