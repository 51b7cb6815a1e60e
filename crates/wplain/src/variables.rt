//! The parametric and the variable instructions (WebAssembly Core 1.0, 4.4.2 and 4.4.3), and
//! branches that ask.

ghost use Rattle.std.specs.Prelude.{◌≡◌, ◌==◌, List, IfOk, if◌then◌else◌};
ghost use Rattle.wcode.specs.Syntax.{plain};
ghost use Rattle.wmach.specs.Configuration.{Setting as machine_setting, Store as machine_store, instructions, leads_to};
ghost use Rattle.wcode.specs.declared.value.Value.{Value as one_value};
ghost use Rattle.wcode.specs.declared.instruction.Plain.TheVariants as instruction;
ghost use Rattle.wmach.specs.Variables.{reduce_drop, reduce_select, reduce_local_get, reduce_local_set, reduce_local_tee, reduce_global_get, reduce_global_set};
ghost use Rattle.wmach.specs.Plain.{reduce_plain as defined_plain};
ghost use Rattle.wplain.specs.Seen.{body_of_code};
ghost use Rattle.wplain.specs.inside.Seen.{moved};
ghost use Rattle.wplain.specs.Stores.{store_of};
ghost use Rattle.wplain.specs.inside.Done.{DoneBy};

use crate::code::Code;
use crate::execution::{Effect, Move, Next, Write, quiet};
use crate::numeric::Worked;
use crate::stop::Stop;
use crate::store::Store;
use crate::values::{pop_any, pop_i32, push};
use wcode::{Plain, Value};

// drop
pub fn drop_one(values: &mut Vec<Value>) -> Result<Worked, Stop>
    ensures { IfOk result (DoneBy (λ store locals values rest. reduce_drop store locals values rest) values.old.items
        values.new.items) }
{
    let _dropped = pop_any(values)?;
    Ok(Worked::Values)
}

// select
pub fn select(values: &mut Vec<Value>) -> Result<Worked, Stop>
    ensures { IfOk result (DoneBy (λ store locals values rest. reduce_select store locals values rest) values.old.items
        values.new.items) }
{
    let condition = pop_i32(values)?;
    let second = pop_any(values)?;
    let first = pop_any(values)?;
    push(values, if condition == 0 { second } else { first })?;
    Ok(Worked::Values)
}

// local.get x
pub fn local_get<'a>(
    locals: &[Value],
    values: &mut Vec<Value>,
    x: u32,
    rest: &'a Code,
) -> Result<Move<'a>, Stop>
    ensures { (store : machine_store) → IfOk result (λ m. reduce_local_get store locals.now values.old.items x
        (body_of_code rest.now) ≡ moved store locals.now values.new.items m) }
{
    let v = *locals.get(x as usize).ok_or(Stop::Stuck)?;
    push(values, v)?;
    Ok(quiet(1, Next::Code(rest)))
}

// local.set x
pub fn local_set<'a>(
    locals: &mut Vec<Value>,
    values: &mut Vec<Value>,
    x: u32,
    rest: &'a Code,
) -> Result<Move<'a>, Stop>
    ensures { (store : machine_store) → IfOk result (λ m. reduce_local_set store locals.old.items values.old.items x
        (body_of_code rest.now) ≡ moved store locals.new.items values.new.items m) }
{
    let v = pop_any(values)?;
    let place = x as usize;
    if place >= locals.len() {
        return Err(Stop::Stuck);
    }
    locals[place] = v;
    Ok(quiet(1, Next::Code(rest)))
}

// local.tee x
pub fn local_tee<'a>(values: &mut Vec<Value>, x: u32, rest: &'a Code) -> Result<Move<'a>, Stop>
    ensures { (store : machine_store) (locals : List one_value) →
        IfOk result (λ m. reduce_local_tee store locals values.old.items x (body_of_code rest.now)
        ≡ moved store locals values.new.items m) }
{
    let v = pop_any(values)?;
    push(values, v)?;
    push(values, v)?;
    Ok(quiet(1, Next::Plain(Plain::LocalSet(x), rest)))
}

// global.get x
pub fn global_get<'a>(
    store: &Store,
    values: &mut Vec<Value>,
    x: u32,
    rest: &'a Code,
) -> Result<Move<'a>, Stop>
    ensures { (locals : List one_value) → IfOk result (λ m. reduce_global_get (store_of store.now) locals
        values.old.items x (body_of_code rest.now) ≡ moved (store_of store.now) locals values.new.items m) }
{
    let v = *store.globals.get(x as usize).ok_or(Stop::Stuck)?;
    push(values, v)?;
    Ok(quiet(1, Next::Code(rest)))
}

// global.set x
pub fn global_set<'a>(
    store: &Store,
    values: &mut Vec<Value>,
    x: u32,
    rest: &'a Code,
) -> Result<Move<'a>, Stop>
    ensures { (locals : List one_value) → IfOk result (λ m. reduce_global_set (store_of store.now) locals
        values.old.items x (body_of_code rest.now) ≡ moved (store_of store.now) locals values.new.items m) }
{
    let v = pop_any(values)?;
    let place = x as usize;
    if place >= store.globals.len() {
        return Err(Stop::Stuck);
    }
    let write = Write::Global(place, v);
    let effect = Effect { cost: 1, write };
    Ok(Move {
        effect,
        next: Next::Code(rest),
    })
}

// On by a branch, unless the condition is zero.
fn branch_where<'a>(condition: u32, l: u32, rest: &'a Code) -> Move<'a>
    ensures { (store : machine_store) (locals values : List one_value) → (if condition == 0
        then leads_to 1 store locals (instructions values (body_of_code rest.now))
        else leads_to 1 store locals (instructions values (plain (instruction.Br l) (body_of_code rest.now)))) ≡ moved store locals values result }
{
    if condition == 0 {
        quiet(1, Next::Code(rest))
    } else {
        quiet(1, Next::Plain(Plain::Br(l), rest))
    }
}

// br_if l
pub fn br_if<'a>(values: &mut Vec<Value>, l: u32, rest: &'a Code) -> Result<Move<'a>, Stop>
    ensures { (setting : machine_setting) (store : machine_store) (locals : List one_value)
        → IfOk result (λ m. defined_plain setting store locals values.old.items
        (instruction.BrIf l) (body_of_code rest.now) ≡ moved store locals values.new.items m) }
{
    let condition = pop_i32(values)?;
    Ok(branch_where(condition, l, rest))
}
