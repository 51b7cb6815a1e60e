//! One reduction of an instruction without others inside it (WebAssembly Core 1.0, 4.4.1 to 4.4.5).

ghost use Rattle.std.specs.Prelude.{◌≡◌, List, IfOk};
ghost use Rattle.wcode.specs.declared.value.Value.{Value as one_value};
ghost use Rattle.wmach.specs.Configuration.{Setting as machine_setting, Store as machine_store};
ghost use Rattle.wmach.specs.Plain.{reduce_plain as defined_plain};
ghost use Rattle.wplain.specs.Seen.{setting_of, body_of_code};
ghost use Rattle.wplain.specs.inside.Seen.{moved};
ghost use Rattle.wplain.specs.Stores.{store_of};
ghost use Rattle.wplain.specs.inside.Done.{DoneBy};
ghost use Rattle.wcode.specs.declared.instruction.Plain.TheVariants.{Const};

use crate::calls::call_indirect;
use crate::code::Code;
use crate::execution::{Move, Next, quiet};
use crate::memory::{grow, load, size, store as store_number};
use crate::numeric::{Worked, binary, convert, relation, test, unary};
use crate::setting::Setting;
use crate::stop::Stop;
use crate::store::Store;
use crate::values::push;
use crate::variables::{
    br_if, drop_one, global_get, global_set, local_get, local_set, local_tee, select,
};
use wcode::{Plain, Value};
use wmach::Trap;

// An instruction that works on operands alone, and none of the others.
fn operands(values: &mut Vec<Value>, p: Plain) -> Result<Worked, Stop>
    ensures { IfOk result (λ w. (setting : machine_setting)
        → DoneBy (λ store locals values rest. defined_plain setting store locals values p rest) values.old.items values.new.items w) }
{
    match p {
        Plain::Drop => drop_one(values),
        Plain::Select => select(values),
        Plain::Unary(t, op) => unary(values, t, op),
        Plain::Binary(t, op) => binary(values, t, op),
        Plain::Test(t, op) => test(values, t, op),
        Plain::Relation(t, op) => relation(values, t, op),
        Plain::Convert(op) => convert(values, op),
        _ => Err(Stop::Stuck),
    }
}

// The same, as a reduction.
fn on_operands<'a>(values: &mut Vec<Value>, p: Plain, rest: &'a Code) -> Result<Move<'a>, Stop>
    ensures { (setting : machine_setting) (store : machine_store) (locals : List one_value)
        → IfOk result (λ m. defined_plain setting store locals values.old.items p (body_of_code rest.now) ≡ moved store locals values.new.items m) }
{
    match operands(values, p)? {
        Worked::Values => Ok(quiet(1, Next::Code(rest))),
        Worked::Cut(why) => Ok(quiet(1, Next::Trap(why))),
    }
}

// A constant joins the operands.
fn constant<'a>(values: &mut Vec<Value>, v: Value, rest: &'a Code) -> Result<Move<'a>, Stop>
    ensures { (setting : machine_setting) (store : machine_store) (locals : List one_value)
        → IfOk result (λ m. defined_plain setting store locals values.old.items (Const v) (body_of_code rest.now) ≡ moved store locals values.new.items m) }
{
    push(values, v)?;
    Ok(quiet(0, Next::Code(rest)))
}

/// One reduction of it.
pub fn reduce_plain<'a>(
    setting: &Setting,
    store: &Store,
    locals: &mut Vec<Value>,
    values: &mut Vec<Value>,
    p: Plain,
    rest: &'a Code,
) -> Result<Move<'a>, Stop>
    ensures { IfOk result (λ m. defined_plain (setting_of setting.now) (store_of store.now) locals.old.items
        values.old.items p
        (body_of_code rest.now) ≡ moved (store_of store.now) locals.new.items values.new.items m) }
{
    let program = &setting.program;
    match p {
        Plain::Unreachable => Ok(quiet(1, Next::Trap(Trap::Unreachable))),
        Plain::Nop => Ok(quiet(1, Next::Code(rest))),
        Plain::Br(_) | Plain::Return => Err(Stop::Stuck),
        Plain::BrIf(l) => br_if(values, l, rest),
        Plain::Call(function) => Ok(quiet(1, Next::Call(function, rest))),
        Plain::CallIndirect(x) => call_indirect(program, store, values, x, rest),
        Plain::LocalGet(x) => local_get(locals, values, x, rest),
        Plain::LocalSet(x) => local_set(locals, values, x, rest),
        Plain::LocalTee(x) => local_tee(values, x, rest),
        Plain::GlobalGet(x) => global_get(store, values, x, rest),
        Plain::GlobalSet(x) => global_set(store, values, x, rest),
        Plain::Load(op, arg) => load(program, store, values, op, arg, rest),
        Plain::Store(op, arg) => store_number(program, store, values, op, arg, rest),
        Plain::MemorySize => size(program, store, values, rest),
        Plain::MemoryGrow => grow(program, store, values, rest),
        Plain::Const(v) => constant(values, v, rest),
        _ => on_operands(values, p, rest),
    }
}
