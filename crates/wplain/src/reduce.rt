//! One reduction of what is under way (WebAssembly Core 1.0, 4.4 and 4.5.4).

ghost use Rattle.std.specs.Prelude.{◌≡◌, [], List, Some, IfOk, length, slice_get, unwrap_or, ◌==◌, if◌then◌else◌};
ghost use Rattle.wcode.specs.declared.value.Value.{Value as one_value};
ghost use Rattle.wbody.specs.Context.{results_of};
ghost use Rattle.wmach.specs.Configuration.{instructions, label};
ghost use Rattle.wmach.specs.Reduction.{reduce_instructions as defined_instructions, reduce as defined_reduce};
ghost use Rattle.wplain.specs.Seen.{setting_of, body_of_code};
ghost use Rattle.wplain.specs.inside.Seen.{continuation_of, place_of, execution_of, reduction_of};
ghost use Rattle.wplain.specs.Stores.{store_of};
ghost use Rattle.wplain.specs.inside.Done.{WentAs};

use crate::calls::invoke;
use crate::code::Code;
use crate::control::{Left, Went, leave_frame, leave_label};
use crate::execution::{Continuation, Effect, Execution, Label, Next, Write, begun, quiet};
use crate::plain::reduce_plain;
use crate::setting::Setting;
use crate::stop::Stop;
use crate::store::Store;
use crate::values::pop_i32;
use std::alloc::Global;
use std::mem;
use wcode::{BlockType, Plain, Value};

// How many values a block of this type leaves.
fn arity_of(t: BlockType) -> usize
    ensures { length (results_of t) ≡ result }
{
    match t {
        BlockType::Empty => 0,
        BlockType::Result(_) => 1,
    }
}

// Into a block, whose label goes on there.
fn enter_block<'a>(
    alloc: Global,
    values: &mut Vec<Value>,
    arity: usize,
    continuation: Continuation<'a>,
    inside: &'a Code,
    rest: &'a Code,
) -> Result<Execution<'a>, Stop>
    ensures { IfOk result (λ e. execution_of e ≡ label values.old.items arity (continuation_of continuation.entry)
        (instructions [] (body_of_code inside.now)) (body_of_code rest.now)) }
{
    let below = mem::replace(values, Vec::new(alloc));
    let inside = Box::new(alloc, Execution::Here(begun(alloc, inside)))?;
    Ok(Execution::Label(Label {
        below,
        arity,
        continuation,
        inside,
        rest,
    }))
}

// The arm that a condition takes.
fn arm<'a>(condition: u32, then_arm: &'a Code, else_arm: &'a Code) -> &'a Code
    ensures { (if condition == 0 then body_of_code else_arm.now else body_of_code then_arm.now)
        ≡ body_of_code result.now }
{
    if condition == 0 { else_arm } else { then_arm }
}

// The label that an index takes of a list, or the default label.
fn label_at(labels: &[u32], i: u32, default: u32) -> u32
    ensures { unwrap_or (slice_get labels.now i) default ≡ result }
{
    match labels.get(i as usize) {
        Some(l) => *l,
        None => default,
    }
}

// Values, and then instructions.
fn reduce_code<'a>(
    alloc: Global,
    setting: &'a Setting,
    store: &Store,
    locals: &mut Vec<Value>,
    values: &mut Vec<Value>,
    code: &'a Code,
) -> Result<Went<'a>, Stop>
    ensures { IfOk result (WentAs (defined_instructions (setting_of setting.now)
        (store_of store.now) locals.old.items values.old.items (body_of_code code.now)) (store_of store.now) locals.new.items values.new.items) }
{
    match code {
        Code::Done => Err(Stop::Stuck),
        Code::Plain(p, rest) => {
            let went = reduce_plain(setting, store, locals, values, *p, rest)?;
            Ok(Went::On(went))
        }
        Code::Block(t, inside, rest) => {
            let arity = arity_of(*t);
            let entered = enter_block(alloc, values, arity, Continuation::Nothing, inside, rest)?;
            Ok(Went::Into(1, entered))
        }
        Code::Loop(t, inside, rest) => {
            let again = Continuation::Loop(*t, inside);
            let entered = enter_block(alloc, values, 0, again, inside, rest)?;
            Ok(Went::Into(1, entered))
        }
        Code::If(t, then_arm, else_arm, rest) => {
            let condition = pop_i32(values)?;
            let inside = arm(condition, then_arm, else_arm);
            let arity = arity_of(*t);
            let entered = enter_block(alloc, values, arity, Continuation::Nothing, inside, rest)?;
            Ok(Went::Into(1, entered))
        }
        Code::BrTable(labels, default, rest) => {
            let i = pop_i32(values)?;
            let l = label_at(labels.as_slice(), i, *default);
            Ok(Went::On(quiet(1, Next::Plain(Plain::Br(l), rest))))
        }
    }
}

// What comes next where values stand.
fn reduce_here<'a>(
    alloc: Global,
    setting: &'a Setting,
    frames: u32,
    store: &Store,
    locals: &mut Vec<Value>,
    values: &mut Vec<Value>,
    next: Next<'a>,
) -> Result<Went<'a>, Stop>
    ensures { IfOk result (WentAs (defined_reduce (setting_of setting.now) frames
        (store_of store.now) locals.old.items (place_of values.old.items next.entry)) (store_of store.now) locals.new.items values.new.items) }
{
    match next {
        Next::Code(code) => reduce_code(alloc, setting, store, locals, values, code),
        Next::Plain(p, rest) => {
            let went = reduce_plain(setting, store, locals, values, p, rest)?;
            Ok(Went::On(went))
        }
        Next::Loop(t, inside, rest) => {
            let again = Continuation::Loop(t, inside);
            let entered = enter_block(alloc, values, 0, again, inside, rest)?;
            Ok(Went::Into(1, entered))
        }
        Next::Call(function, rest) => invoke(alloc, setting, frames, store, values, function, rest),
        Next::Trap(_) => Err(Stop::Stuck),
    }
}

/// One reduction inside so many frames, of which the innermost has these locals. It stops where no
/// rule applies.
pub fn reduce<'a>(
    alloc: Global,
    setting: &'a Setting,
    frames: u32,
    store: &Store,
    locals: &mut Vec<Value>,
    execution: &mut Execution<'a>,
) -> Result<Effect<'a>, Stop>
    ensures { IfOk result (λ e. defined_reduce (setting_of setting.now) frames
        (store_of store.now) locals.old.items (execution_of execution.old) ≡ Some (reduction_of (store_of store.now) locals.new.items (execution_of execution.new) e)) }
{
    match execution {
        Execution::Here(place) => {
            let values = &mut place.values;
            match reduce_here(alloc, setting, frames, store, locals, values, place.next)? {
                Went::On(m) => {
                    place.next = m.next;
                    Ok(m.effect)
                }
                Went::Into(cost, entered) => {
                    *execution = entered;
                    let write = Write::Nothing;
                    Ok(Effect { cost, write })
                }
            }
        }
        Execution::Label(label) => match leave_label(alloc, label)? {
            Left::Open => {
                let effect = reduce(alloc, setting, frames, store, locals, &mut label.inside)?;
                Ok(effect)
            }
            Left::To(cost, place) => {
                *execution = Execution::Here(place);
                let write = Write::Nothing;
                Ok(Effect { cost, write })
            }
        },
        Execution::Frame(frame) => match leave_frame(alloc, frame)? {
            Left::Open => {
                if frames >= 256 {
                    return Err(Stop::Stuck);
                }
                let inner = &mut frame.locals;
                let effect = reduce(alloc, setting, frames + 1, store, inner, &mut frame.inside)?;
                Ok(effect)
            }
            Left::To(cost, place) => {
                *execution = Execution::Here(place);
                let write = Write::Nothing;
                Ok(Effect { cost, write })
            }
        },
    }
}
