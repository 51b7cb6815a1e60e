//! What stands inside labels and frames, and how they are left (WebAssembly Core 1.0, 4.4.5 and
//! 4.4.6).

ghost use Rattle.std.specs.Prelude.{◌≡◌, ℕ, List, IfOk, option_map};
ghost use Rattle.wcode.specs.declared.value.Value.{Value as one_value};
ghost use Rattle.wmach.specs.Configuration.{instructions};
ghost use Rattle.wmach.specs.Reduction.{branching, returning, followed_by};
ghost use Rattle.wplain.specs.Seen.{body_of_code};
ghost use Rattle.wplain.specs.inside.Seen.{continuation_of, place_of, execution_of};
ghost use Rattle.wplain.specs.inside.Standing.{branched, returned, EndedAs};
ghost use Rattle.wplain.specs.inside.Done.{LeavesLabel, LeavesFrame};

use crate::code::Code;
use crate::execution::{Continuation, Execution, Frame, Label, Move, Next, Place};
use crate::stop::Stop;
use crate::values::joined;
use std::alloc::Global;
use wcode::{Plain, Value};
use wmach::Trap;

/// What came of a place.
#[derive(Drop)]
pub enum Went<'a> {
    On(Move<'a>),
    /// Into a label or a frame, at this cost.
    Into(u64, Execution<'a>),
}

/// What came of a label or a frame.
#[derive(Drop)]
pub enum Left<'a> {
    /// What is inside goes on.
    Open,
    /// It is left at this cost, and this is there in its place.
    To(u64, Place<'a>),
}

// Whether a branch or a return comes next.
#[derive(Clone, Copy)]
pub enum Comes {
    Branch(u32),
    Return,
    Other,
}

// What is inside a label or a frame, once it has ended.
#[derive(Clone, Copy)]
pub enum Ended<'b> {
    No,
    Values(&'b [Value]),
    Trap(Trap),
}

fn what_comes(next: Next<'_>) -> Comes
    ensures branches { (values : List one_value) (depth : ℕ) →
        branching depth (place_of values next.entry) ≡ branched depth values result }
    ensures returns { (values : List one_value) → returning (place_of values next.entry) ≡ returned values result }
{
    match next {
        Next::Code(Code::Plain(Plain::Br(l), _)) => Comes::Branch(*l),
        Next::Code(Code::Plain(Plain::Return, _)) => Comes::Return,
        Next::Plain(Plain::Br(l), _) => Comes::Branch(l),
        Next::Plain(Plain::Return, _) => Comes::Return,
        _ => Comes::Other,
    }
}

// The values that stand before a branch to the label so many labels outwards, if that comes next.
fn before_branch<'b>(depth: u64, execution: &'b Execution<'_>) -> Result<Option<&'b [Value]>, Stop>
    ensures { IfOk result (λ o. branching depth (execution_of execution.now) ≡ option_map (λ vs. vs.now) o) }
{
    match execution {
        Execution::Here(place) => match what_comes(place.next) {
            Comes::Branch(l) => {
                if u64::from(l) == depth {
                    Ok(Some(place.values.as_slice()))
                } else {
                    Ok(None)
                }
            }
            _ => Ok(None),
        },
        Execution::Label(label) => {
            let outwards = depth.checked_add(1).ok_or(Stop::Stuck)?;
            before_branch(outwards, &label.inside)
        }
        Execution::Frame(_) => Ok(None),
    }
}

// The values that stand before a return, if that comes next.
fn before_return<'b>(execution: &'b Execution<'_>) -> Option<&'b [Value]>
    ensures { returning (execution_of execution.now) ≡ option_map (λ vs. vs.now) result }
{
    match execution {
        Execution::Here(place) => match what_comes(place.next) {
            Comes::Return => Some(place.values.as_slice()),
            _ => None,
        },
        Execution::Label(label) => before_return(&label.inside),
        Execution::Frame(_) => None,
    }
}

// It has ended, with values or by a trap.
fn end_in<'b>(execution: &'b Execution<'_>) -> Ended<'b>
    ensures { EndedAs (execution_of execution.now) result }
{
    match execution {
        Execution::Here(place) => match place.next {
            Next::Code(Code::Done) => Ended::Values(place.values.as_slice()),
            Next::Trap(why) => Ended::Trap(why),
            _ => Ended::No,
        },
        _ => Ended::No,
    }
}

// What comes after a label that is branched to.
fn continued<'a>(continuation: Continuation<'a>, rest: &'a Code) -> Next<'a>
    ensures { (values : List one_value) → place_of values result
        ≡ instructions values (followed_by (continuation_of continuation.entry) (body_of_code rest.now)) }
{
    match continuation {
        Continuation::Nothing => Next::Code(rest),
        Continuation::Loop(t, inside) => Next::Loop(t, inside, rest),
    }
}

/// A label, unless what is inside goes on.
pub fn leave_label<'a>(alloc: Global, label: &Label<'a>) -> Result<Left<'a>, Stop>
    ensures { IfOk result (LeavesLabel label.now.below.items label.now.arity (continuation_of label.now.continuation)
        (body_of_code label.now.rest.now) (execution_of label.now.inside.value)) }
{
    let inside = &label.inside;
    let below = label.below.as_slice();
    match end_in(inside) {
        Ended::Values(values) => {
            let values = joined(alloc, values, below)?;
            let next = Next::Code(label.rest);
            Ok(Left::To(0, Place { values, next }))
        }
        Ended::Trap(why) => {
            let values = Vec::new(alloc);
            let next = Next::Trap(why);
            Ok(Left::To(0, Place { values, next }))
        }
        Ended::No => {
            let Some(values) = before_branch(0, inside)? else {
                return Ok(Left::Open);
            };
            let carried = values.get(..label.arity).ok_or(Stop::Stuck)?;
            let values = joined(alloc, carried, below)?;
            let next = continued(label.continuation, label.rest);
            Ok(Left::To(1, Place { values, next }))
        }
    }
}

/// A frame, unless what is inside goes on.
pub fn leave_frame<'a>(alloc: Global, frame: &Frame<'a>) -> Result<Left<'a>, Stop>
    ensures { IfOk result (LeavesFrame frame.now.below.items frame.now.arity (body_of_code frame.now.rest.now)
        (execution_of frame.now.inside.value)) }
{
    let inside = &frame.inside;
    let below = frame.below.as_slice();
    match end_in(inside) {
        Ended::Values(values) => {
            if values.len() != frame.arity {
                return Err(Stop::Stuck);
            }
            let values = joined(alloc, values, below)?;
            let next = Next::Code(frame.rest);
            Ok(Left::To(0, Place { values, next }))
        }
        Ended::Trap(why) => {
            let values = Vec::new(alloc);
            let next = Next::Trap(why);
            Ok(Left::To(0, Place { values, next }))
        }
        Ended::No => {
            let Some(values) = before_return(inside) else {
                return Ok(Left::Open);
            };
            let carried = values.get(..frame.arity).ok_or(Stop::Stuck)?;
            let values = joined(alloc, carried, below)?;
            let next = Next::Code(frame.rest);
            Ok(Left::To(1, Place { values, next }))
        }
    }
}
