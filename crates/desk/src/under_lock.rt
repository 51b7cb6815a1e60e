//! What lies under a desk's lock: the desk itself, and the one way to change what is published of
//! it.
ghost use Rattle.std.specs.Prelude.{◌≡◌, ◌+◌, ◌<◌, ◌≤◌, ◌++◌, ◌∷◌, [], fold, drop, slice_index, IfOk, IfSome, OnErr, IsErr, MatchBool};
ghost use Rattle.desk.specs.inside.Board.{IsBoard, IsSubject, Writes, board_after, board_of};
ghost use Rattle.desk.specs.Caller.{IsTimely};
ghost use Rattle.desk.specs.inside.Caller.{new_core, handed_by};
ghost use Rattle.desk.specs.Machine.{after, reply};
ghost use Rattle.desk.specs.Shared.{IsAhead, IsApplied, Met, Closed};
ghost use Rattle.desk.specs.inside.Shared.{Stands, first_held, held_after, prefix_after};
ghost use Rattle.desk.specs.declared.limits.TheConstants.{MAX_PASSES, MAX_CALLS};

use crate::board::{Board, Order};
use crate::board_rule::{BoardRule, Sees};
use crate::change::{Change, Totals};
use crate::desk_core::Core;
use crate::history::{Head, Naming, Prefix};
use crate::limits::MAX_CALLS;
use crate::next_call::NextCall;
use crate::pass::Pass;
use crate::step::{Reply, Step};
use crate::subject::Subject;
use book::{Book, Limits, NoMemory};
use left_right::reader::Reader;
use left_right::writer::Writer;
use quant::SharedPod;
use std::alloc::{AllocError, Global};
use std::hash::RandomState;
use std::marker::Model;
use std::mem::size_of;
use std::sync::Wait;

/// What lies under the lock. Contracts see the desk with one owner, and the history that left it
/// so.
pub struct UnderLock<J: Naming> {
    // Behind a pointer, since a call takes what lies under the lock apart and makes it anew.
    core: Box<Core>,
    prefix: Prefix,
    writer: Writer<Board, Order, (), BoardRule<J>>,
    // Whether there is room for the calls that are to be published.
    has_room: bool,
}

impl<J: Naming> Model for UnderLock<J> {
    ghost use Rattle.std.specs.Prelude.{fold, drop};
    ghost use Rattle.desk.specs.inside.Shared.{Held};
    ghost use Rattle.desk.specs.inside.Board.{IsPublished};
    ghost use Rattle.desk.specs.inside.SharedCodes.{held_code};

    ghost Value = { Held };

    ghost coded = { held_code };

    ghost view = { λ l. record { desk = l.core.value; prefix = l.prefix } };

    ghost invariant = { λ l. IsPublished J.book J.limits (record { desk = l.core.value; prefix = l.prefix }) l.writer.desk.shown.value (drop l.writer.behind l.writer.log.items) };
}

/// What has to be there before a step, since after it nothing may fail: the history with the call,
/// the pod that it hands out, and whose rows it may change.
pub(crate) struct Ready {
    prefix: Prefix,
    pod: Option<SharedPod>,
    subject: Subject,
}

// Nothing is changed, with this history and these counts.
fn no_order(board: &Board) -> Order
    ensures { result ≡ record {
      change = Change.Nothing;
      pass = 0;
      calls = slice_index board.now.calls 0;
      prefix = board.now.prefix;
    } }
{
    Order {
        change: Change::Nothing,
        pass: 0,
        calls: board.calls_of(0),
        prefix: board.prefix.again(),
    }
}

// A row of values of at most 1,024 bytes has room for four from its first one on, and at most three
// calls are kept at once: the one for which room was made, the last one, which the other copy
// lacks, and the one that comes.
const _: () = prove!(size_of::<Order>() <= 1_024);

// Adds a call to those that are to be published. It waits for room, where there is none.
fn add_order<J: Naming, R: Wait>(
    rt: &R,
    writer: Writer<Board, Order, (), BoardRule<J>>,
    order: Order,
) -> Writer<Board, Order, (), BoardRule<J>>
    ensures { (result.desk.shown.value ≡ writer.desk.shown.value) ×
        (drop result.behind result.log.items ≡ drop writer.behind writer.log.items ++ order ∷ []) }
{
    let mut writer = writer;
    let mut order = order;
    for _ in rt.forever() {
        match writer.append(order) {
            Ok(()) => return writer,
            Err(same) => order = same,
        }
    }
    unreachable!()
}

// Publishes the calls that are to be published. It waits where a row can have no further owner.
#[tactic(auto, using(crate::proofs::Publishing::next_stands))]
fn publish_orders<J: Naming, R: Wait>(
    rt: &R,
    writer: Writer<Board, Order, (), BoardRule<J>>,
) -> Writer<Board, Order, (), BoardRule<J>>
    requires { IsBoard J.book J.limits (fold board_after writer.desk.shown.value
        (drop writer.behind writer.log.items)) }
    ensures { (result.desk.shown.value ≡ fold board_after writer.desk.shown.value (drop writer.behind writer.log.items))
        × (drop result.behind result.log.items ≡ []) }
{
    let mut writer = writer;
    for _ in rt.forever() {
        let (same, done) = writer.publish_as::<Sees<J>, R>(rt);
        writer = same;
        if done.is_ok() {
            return writer;
        }
    }
    unreachable!()
}

// A core on which nothing was done, behind a pointer.
fn new_core(alloc: Global, keys: RandomState, limits: Limits) -> Result<Box<Core>, NoMemory>
    ensures { IfOk result (λ core. core.value ≡ new_core limits) }
{
    let Ok(core) = Core::new(alloc, keys, limits) else {
        return Err(NoMemory);
    };
    match Box::new(alloc, core) {
        Ok(core) => Ok(core),
        Err(_) => Err(NoMemory),
    }
}

// What is published before the first call.
fn new_writer<J: Naming>(
    alloc: Global,
    limits: Limits,
    nothing: &Prefix,
    readers: usize,
) -> Result<Writer<Board, Order, (), BoardRule<J>>, NoMemory>
    requires limits { limits ≡ J.limits }
    requires readers { (0 < readers) × (readers ≤ MAX_PASSES) }
    requires nothing { nothing.now ≡ record { book = J.book; list = [] } }
    ensures shown { IfOk result (λ writer. writer.desk.shown.value ≡ board_of (first_held J.book J.limits)) }
    ensures idle { IfOk result (λ writer. drop writer.behind writer.log.items ≡ []) }
{
    let Ok(first) = Board::new(alloc, limits, nothing) else {
        return Err(NoMemory);
    };
    let Ok(second) = Board::new(alloc, limits, nothing) else {
        return Err(NoMemory);
    };
    match Writer::new(alloc, first, second, readers) {
        Ok(writer) => Ok(writer),
        Err(_) => Err(NoMemory),
    }
}

impl<J: Naming> UnderLock<J> {
    /// A desk on which nothing was done, with room for as much as the limits say, and for so many
    /// readers.
    pub(crate) fn new(
        alloc: Global,
        keys: RandomState,
        limits: Limits,
        nothing: &Prefix,
        readers: usize,
    ) -> Result<Self, NoMemory>
        requires limits { limits ≡ J.limits }
        requires readers { (0 < readers) × (readers ≤ MAX_PASSES) }
        requires nothing { nothing.now ≡ record { book = J.book; list = [] } }
    {
        let Ok(core) = new_core(alloc, keys, limits) else {
            return Err(NoMemory);
        };
        let Ok(writer) = new_writer::<J>(alloc, limits, nothing, readers) else {
            return Err(NoMemory);
        };
        let mut made = UnderLock {
            core,
            prefix: nothing.again(),
            writer,
            has_room: false,
        };
        let _ = made.make_room();
        Ok(made)
    }

    /// A reader of what is published.
    pub(crate) fn reader(&self) -> Result<Reader<Board, (), BoardRule<J>>, AllocError> {
        self.writer.factory().reader()
    }

    // Makes room for a call that is to be published, once.
    fn make_room(&mut self) -> Result<(), NoMemory>
        ensures { self.new ≡ self.old }
    {
        if !self.has_room {
            let order = no_order(self.writer.published());
            match self.writer.append(order) {
                Ok(()) => self.has_room = true,
                Err(_) => return Err(NoMemory),
            }
        }
        Ok(())
    }

    // Gets all that can fail ready for a step, if the pass has a call left.
    fn get_ready(
        &mut self,
        head: &Head<J>,
        handed: usize,
        pass: &Pass<J>,
        step: &Step,
    ) -> Result<Ready, NoMemory>
        requires of { pass.now.caller.number < handed }
        requires handed { handed ≤ MAX_PASSES }
        ensures same { self.new ≡ self.old }
        ensures left { IfOk result (λ ready. pass.now.caller.calls < MAX_CALLS) }
        ensures stands { IfOk result (λ ready. Stands J.book J.limits self.old) }
        ensures used_up { MAX_CALLS ≤ pass.now.caller.calls → IsErr result }
        ensures ahead { IfOk result (λ ready. IsAhead (record { limits = J.limits; handed = handed }) pass.now
            self.old.prefix.list) }
        ensures prefix { IfOk result (λ ready. ready.prefix ≡ prefix_after self.old pass.now.caller step.now) }
        ensures pod { IfOk result (λ ready. ready.pod ≡ handed_by self.old.desk.state step.now) }
        ensures subject { IfOk result (λ ready. IsSubject self.old.desk.state.cluster step.now ready.subject) }
    {
        if pass.calls() >= MAX_CALLS {
            return Err(NoMemory);
        }
        let Ok(()) = self.make_room() else {
            return Err(NoMemory);
        };
        self.prepare(head, handed, pass, step)
    }

    // What has to be there before the step.
    fn prepare(
        &self,
        head: &Head<J>,
        handed: usize,
        pass: &Pass<J>,
        step: &Step,
    ) -> Result<Ready, NoMemory>
        requires of { pass.now.caller.number < handed }
        requires handed { handed ≤ MAX_PASSES }
        requires fits { pass.now.caller.calls < MAX_CALLS }
        ensures stands { IfOk result (λ ready. Stands J.book J.limits self.now) }
        ensures ahead { IfOk result (λ ready. IsAhead (record { limits = J.limits; handed = handed }) pass.now
            self.now.prefix.list) }
        ensures prefix { IfOk result (λ ready. ready.prefix ≡ prefix_after self.now pass.now.caller step.now) }
        ensures pod { IfOk result (λ ready. ready.pod ≡ handed_by self.now.desk.state step.now) }
        ensures subject { IfOk result (λ ready. IsSubject self.now.desk.state.cluster step.now ready.subject) }
    {
        if !pass.may_go_on(self.writer.published(), handed) {
            return Err(NoMemory);
        }
        let Ok(pod) = self.core.pod_for(step) else {
            return Err(NoMemory);
        };
        let Ok(subject) = self.core.subject_of(step) else {
            return Err(NoMemory);
        };
        let next = NextCall {
            desk: &self.core,
            pass: pass.number(),
            number: pass.calls() + 1,
            step,
        };
        let Some(prefix) = self.prefix.with_call(head, &next) else {
            return Err(NoMemory);
        };
        Ok(Ready {
            prefix,
            pod,
            subject,
        })
    }

    // Does a step, or refuses it, says so, counts the call and publishes what it changed.
    fn take_call<R: Wait>(
        self,
        rt: &R,
        pass: &Pass<J>,
        step: Step,
        prefix: Prefix,
        subject: Subject,
        first: Option<SharedPod>,
    ) -> (Self, Reply, Option<Totals>)
        requires number { pass.now.caller.number < MAX_PASSES }
        requires fits { pass.now.caller.calls < MAX_CALLS }
        requires calls { slice_index self.desk.state.calls pass.now.caller.number ≡ pass.now.caller.calls }
        requires timely { IsTimely step }
        requires subject { IsSubject self.desk.state.cluster step subject }
        requires first { first ≡ handed_by self.desk.state step }
        requires stands { Stands J.book J.limits (held_after self pass.now.caller.number step prefix) }
        ensures held { result.0 ≡ held_after self pass.now.caller.number step prefix }
        ensures said { result.1 ≡ reply self.desk.state pass.now.caller.number step }
        ensures totals { IfSome result.2 (λ totals. Writes self.desk.state.cluster totals
            (after self.desk.state pass.now.caller.number step).cluster) }
    {
        let UnderLock {
            core,
            prefix: _before,
            writer,
            has_room,
        } = self;
        let mut core = core;
        let (said, change) = core.take_noted(pass.number(), step, subject, first);
        let totals = change.totals();
        let order = Order {
            change,
            pass: pass.number(),
            calls: pass.calls() + 1,
            prefix: prefix.again(),
        };
        let writer = add_order(rt, writer, order);
        let writer = publish_orders(rt, writer);
        let held = UnderLock {
            core,
            prefix,
            writer,
            has_room,
        };
        (held, said, totals)
    }

    /// Does a step, or refuses it, publishes that, and counts the call.
    pub(crate) fn apply<R: Wait>(
        self,
        rt: &R,
        head: &Head<J>,
        handed: usize,
        pass: &mut Pass<J>,
        step: Step,
    ) -> (Self, Result<Reply, NoMemory>)
        requires of { pass.old.caller.number < handed }
        requires handed { handed ≤ MAX_PASSES }
        requires timely { IsTimely step }
        ensures applied { IfOk result.1 (λ answer. IsApplied (record { limits = J.limits; handed = handed }) pass.old
            step answer pass.new) }
        ensures used_up { MAX_CALLS ≤ pass.old.caller.calls → IsErr result.1 }
        ensures err { OnErr result.1 (pass.new ≡ pass.old) }
        ensures same { OnErr result.1 (result.0 ≡ self) }
    {
        let mut held = self;
        match held.get_ready(head, handed, pass, &step) {
            Err(no_memory) => {
                // (dropped by a call, whose proof stands elsewhere)
                drop(step);
                (held, Err(no_memory))
            }
            Ok(
                Ready {
                    prefix,
                    pod,
                    subject,
                },
            ) => {
                let before = held.prefix.again();
                let seen = prefix.again();
                let (held, said, totals) = held.take_call(rt, pass, step, prefix, subject, pod);
                pass.count(&before, seen, totals);
                (held, Ok(said))
            }
        }
    }

    /// Shows two passes all that was published. It answers whether it did.
    pub(crate) fn meet(&self, handed: usize, first: &mut Pass<J>, second: &mut Pass<J>) -> bool
        requires first { first.old.caller.number < handed }
        requires second { second.old.caller.number < handed }
        requires handed { handed ≤ MAX_PASSES }
        ensures { MatchBool result (Met (record { limits = J.limits; handed = handed }) first.old second.old first.new
            second.new) ((first.new ≡ first.old)
            × (second.new ≡ second.old)) }
    {
        let board = self.writer.published();
        if !first.may_go_on(board, handed) || !second.may_go_on(board, handed) {
            return false;
        }
        first.see(&board.prefix);
        second.see(&board.prefix);
        true
    }

    /// Waits for the readers, and gives the book as it was published last.
    pub(crate) fn close<R: Wait>(self, rt: &R, handed: usize, pass: &mut Pass<J>) -> Book
        requires of { pass.old.caller.number < handed }
        requires handed { handed ≤ MAX_PASSES }
        ensures { Closed (record { limits = J.limits; handed = handed }) pass.old pass.new result }
    {
        let UnderLock {
            core,
            prefix,
            writer,
            has_room: _,
        } = self;
        for _ in rt.forever() {
            if pass.may_go_on(writer.published(), handed) {
                break;
            }
        }
        pass.see(&prefix);
        drop(writer.take(rt));
        Box::into_inner(core).into_book()
    }

    /// Waits for the readers, and ends the desk.
    pub(crate) fn discard<R: Wait>(self, rt: &R) {
        let UnderLock {
            core: _core,
            prefix: _prefix,
            writer,
            has_room: _,
        } = self;
        drop(writer.take(rt));
    }
}
