//! A storm from its script to its audit.
ghost use Rattle.std.specs.Prelude.{◌≡◌, ◌≢◌, ◌↔◌, ◌+◌, ◌<◌, ◌^◌, ◌⊎◌, ◌∷◌, [], Bool, Err, IfOk, IfErr, OnOk, OnErr, length, vec_len};
ghost use Rattle.std.specs.Bool.{IsTrue};
ghost use Rattle.std.specs.List.{All};
ghost use Rattle.std.specs.Io.KnownBytes.{Appends};
ghost use Rattle.desk.specs.Caller.{IsTimely};
ghost use Rattle.desk.specs.Shared.{IsPassOf};
ghost use Rattle.choose.specs.Kits.{rules_of};
ghost use Rattle.audit.specs.Audit.{ShowsSums};
ghost use Rattle.streams.specs.Greatest.{limits};
ghost use Rattle.streams.specs.Device.{use_of, AppendsFront};
ghost use Rattle.crew.specs.Made.{newcomer};
ghost use Rattle.crew.specs.Crew.{ArePassesOf, enlisted};
ghost use Rattle.storm.specs.inside.Ending.{IsWorked, HasEnded, IsClosedAndTold, IsStormOf};
ghost use Rattle.storm.specs.Storm.{IsStormRun, storm_text};

use crate::stages::{Stage, work};
use audit::audit;
use binder::Binder;
use book::Book;
use choose::Decider;
use crew::{Bell, FEEDERS, Worker, all_done, enlist, take_dump};
use crossbeam_channel::unbounded;
use desk::{Blank, Counts, Desk, Limits, Naming, NoMemory, Pass, Snapshot, Step};
use output_lines::push_dump;
use rules::Rules;
use std::alloc::Global;
use std::hash::RandomState;
use std::marker::Brand;
use std::sync::Wait;
use std::thread::Threads;
use streams::{RunFault, Sink, Source, TextBuilder, write_all};
use watch_script::read_script;

// All passes of a desk: the feeders', one for each decider, one for each binder, and the last that
// counts.
#[derive(Drop)]
struct Hands<J: Naming, D: Drop> {
    feeders: Vec<Worker<J, ()>>,
    cyclers: Vec<Worker<J, D>>,
    reporters: Vec<Worker<J, Box<dyn Binder + Send>>>,
    clerk: Pass<J>,
}

// How many passes there are with so many deciders and binders.
fn passes_for(deciders: usize, binders: usize) -> usize {
    deciders.saturating_add(binders).saturating_add(FEEDERS + 1)
}

// Hands out all passes.
fn hand_out<J: Naming, D: Decider + Drop>(
    alloc: Global,
    desk: &mut Desk<J>,
    deciders: Vec<D>,
    binders: Vec<Box<dyn Binder + Send>>,
) -> Result<Hands<J, D>, RunFault>
    requires { desk.old.handed ≡ 0 }
    ensures feeders { IfOk result (λ hands. hands.feeders.items ≡ enlisted 0 (tt ∷ tt ∷ [])) }
    ensures cyclers { IfOk result (λ hands. hands.cyclers.items ≡ enlisted 2 deciders.items) }
    ensures reporters { IfOk result (λ hands. hands.reporters.items
        ≡ enlisted (2 + length deciders.items) binders.items) }
    ensures clerk { IfOk result (λ hands. hands.clerk ≡ newcomer (2 + length deciders.items + length binders.items)) }
    ensures handed { OnOk result (desk.new ≡ record desk.old
        { handed = 2 + length deciders.items + length binders.items + 1 }) }
    ensures faults { IfErr result (λ e. (e ≡ RunFault.NoMemory) ⊎ (e ≡ RunFault.NoPlace)) }
{
    let mut both = Vec::new(alloc);
    let Ok(()) = both.resize(FEEDERS, ()) else {
        return Err(RunFault::NoMemory);
    };
    let feeders = enlist(alloc, desk, both)?;
    let cyclers = enlist(alloc, desk, deciders)?;
    let reporters = enlist(alloc, desk, binders)?;
    let clerk = desk.pass()?;
    Ok(Hands {
        feeders,
        cyclers,
        reporters,
        clerk,
    })
}

// Does all work, and takes the dump.
fn work_and_dump<
    J: Naming + Send + Sync,
    R: Threads + Wait + Sync,
    D: Decider<Kit: Rules<Notes: Send> + Send> + Send + Drop,
>(
    rt: &R,
    alloc: Global,
    desk: &Desk<J>,
    steps: &[Step],
    feeders: &mut [Worker<J, ()>],
    cyclers: &mut [Worker<J, D>],
    reporters: &mut [Worker<J, Box<dyn Binder + Send>>],
    clerk: &mut Pass<J>,
) -> Result<(Counts, Snapshot), NoMemory>
    requires timely { All IsTimely steps.now }
    requires some { 0 < length cyclers.old }
    requires some_feeder { 0 < length feeders.old }
    requires feeders { ArePassesOf desk.now feeders.old }
    requires cyclers { ArePassesOf desk.now cyclers.old }
    requires reporters { ArePassesOf desk.now reporters.old }
    requires clerk { IsPassOf clerk.old desk.now }
    ensures { IfOk result (λ dump. IsWorked D.Kit.answers D.kits desk.now steps.now clerk.old feeders.old
        cyclers.old reporters.old dump.0 dump.1 clerk.new) }
{
    {
        // The jobs and the bell are let go before the dump.
        let Ok((sender, jobs)) = unbounded(alloc) else {
            return Err(NoMemory);
        };
        let bell = Bell::new();
        let stage = Stage {
            desk,
            bell: &bell,
            steps,
        };
        work(&stage, rt, &jobs, sender, feeders, cyclers, reporters);
    }
    if !all_done(feeders) || !all_done(cyclers) || !all_done(reporters) {
        return Err(NoMemory);
    }
    take_dump(rt, desk, clerk, feeders, cyclers, reporters)
}

// A storm of these steps on a desk of which no pass was handed out. It gives the pass that took the
// dump.
fn storm_to_dump<
    J: Naming + Send + Sync,
    R: Threads + Wait + Sync,
    D: Decider<Kit: Rules<Notes: Send> + Send> + Send + Drop,
>(
    rt: &R,
    alloc: Global,
    desk: &mut Desk<J>,
    steps: &[Step],
    deciders: Vec<D>,
    binders: Vec<Box<dyn Binder + Send>>,
) -> Result<(Pass<J>, Counts, Snapshot), RunFault>
    requires new { desk.old ≡ record { limits = limits; handed = 0 } }
    requires timely { All IsTimely steps.now }
    requires some { 0 < length deciders.items }
    ensures ended { IfOk result (λ done. HasEnded (λ d. rules_of D.Kit.answers (D.kits d)) deciders.items
        (length binders.items) desk.new steps.now
        done.1 done.2 done.0) }
    ensures faults { IfErr result (λ e. (e ≡ RunFault.NoMemory) ⊎ (e ≡ RunFault.NoPlace)) }
{
    let mut hands = hand_out(alloc, desk, deciders, binders)?;
    let Ok((counts, shown)) = work_and_dump(
        rt,
        alloc,
        desk,
        steps,
        hands.feeders.as_mut_slice(),
        hands.cyclers.as_mut_slice(),
        hands.reporters.as_mut_slice(),
        &mut hands.clerk,
    ) else {
        return Err(RunFault::NoMemory);
    };
    Ok((hands.clerk, counts, shown))
}

// What a storm writes: the dump's lines, and the audit's.
fn text_of(
    alloc: Global,
    shown: &Snapshot,
    counts: Counts,
    is_right: bool,
) -> Result<Vec<u8>, NoMemory>
    ensures { IfOk result (λ text. text.items ≡ storm_text shown.now counts is_right) }
{
    let mut text = TextBuilder::new(alloc);
    push_dump(&mut text, shown, counts);
    if is_right {
        text.put(b"audit ok\n");
    } else {
        text.put(b"audit failed\n");
    }
    text.build()
}

// Audits what a dump shows by the book of a desk: what the audit says, and what a storm writes then.
fn audited_text<R: Threads + Sync>(
    rt: &R,
    alloc: Global,
    shown: &Snapshot,
    counts: Counts,
    book: &Book,
) -> Result<(bool, Vec<u8>), NoMemory>
    ensures says { IfOk result (λ told. IsTrue told.0 ↔ ShowsSums shown.now book.now.places) }
    ensures text { IfOk result (λ told. told.1.items ≡ storm_text shown.now counts told.0) }
{
    let Ok(is_right) = audit(rt, alloc, shown, book) else {
        return Err(NoMemory);
    };
    let text = text_of(alloc, shown, counts, is_right)?;
    Ok((is_right, text))
}

// Closes the desk of a storm, audits and writes what was dumped of it, and answers what the audit
// said. The book is let go before anything is written.
fn close_and_tell<J: Naming, R: Threads + Wait + Sync, W: Sink>(
    rt: &R,
    alloc: Global,
    desk: Desk<J>,
    clerk: &mut Pass<J>,
    counts: Counts,
    shown: &Snapshot,
    sink: &mut W,
) -> Result<bool, RunFault>
    requires of { IsPassOf clerk.old desk }
    requires writes { W.failure_count sink.old < 10 ^ 18 }
    ensures { IsClosedAndTold desk clerk.old clerk.new counts shown.now
        (use_of W.written W.failure_count sink.old sink.new) result }
{
    let book = desk.close(rt, clerk);
    let Ok((is_right, text)) = audited_text(rt, alloc, shown, counts, &book) else {
        return Err(RunFault::NoMemory);
    };
    drop(book);
    if write_all(sink, &text).is_err() {
        return Err(RunFault::Write);
    }
    Ok(is_right)
}

// A storm of these steps on a new desk, which it ends.
fn storm_on<
    J: Naming + Send + Sync,
    R: Threads + Wait + Sync,
    D: Decider<Kit: Rules<Notes: Send> + Send> + Send + Drop,
    W: Sink,
>(
    rt: &R,
    blank: Blank,
    alloc: Global,
    keys: RandomState,
    greatest: Limits,
    steps: &[Step],
    deciders: Vec<D>,
    binders: Vec<Box<dyn Binder + Send>>,
    sink: &mut W,
) -> Result<bool, RunFault>
    requires named { blank.seen.book ≡ J.book }
    requires limits { greatest ≡ J.limits }
    requires greatest { greatest ≡ limits }
    requires timely { All IsTimely steps.now }
    requires some { 0 < length deciders.items }
    requires writes { W.failure_count sink.old < 10 ^ 18 }
    ensures { IsStormOf (λ d. rules_of D.Kit.answers (D.kits d)) deciders.items (length binders.items) steps.now
        (use_of W.written W.failure_count sink.old sink.new) result }
{
    let passes = passes_for(deciders.len(), binders.len());
    let Ok(mut desk) = Desk::<J>::for_passes(blank, alloc, keys, greatest, passes) else {
        return Err(RunFault::NoMemory);
    };
    match storm_to_dump(rt, alloc, &mut desk, steps, deciders, binders) {
        Err(fault) => {
            desk.discard(rt);
            Err(fault)
        }
        Ok((mut clerk, counts, shown)) => {
            close_and_tell(rt, alloc, desk, &mut clerk, counts, &shown, sink)
        }
    }
}

/// A storm: its script is read whole, by up to four threads, and then told twice by two feeders,
/// while a cycle pass for each decider places pods and each binder tells the cluster of places,
/// each in a thread of its own. Cycles go on until both feeders have ended and no pod waits; then
/// the first cycle pass, which has met the feeders', goes on alone until no pod waits once more,
/// and the binders do what jobs are left. At the end it writes the dump's lines and the audit's:
/// whether what the dump shows as used is the sum of the places of the closed desk's book. It
/// answers what the audit said.
///
/// There are at least one decider and one binder.
///
/// Errors, by all of which but `Write` nothing is written: `Line` with the number of the first
/// faulty line of the script and its fault; `NoMemory`; `Read`; `NoPlace` where there are more
/// deciders and binders than 61. At `Write` a beginning is written.
pub fn storm<
    R: Threads + Wait + Sync,
    D: Decider<Kit: Rules<Notes: Send> + Send> + Send + Drop,
    S: Source,
    W: Sink,
>(
    rt: &R,
    alloc: Global,
    keys: RandomState,
    source: &mut S,
    sink: &mut W,
    deciders: Vec<D>,
    binders: Vec<Box<dyn Binder + Send>>,
) -> Result<bool, RunFault>
    requires reads { S.failure_count source.old < 10 ^ 18 }
    requires writes { W.failure_count sink.old < 10 ^ 18 }
    requires finite { S.bytes_left source.old < 2 ^ 64 }
    requires some_decider { 0 < vec_len deciders }
    requires some_binder { 0 < vec_len binders }
    ensures { IsStormRun (λ d. rules_of D.Kit.answers (D.kits d)) deciders.items (length binders.items)
        (use_of S.remaining S.failure_count source.old source.new) (use_of W.written W.failure_count sink.old sink.new) result }
{
    match read_script(rt, alloc, source) {
        Err(fault) => Err(fault),
        Ok(steps) => storm_on::<Brand, R, D, W>(
            rt,
            Blank::new(),
            alloc,
            keys,
            Limits::greatest(),
            &steps,
            deciders,
            binders,
            sink,
        ),
    }
}
