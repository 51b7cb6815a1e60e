//! A cluster that is told line by line, and decided of, with the answers written.
ghost use Rattle.std.specs.Prelude.{◌≡◌, ◌⊎◌, ◌^◌, ◌<◌, ◌++◌, [], vec_len, None, Some, Ok, IsTrue, IfOk, IfErr, OnOk, OnErr};
ghost use Rattle.std.specs.Io.KnownBytes.{Appends};
ghost use Rattle.streams.specs.Device.{AppendsFront, use_of};
ghost use Rattle.streams.specs.Greatest.{limits};
ghost use Rattle.streams.specs.inside.Device.{WritesSome};
ghost use Rattle.streams.specs.declared.fault.RunFault.TheVariants as run_fault;
ghost use Rattle.choose.specs.Kits.{rules_of};
ghost use Rattle.live_line.specs.Scope.{site_of};
ghost use Rattle.desk.specs.Machine.{reply, snapshot};
ghost use Rattle.desk.specs.declared.step.Step.TheVariants.{Count};
ghost use Rattle.live_desk.specs.State.{steps, to_place};
ghost use Rattle.live.specs.Answer.{dump_text};
ghost use Rattle.live.specs.Live.{IsAnswered, IsExplained, IsLive, first_state, manner};
ghost use Rattle.live_line.specs.Meaning.{meaning, reasons};
ghost use Rattle.live.specs.inside.Live.{IsLineAnswered, IsStopped};
ghost use Rattle.live_line.specs.inside.Timely.{IsTimely};

use crate::answer_text::{
    answer_text, aside_text, dump_text, explained_text, faulty_text, is_withheld, nothing_text,
    taken_text, tick_text, told_text, turn_text,
};
use choose::Decider;
use desk::{Blank, Limits, Naming, NoMemory};
use fault_line::{Fault, report};
use ledger::Answer;
use live_desk::LiveDesk;
use live_line::{Meaning, Meant, Scope, meaning_of};
use objects::MAX_OBJECT;
use output_lines::NamedRule;
use quant::{Name, SharedPod};
use std::alloc::Global;
use std::hash::RandomState;
use std::marker::Brand;
use std::sync::Wait;
use std::thread::Threads;
use streams::{LineReader, RunFault, Sink, Source, write_all};

/// How many pods may be known at a time: those on nodes, and as many that wait as there is room
/// for beside.
pub const MAX_KNOWN: usize = 200_000;

// The most bytes of a line that are kept: one more than an object may have, by which it is known to
// be too long.
const MAX_KEPT: usize = MAX_OBJECT + 1;

// So much may wait before it is written, while whole lines are there to be answered.
const MAX_WAITING: usize = 65_536;

/// Tells a ledger and a desk the lines of `source`, decides where a line asks for it, writes the
/// answers to `out`, and gives the exit status. A fault goes to `err`, as one line, and
/// a failed write of that line changes nothing. Of pods without a node those of the site's scheduler
/// wait; the others are withheld. Names are looked up under the keys.
///
/// Answers are written before more input is read.
pub fn serve_live<T: Wait + Threads + Sync, D: Decider, R: Source, W: Sink, E: Sink>(
    rt: &T,
    alloc: Global,
    keys: RandomState,
    site: &Scope<'_>,
    named: &[NamedRule],
    decider: &mut D,
    source: &mut R,
    out: &mut W,
    err: &mut E,
) -> u8
    requires reads { R.failure_count source.old < 10 ^ 18 }
    requires writes { W.failure_count out.old < 10 ^ 18 }
    requires tells { E.failure_count err.old < 10 ^ 18 }
    ensures { IsLive (manner (site_of site.now) (rules_of D.Kit.answers (D.kits decider.old)) named.now)
        (use_of R.remaining R.failure_count source.old source.new)
        (use_of W.written W.failure_count out.old out.new) (use_of E.written E.failure_count err.old err.new) result }
{
    match live_lines::<Brand, T, D, R, W>(
        rt,
        Blank::new(),
        alloc,
        keys,
        Limits::greatest(),
        site,
        named,
        decider,
        source,
        out,
    ) {
        Ok(()) => 0,
        Err(fault) => report(Fault::Run(fault), err),
    }
}

// Answers the lines of a source by a desk and a ledger of its own.
fn live_lines<J: Naming, T: Wait + Threads + Sync, D: Decider, R: Source, W: Sink>(
    rt: &T,
    blank: Blank,
    alloc: Global,
    keys: RandomState,
    greatest: Limits,
    site: &Scope<'_>,
    named: &[NamedRule],
    decider: &mut D,
    source: &mut R,
    out: &mut W,
) -> Result<(), RunFault>
    requires named { blank.seen.book ≡ J.book }
    requires limits { greatest ≡ J.limits }
    requires greatest { greatest ≡ limits }
    requires reads { R.failure_count source.old < 10 ^ 18 }
    requires writes { W.failure_count out.old < 10 ^ 18 }
    ensures { IsStopped (manner (site_of site.now) (rules_of D.Kit.answers (D.kits decider.old)) named.now)
        (use_of R.remaining R.failure_count source.old source.new)
        (use_of W.written W.failure_count out.old out.new) result }
{
    let mut live = match LiveDesk::<J>::new(rt, blank, alloc, keys, greatest, MAX_KNOWN) {
        Ok(live) => live,
        Err(fault) => return Err(fault),
    };
    let done = lines_with_room(rt, alloc, site, named, decider, &mut live, source, out);
    live.end(rt);
    done
}

// Answers the lines of a source by a desk and a ledger to which nothing was told.
fn lines_with_room<J: Naming, T: Wait + Threads + Sync, D: Decider, R: Source, W: Sink>(
    rt: &T,
    alloc: Global,
    site: &Scope<'_>,
    named: &[NamedRule],
    decider: &mut D,
    live: &mut LiveDesk<J>,
    source: &mut R,
    out: &mut W,
) -> Result<(), RunFault>
    requires first { live.old ≡ first_state }
    requires reads { R.failure_count source.old < 10 ^ 18 }
    requires writes { W.failure_count out.old < 10 ^ 18 }
    ensures { IsStopped (manner (site_of site.now) (rules_of D.Kit.answers (D.kits decider.old)) named.now)
        (use_of R.remaining R.failure_count source.old source.new)
        (use_of W.written W.failure_count out.old out.new) result }
{
    let Ok(mut line) = Vec::with_capacity(alloc, MAX_KEPT) else {
        return Err(RunFault::NoMemory);
    };
    let Ok(mut reader) = LineReader::new(alloc) else {
        return Err(RunFault::NoMemory);
    };
    let mut waits = Vec::new(alloc);
    let done = answer_lines(
        rt,
        alloc,
        site,
        named,
        decider,
        live,
        &mut reader,
        &mut line,
        &mut waits,
        source,
        out,
    );
    // (dropped by a call, whose proof stands elsewhere)
    drop(reader);
    done
}

// Answers the lines of a source by a desk and a ledger to which nothing was told, with a reader of
// which nothing was read and room for a line and for what waits.
fn answer_lines<J: Naming, T: Wait + Threads + Sync, D: Decider, R: Source, W: Sink>(
    rt: &T,
    alloc: Global,
    site: &Scope<'_>,
    named: &[NamedRule],
    decider: &mut D,
    live: &mut LiveDesk<J>,
    reader: &mut LineReader,
    line: &mut Vec<u8>,
    waits: &mut Vec<u8>,
    source: &mut R,
    out: &mut W,
) -> Result<(), RunFault>
    requires first { live.old ≡ first_state }
    requires none { reader.old ≡ [] }
    requires nothing { waits.old.items ≡ [] }
    requires reads { R.failure_count source.old < 10 ^ 18 }
    requires writes { W.failure_count out.old < 10 ^ 18 }
    ensures { IsStopped (manner (site_of site.now) (rules_of D.Kit.answers (D.kits decider.old)) named.now)
        (use_of R.remaining R.failure_count source.old source.new)
        (use_of W.written W.failure_count out.old out.new) result }
{
    'lines: loop {
        let due = !reader.has_line() || waits.len() >= MAX_WAITING;
        match flush_if(due, waits, out) {
            Ok(()) => {}
            Err(fault) => return Err(fault),
        }
        match reader.next_front(MAX_KEPT, source, line, waits) {
            Ok(true) => {}
            Ok(false) => return flush_if(true, waits, out),
            Err(fault) => return Err(fault),
        }
        let Ok(()) = answer_line(rt, alloc, site, named, decider, live, line, waits) else {
            return Err(RunFault::NoMemory);
        };
    }
}

// Writes what waits, where it is due.
fn flush_if<W: Sink>(due: bool, waits: &mut Vec<u8>, out: &mut W) -> Result<(), RunFault>
    requires { W.failure_count out.old < 10 ^ 18 }
    ensures due { OnOk result (IsTrue due → waits.new.items ≡ []) }
    ensures written { OnOk result (WritesSome (W.written out.old) (W.written out.new) waits.old.items waits.new.items) }
    ensures count { OnOk result (W.failure_count out.new ≡ W.failure_count out.old) }
    ensures front { OnErr result (AppendsFront (W.written out.old) (W.written out.new) waits.old.items) }
    ensures failed { IfErr result (λ fault. (fault ≡ run_fault.Write)
        × (W.failure_count out.old < W.failure_count out.new)) }
{
    if !due {
        return Ok(());
    }
    if write_all(out, waits).is_err() {
        return Err(RunFault::Write);
    }
    waits.clear();
    Ok(())
}

// Answers a line: its answer waits then, behind what waited.
fn answer_line<J: Naming, T: Wait + Threads + Sync, D: Decider>(
    rt: &T,
    alloc: Global,
    site: &Scope<'_>,
    named: &[NamedRule],
    decider: &mut D,
    live: &mut LiveDesk<J>,
    line: &[u8],
    waits: &mut Vec<u8>,
) -> Result<(), NoMemory>
    ensures answered { OnOk result (IsLineAnswered
        (manner (site_of site.now) (rules_of D.Kit.answers (D.kits decider.old)) named.now)
        live.old line.now live.new waits.old.items waits.new.items) }
    ensures kits { D.kits decider.new ≡ D.kits decider.old }
{
    let Ok(text) = answer_to(rt, alloc, site, named, decider, live, line) else {
        return Err(NoMemory);
    };
    let Ok(()) = waits.extend_from_slice(&text) else {
        return Err(NoMemory);
    };
    Ok(())
}

// The answer to a line, behind which what it tells is known.
fn answer_to<J: Naming, T: Wait + Threads + Sync, D: Decider>(
    rt: &T,
    alloc: Global,
    site: &Scope<'_>,
    named: &[NamedRule],
    decider: &mut D,
    live: &mut LiveDesk<J>,
    line: &[u8],
) -> Result<Vec<u8>, NoMemory>
    ensures answered { IfOk result (λ text. IsAnswered
        (manner (site_of site.now) (rules_of D.Kit.answers (D.kits decider.old)) named.now)
        (meaning (site_of site.now) line.now) (reasons (site_of site.now) line.now) live.old text.items live.new) }
    ensures kits { D.kits decider.new ≡ D.kits decider.old }
{
    let Ok(Meant { meaning, reasons }) = meaning_of(alloc, line, site) else {
        return Err(NoMemory);
    };
    answer_meant(rt, alloc, site, named, decider, live, meaning, &reasons)
}

// The answer to what is meant, of whose object this isn't told, and behind which what it tells is
// known.
fn answer_meant<J: Naming, T: Wait + Threads + Sync, D: Decider>(
    rt: &T,
    alloc: Global,
    site: &Scope<'_>,
    named: &[NamedRule],
    decider: &mut D,
    live: &mut LiveDesk<J>,
    meaning: Meaning,
    reasons: &[u8],
) -> Result<Vec<u8>, NoMemory>
    requires { IsTimely meaning }
    ensures answered { IfOk result (λ text. IsAnswered
        (manner (site_of site.now) (rules_of D.Kit.answers (D.kits decider.old)) named.now)
        meaning reasons.now live.old text.items live.new) }
    ensures kits { D.kits decider.new ≡ D.kits decider.old }
{
    match meaning {
        Meaning::Tells(event) => {
            let is_withheld = is_withheld(&event);
            let Ok(answer) = live.tell(rt, alloc, event) else {
                return Err(NoMemory);
            };
            told_text(alloc, is_withheld, answer, reasons)
        }
        Meaning::Pending(version, pod) => {
            let Ok(taken) = live.pending(rt, version, pod) else {
                return Err(NoMemory);
            };
            taken_text(alloc, taken, reasons)
        }
        Meaning::Aside(uid) => {
            let Ok(was_there) = live.put_aside(rt, uid) else {
                return Err(NoMemory);
            };
            aside_text(alloc, was_there)
        }
        Meaning::Tick(now) => {
            let Ok(reply) = live.tick(rt, now) else {
                return Err(NoMemory);
            };
            tick_text(alloc, reply)
        }
        Meaning::Cycle => {
            let Ok(turn) = live.cycle(rt, decider) else {
                return Err(NoMemory);
            };
            turn_text(alloc, named, turn)
        }
        Meaning::Explain(uid) => explain(rt, alloc, named, decider, live, &uid),
        Meaning::Dump => dump(rt, alloc, live),
        Meaning::Nothing => nothing_text(alloc, reasons),
        Meaning::Faulty(field) => faulty_text(alloc, field),
    }
}

// What is said of each node for a pod, where it is to be placed. That changes nothing.
fn explain<J: Naming, T: Wait + Threads + Sync, D: Decider>(
    rt: &T,
    alloc: Global,
    named: &[NamedRule],
    decider: &mut D,
    live: &mut LiveDesk<J>,
    uid: &Name,
) -> Result<Vec<u8>, NoMemory>
    ensures explained { IfOk result (λ text. IsExplained
        (rules_of D.Kit.answers (D.kits decider.old)) named.now live.old uid.now (to_place live.old uid.now) text.items) }
    ensures same { live.new ≡ live.old }
    ensures kits { D.kits decider.new ≡ D.kits decider.old }
{
    match live.to_place(uid) {
        Ok(Some(pod)) => explain_pod(rt, alloc, named, decider, live, &pod, uid),
        Ok(None) => answer_text(alloc, Answer::NotWaiting),
        Err(_) => Err(NoMemory),
    }
}

// What is said of each node for a pod that is to be placed.
fn explain_pod<J: Naming, T: Wait + Threads + Sync, D: Decider>(
    rt: &T,
    alloc: Global,
    named: &[NamedRule],
    decider: &mut D,
    live: &mut LiveDesk<J>,
    pod: &SharedPod,
    uid: &Name,
) -> Result<Vec<u8>, NoMemory>
    ensures explained { IfOk result (λ text. IsExplained
        (rules_of D.Kit.answers (D.kits decider.old)) named.now live.old uid.now (Some pod.now) text.items) }
    ensures same { live.new ≡ live.old }
    ensures kits { D.kits decider.new ≡ D.kits decider.old }
{
    let Ok(seen) = live.look() else {
        return Err(NoMemory);
    };
    let Ok(_) = decider.decide(rt, seen, pod, true) else {
        return Err(NoMemory);
    };
    let Ok(nodes) = live.look() else {
        return Err(NoMemory);
    };
    explained_text(alloc, named, pod, uid, nodes.rows(), decider.verdicts())
}

// What the desk knows.
fn dump<J: Naming, T: Wait>(
    rt: &T,
    alloc: Global,
    live: &mut LiveDesk<J>,
) -> Result<Vec<u8>, NoMemory>
    ensures text { IfOk result (λ text. text.items
        ≡ dump_text (snapshot live.old.desk.cluster) (reply live.old.desk 0 Count)) }
    ensures after { OnOk result (live.new ≡ steps live.old Count) }
{
    let Ok(nodes) = live.look() else {
        return Err(NoMemory);
    };
    let Ok(reply) = live.count(rt) else {
        return Err(NoMemory);
    };
    dump_text(alloc, &nodes, reply)
}
