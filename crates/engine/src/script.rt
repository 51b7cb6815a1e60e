//! A script from its first line to its last.
ghost use Rattle.std.specs.Prelude.{◌≡◌, ◌≢◌, ◌^◌, ◌<◌, Err, [], vec_len, IsTrue, IfSome, IfOk, OnOk, OnErr, IfErr};
ghost use Rattle.std.specs.Io.KnownBytes.{Appends};
ghost use Rattle.streams.specs.Device.{AppendsFront, CountsFailure, use_of};
ghost use Rattle.streams.specs.inside.Device.{WritesSome};
ghost use Rattle.manifest.specs.Line.{IsTimely};
ghost use Rattle.manifest.specs.Reading.{Answers};
ghost use Rattle.choose.specs.Kits.{rules_of};
ghost use Rattle.streams.specs.Script.{asked_by};
ghost use Rattle.streams.specs.Script.{taken};
ghost use Rattle.engine.specs.inside.Output.{IsAnswered, IsLineFault};
ghost use Rattle.engine.specs.Run.{IsRun};
ghost use Rattle.output_lines.specs.Telling.{telling};
ghost use Rattle.session.specs.Answers.{opening};
ghost use Rattle.streams.specs.Greatest.{limits};

use choose::Decider;
use desk::{Blank, Limits, Naming};
use manifest::{Command, LineFault, read_line};
use output_lines::NamedRule;
use session::Session;
use std::alloc::Global;
use std::hash::RandomState;
use std::marker::Brand;
use std::sync::Wait;
use std::thread::Threads;
use streams::{LineReader, RunFault, Sink, Source, write_all};

// So much output may wait before it is written, while whole lines are there to be answered. One
// piece of input can ask for thousands of dumps, each as long as all nodes' lines.
const MAX_PENDING: usize = 65_536;

// Writes what waits to be written.
fn flush<W: Sink>(sink: &mut W, pending: &mut Vec<u8>) -> Result<(), RunFault>
    requires { W.failure_count sink.old < 10 ^ 18 }
    ensures written { OnOk result (Appends (W.written sink.old) (W.written sink.new) pending.old.items) }
    ensures empty { OnOk result (pending.new.items ≡ []) }
    ensures front { OnErr result (AppendsFront (W.written sink.old) (W.written sink.new) pending.old.items) }
    ensures failed { CountsFailure (W.failure_count sink.old) (W.failure_count sink.new) result }
    ensures faults { IfErr result (λ e. e ≡ RunFault.Write) }
{
    let Ok(()) = write_all(sink, pending) else {
        return Err(RunFault::Write);
    };
    pending.clear();
    Ok(())
}

// Writes what waits, where it is due or has grown to the most that may wait.
fn flush_if<W: Sink>(sink: &mut W, pending: &mut Vec<u8>, due: bool) -> Result<(), RunFault>
    requires { W.failure_count sink.old < 10 ^ 18 }
    ensures written { OnOk result (WritesSome (W.written sink.old) (W.written sink.new) pending.old.items
        pending.new.items) }
    ensures told { OnOk result (IsTrue due → pending.new.items ≡ []) }
    ensures bounded { OnOk result (vec_len pending.new < MAX_PENDING) }
    ensures front { OnErr result (AppendsFront (W.written sink.old) (W.written sink.new) pending.old.items) }
    ensures failed { CountsFailure (W.failure_count sink.old) (W.failure_count sink.new) result }
    ensures faults { IfErr result (λ e. e ≡ RunFault.Write) }
{
    if due || pending.len() >= MAX_PENDING {
        return flush(sink, pending);
    }
    Ok(())
}

// What a line asks for: nothing, where it is empty.
#[tactic(auto, unfolding(streams::specs::Script::asked_by))]
fn asked_in(alloc: Global, line: &[u8]) -> Result<Option<Command>, LineFault>
    ensures asked { Answers result (asked_by taken line.now) }
    ensures timely { IfOk result (λ asked. IfSome asked IsTimely) }
{
    if line.is_empty() {
        return Ok(None);
    }
    let command = read_line(alloc, line)?;
    Ok(Some(command))
}

// Does what a line asks for, and adds the answer to what waits, so that no more waits than the most
// that may and this answer. A faulty line changes nothing.
fn answer_line<J: Naming, T: Wait + Threads + Sync, D: Decider>(
    rt: &T,
    alloc: Global,
    named: &[NamedRule],
    explains: bool,
    decider: &mut D,
    session: &mut Session<J>,
    line: &[u8],
    number: u64,
    pending: &mut Vec<u8>,
) -> Result<(), RunFault>
    requires { vec_len pending.old < MAX_PENDING }
    ensures answered { OnOk result (IsAnswered (rules_of D.Kit.answers (D.kits decider.old))
        (telling named.now explains) (asked_by taken line.now) session.old session.new
        pending.old.items pending.new.items) }
    ensures kept { OnErr result (pending.new.items ≡ pending.old.items) }
    ensures kits { D.kits decider.new ≡ D.kits decider.old }
    ensures faults { IfErr result (IsLineFault number (asked_by taken line.now)) }
{
    match asked_in(alloc, line) {
        Ok(None) => Ok(()),
        Ok(Some(asked)) => Ok(session.answer(rt, named, explains, decider, asked, pending)?),
        Err(LineFault::NoMemory) => Err(RunFault::NoMemory),
        Err(fault) => Err(RunFault::Line(number, fault)),
    }
}

// Does what the lines of a script ask of a new desk, up to the first faulty one, and writes the
// answers.
fn run_lines<J: Naming, T: Wait + Threads + Sync, D: Decider, R: Source, W: Sink>(
    rt: &T,
    alloc: Global,
    named: &[NamedRule],
    explains: bool,
    decider: &mut D,
    session: &mut Session<J>,
    source: &mut R,
    sink: &mut W,
) -> Result<(), RunFault>
    requires opening { session.old ≡ opening }
    requires reads { R.failure_count source.old < 10 ^ 18 }
    requires writes { W.failure_count sink.old < 10 ^ 18 }
    requires finite { R.bytes_left source.old < 2 ^ 64 }
    ensures run { IsRun (rules_of D.Kit.answers (D.kits decider.old)) (telling named.now explains)
        (use_of R.remaining R.failure_count source.old source.new) (use_of W.written W.failure_count sink.old sink.new) result }
    ensures placed { result ≢ Err RunFault.NoPlace }
    ensures kits { D.kits decider.new ≡ D.kits decider.old }
{
    let mut reader = LineReader::new(alloc)?;
    let mut line = Vec::new(alloc);
    let mut pending = Vec::new(alloc);
    let mut number = 0u64;
    'lines: loop {
        flush_if(sink, &mut pending, !reader.has_line())?;
        if !reader.next_line(source, &mut line, &pending)? {
            return flush(sink, &mut pending);
        }
        number += 1;
        let answered = answer_line(
            rt,
            alloc,
            named,
            explains,
            decider,
            session,
            &line,
            number,
            &mut pending,
        );
        if let Err(fault) = answered {
            flush(sink, &mut pending)?;
            return Err(fault);
        }
    }
}

// Opens a desk, does what the lines of a script ask of it, and ends it.
fn run_desk<J: Naming, T: Wait + Threads + Sync, D: Decider, R: Source, W: Sink>(
    rt: &T,
    blank: Blank,
    alloc: Global,
    keys: RandomState,
    greatest: Limits,
    named: &[NamedRule],
    explains: bool,
    decider: &mut D,
    source: &mut R,
    sink: &mut W,
) -> Result<(), RunFault>
    requires named { blank.seen.book ≡ J.book }
    requires limits { greatest ≡ J.limits }
    requires greatest { greatest ≡ limits }
    requires reads { R.failure_count source.old < 10 ^ 18 }
    requires writes { W.failure_count sink.old < 10 ^ 18 }
    requires finite { R.bytes_left source.old < 2 ^ 64 }
    ensures run { IsRun (rules_of D.Kit.answers (D.kits decider.old)) (telling named.now explains)
        (use_of R.remaining R.failure_count source.old source.new) (use_of W.written W.failure_count sink.old sink.new) result }
    ensures no_place { result ≡ Err RunFault.NoPlace → (source.new ≡ source.old) × (sink.new ≡ sink.old) }
    ensures kits { D.kits decider.new ≡ D.kits decider.old }
{
    let mut session = Session::<J>::new(rt, blank, alloc, keys, greatest)?;
    let done = run_lines(
        rt,
        alloc,
        named,
        explains,
        decider,
        &mut session,
        source,
        sink,
    );
    session.end(rt);
    done
}

/// Reads a script to its end or its first faulty line, does what its lines ask of a new desk with
/// one pass, and writes the answers. A cycle goes by the decider; the names and weights of its
/// rules are handed in beside it, in their order, as they are to be told. Where cycles are to be
/// explained, the line of each that popped a pod has those of the nodes that it saw in front. Names
/// are looked up under the keys. A line ends at a newline, which the last one may lack; an empty
/// line is passed over and counted.
///
/// Before more is read, all answers so far are written, so that a peer that waits for them goes on.
/// While whole lines are there, fewer than 64 KiB of output wait, and the answer to one line.
///
/// Errors: `Line` with the number of the first faulty line and its fault, when the answers to all
/// lines before it are written; `NoMemory`, `Read` and `Write`, when a beginning of the output is
/// written; `NoPlace`, when nothing is read or written.
pub fn run<T: Wait + Threads + Sync, D: Decider, R: Source, W: Sink>(
    rt: &T,
    alloc: Global,
    keys: RandomState,
    named: &[NamedRule],
    explains: bool,
    decider: &mut D,
    source: &mut R,
    sink: &mut W,
) -> Result<(), RunFault>
    requires reads { R.failure_count source.old < 10 ^ 18 }
    requires writes { W.failure_count sink.old < 10 ^ 18 }
    requires finite { R.bytes_left source.old < 2 ^ 64 }
    ensures run { IsRun (rules_of D.Kit.answers (D.kits decider.old)) (telling named.now explains)
        (use_of R.remaining R.failure_count source.old source.new) (use_of W.written W.failure_count sink.old sink.new) result }
    ensures no_place { result ≡ Err RunFault.NoPlace → (source.new ≡ source.old) × (sink.new ≡ sink.old) }
    ensures kits { D.kits decider.new ≡ D.kits decider.old }
{
    run_desk::<Brand, T, D, R, W>(
        rt,
        Blank::new(),
        alloc,
        keys,
        Limits::greatest(),
        named,
        explains,
        decider,
        source,
        sink,
    )
}
