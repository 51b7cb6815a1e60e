//! The script of a storm: what the watch tells, and how time goes on.
ghost use Rattle.std.specs.Prelude.{◌≡◌, ◌≢◌, ◌⊎◌, ◌^◌, ◌<◌, ◌++◌, Some, None, [], ℕ, Err, IfOk, IfErr, IfSome, OnOk};
ghost use Rattle.std.specs.List.{All};
ghost use Rattle.desk.specs.Caller as caller;
ghost use Rattle.manifest.specs.Line as line;
ghost use Rattle.manifest.specs.Reading.{Answers};
ghost use Rattle.manifest.specs.declared.fault.LineFault.{LineFault as Fault};
ghost use Rattle.streams.specs.Script.{asked_by};
ghost use Rattle.watch_script.specs.Script.{watched, script_steps, first_storm_fault};

use crate::batch::{read_in_four, take_lines};
use desk::Step;
use manifest::{Command, Field, LineFault, read_line};
use std::alloc::{AllocError, Global};
use std::thread::Threads;
use streams::{LineReader, RunFault, Source};

// The step that a command asks for. What the watch doesn't tell is refused.
fn step_for(command: Command) -> Result<Step, LineFault>
    requires { line.IsTimely command }
    ensures step { result ≡ watched command }
    ensures timely { IfOk result caller.IsTimely }
{
    match command {
        Command::Event(event) => Ok(Step::Event(event)),
        Command::Tick(now) => Ok(Step::Tick(now)),
        Command::Cycle
        | Command::BindDone { uid: _, ticket: _ }
        | Command::Forget { uid: _, ticket: _ }
        | Command::Dump
        | Command::Judge(_) => Err(LineFault::BadField(Field::Op)),
    }
}

// The step that a line asks for: none, where it is empty.
#[tactic(auto, unfolding(streams::specs::Script::asked_by))]
pub(crate) fn step_in(alloc: Global, line: &[u8]) -> Result<Option<Step>, LineFault>
    ensures asked { Answers result (asked_by watched line.now) }
    ensures timely { IfOk result (λ step. IfSome step caller.IsTimely) }
{
    if line.is_empty() {
        return Ok(None);
    }
    let command = match read_line(alloc, line) {
        Ok(command) => command,
        Err(fault) => return Err(fault),
    };
    match step_for(command) {
        Ok(step) => Ok(Some(step)),
        Err(fault) => Err(fault),
    }
}

// How the fault of the line of this number ends a storm.
fn told_at(number: u64, fault: LineFault) -> RunFault
    ensures line { (n : ℕ) (f : Fault) → result ≡ RunFault.Line n f
        → (n ≡ number) × (f ≡ fault) × (fault ≢ LineFault.NoMemory) }
    ensures faults { (result ≡ RunFault.NoMemory) ⊎ (result ≡ RunFault.Line number fault) }
{
    match fault {
        LineFault::NoMemory => RunFault::NoMemory,
        fault => RunFault::Line(number, fault),
    }
}

// Adds steps.
fn add_all(steps: &mut Vec<Step>, more: Vec<Step>) -> Result<(), AllocError>
    ensures added { OnOk result (steps.new.items ≡ steps.old.items ++ more.items) }
{
    let mut more = more;
    if steps.append(&mut more).is_err() {
        return Err(AllocError);
    }
    Ok(())
}

/// Reads a script whole: the steps that its lines ask for, in order. A line ends at a newline,
/// which the last one may lack; an empty line is passed over and counted. Several threads read it,
/// many lines at once.
///
/// Errors: `Line` with the number of the first faulty line and its fault; `NoMemory`; `Read`.
pub fn read_script<T: Threads + Sync, R: Source>(
    rt: &T,
    alloc: Global,
    source: &mut R,
) -> Result<Vec<Step>, RunFault>
    requires reads { R.failure_count source.old < 10 ^ 18 }
    requires finite { R.bytes_left source.old < 2 ^ 64 }
    ensures read { IfOk result (λ steps. IfSome (R.remaining source.old) (λ script. (first_storm_fault script ≡ None)
        × (steps.items ≡ script_steps script) × (R.remaining source.new ≡ Some []))) }
    ensures timely { IfOk result (λ steps. All caller.IsTimely steps.items) }
    ensures line { (number : ℕ) (fault : Fault) → result ≡ Err (RunFault.Line number fault)
        → IfSome (R.remaining source.old) (λ script. first_storm_fault script ≡ Some (number, fault)) }
    ensures failed { result ≡ Err RunFault.Read → R.failure_count source.old < R.failure_count source.new }
    ensures told { result ≢ Err RunFault.Read → R.failure_count source.new ≡ R.failure_count source.old }
    ensures no_write { result ≢ Err RunFault.Write }
    ensures placed { result ≢ Err RunFault.NoPlace }
{
    let Ok(mut reader) = LineReader::new(alloc) else {
        return Err(RunFault::NoMemory);
    };
    let mut lines = Vec::new(alloc);
    let mut steps = Vec::new(alloc);
    let mut number = 0u64;
    'lines: loop {
        let more = match take_lines(alloc, &mut reader, source, &mut lines) {
            Ok(more) => more,
            Err(fault) => return Err(fault),
        };
        let part = read_in_four(rt, alloc, &lines);
        match part.fault {
            None => {
                let Ok(()) = add_all(&mut steps, part.steps) else {
                    return Err(RunFault::NoMemory);
                };
            }
            Some(faulty) => {
                return Err(told_at(number + faulty.before as u64 + 1, faulty.fault));
            }
        }
        if !more {
            return Ok(steps);
        }
        number += lines.len() as u64;
    }
}
