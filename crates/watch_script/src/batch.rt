//! Lines of a script that are read at once, by several threads.
ghost use Rattle.std.specs.Prelude.{◌≡◌, ◌≢◌, ◌⊎◌, ◌+◌, ◌^◌, ◌<◌, ◌≤◌, ◌++◌, ◌∷◌, [], option_to_list, true, false, map, take, drop, length, vec_len, Some, Ok, Err, IsErrOf, IfErr, OnOk, IsTrue};
ghost use Rattle.std.specs.List.{sum_by};
ghost use Rattle.std.specs.Io.KnownBytes.{prepend_known};
ghost use denote.Param.Send.{IsSync};
ghost use Rattle.watch_script.specs.inside.Lines.{AreRead, TakesLines, TakesLast};

use crate::script::step_in;
use desk::Step;
use manifest::LineFault;
use std::alloc::Global;
use std::thread::{Threads, join};
use streams::{LineReader, RunFault, Source};

/// How many lines are read at once, at most.
pub(crate) const BATCH: usize = 4_096;

// No line is added to as many bytes of lines as these, so a batch of long lines is a short one.
const BATCH_BYTES: usize = 1_048_576;

// So few lines are read sooner than a thread is started.
const FEW: usize = 32;

/// The first faulty one of several lines.
#[derive(Clone, Copy)]
pub(crate) struct Faulty {
    /// How many lines stand before it.
    pub(crate) before: usize,
    pub(crate) fault: LineFault,
}

/// The steps that lines ask for, up to the first faulty one.
#[derive(Drop)]
pub(crate) struct Part {
    pub(crate) steps: Vec<Step>,
    pub(crate) fault: Option<Faulty>,
}

// Adds a step, if there is one, and tells whether there was memory for it.
fn add(steps: &mut Vec<Step>, asked: Option<Step>) -> bool
    ensures added { result ≡ true → steps.new.items ≡ steps.old.items ++ option_to_list asked }
    ensures kept { result ≡ false → steps.new.items ≡ steps.old.items }
{
    match asked {
        None => true,
        Some(step) => steps.push(step).is_ok(),
    }
}

// What was read where there was no memory for more than these steps, at the line behind so many.
fn no_memory(steps: Vec<Step>, before: usize) -> Part
    ensures { result ≡ record { steps = steps; fault = Some (record { before = before; fault = LineFault.NoMemory }) } }
{
    let fault = LineFault::NoMemory;
    Part {
        steps,
        fault: Some(Faulty { before, fault }),
    }
}

// Reads lines in this thread.
fn read_here(alloc: Global, lines: &[Vec<u8>]) -> Part
    ensures { AreRead (map (λ l. l.items) lines.now) result.steps.items result.fault }
{
    let mut steps = Vec::new(alloc);
    for before in 0..lines.len() {
        match step_in(alloc, &lines[before]) {
            Ok(asked) => {
                if !add(&mut steps, asked) {
                    return no_memory(steps, before);
                }
            }
            Err(fault) => {
                return Part {
                    steps,
                    fault: Some(Faulty { before, fault }),
                };
            }
        }
    }
    Part { steps, fault: None }
}

// What lines ask for, of which the first ones and the others were read apart.
fn together(lines: &[Vec<u8>], mid: usize, first: Part, second: Part) -> Part
    requires mid { mid < length lines.now }
    requires first { AreRead (map (λ l. l.items) (take mid lines.now)) first.steps.items first.fault }
    requires second { AreRead (map (λ l. l.items) (drop mid lines.now)) second.steps.items second.fault }
    ensures { AreRead (map (λ l. l.items) lines.now) result.steps.items result.fault }
{
    let mut steps = first.steps;
    match first.fault {
        Some(fault) => {
            return Part {
                steps,
                fault: Some(fault),
            };
        }
        None => {}
    }
    let mut more = second.steps;
    match second.fault {
        Some(faulty) => {
            return Part {
                steps,
                fault: Some(Faulty {
                    before: mid + faulty.before,
                    fault: faulty.fault,
                }),
            };
        }
        None => {}
    }
    if steps.append(&mut more).is_err() {
        return no_memory(steps, mid);
    }
    Part { steps, fault: None }
}

// Reads lines in two threads.
fn read_in_two<R: Threads + Sync>(rt: &R, alloc: Global, lines: &[Vec<u8>]) -> Part
    ensures { AreRead (map (λ l. l.items) lines.now) result.steps.items result.fault }
{
    if lines.len() < FEW {
        return read_here(alloc, lines);
    }
    let mid = lines.len() / 2;
    let (front, back) = lines.split_at(mid);
    let (first, second) = join(
        rt,
        || -> Part
            ensures { AreRead (map (λ l. l.items) front.entry.now) result.steps.items result.fault }
        { read_here(alloc, front) },
        || -> Part
            ensures { AreRead (map (λ l. l.items) back.entry.now) result.steps.items result.fault }
        { read_here(alloc, back) },
    );
    together(lines, mid, first, second)
}

/// Reads lines in four threads.
pub(crate) fn read_in_four<R: Threads + Sync>(rt: &R, alloc: Global, lines: &[Vec<u8>]) -> Part
    ensures { AreRead (map (λ l. l.items) lines.now) result.steps.items result.fault }
{
    if lines.len() < FEW {
        return read_here(alloc, lines);
    }
    let mid = lines.len() / 2;
    let (front, back) = lines.split_at(mid);
    let (first, second) = join(
        rt,
        || -> Part
            requires { IsSync R.row }
            ensures { AreRead (map (λ l. l.items) front.entry.now) result.steps.items result.fault }
        { read_in_two(rt, alloc, front) },
        || -> Part
            requires { IsSync R.row }
            ensures { AreRead (map (λ l. l.items) back.entry.now) result.steps.items result.fault }
        { read_in_two(rt, alloc, back) },
    );
    together(lines, mid, first, second)
}

// Adds a line.
fn put(lines: &mut Vec<Vec<u8>>, line: Vec<u8>) -> Result<(), RunFault>
    ensures put { OnOk result (lines.new.items ≡ lines.old.items ++ line ∷ []) }
    ensures many { OnOk result (vec_len lines.new ≡ vec_len lines.old + 1) }
    ensures faults { IfErr result (λ e. e ≡ RunFault.NoMemory) }
{
    if lines.push(line).is_err() {
        return Err(RunFault::NoMemory);
    }
    Ok(())
}

/// Takes the next lines of a source, as many as are read at once or all that are left, and says
/// whether more may be. They have 1 MiB and a line in all, at most.
///
/// Errors: `Read`, and `NoMemory` where there is none for a line.
pub(crate) fn take_lines<R: Source>(
    alloc: Global,
    reader: &mut LineReader,
    source: &mut R,
    lines: &mut Vec<Vec<u8>>,
) -> Result<bool, RunFault>
    requires reads { R.failure_count source.old < 10 ^ 18 }
    ensures more { result ≡ Ok true → TakesLines (prepend_known reader.old (R.remaining source.old))
        (prepend_known reader.new (R.remaining source.new)) (map (λ l. l.items) lines.new.items) }
    ensures some { result ≡ Ok true → 0 < vec_len lines.new }
    ensures ended { result ≡ Ok false → TakesLast (prepend_known reader.old (R.remaining source.old))
        reader.new (R.remaining source.new) (map (λ l. l.items) lines.new.items) }
    ensures few { OnOk result (vec_len lines.new ≤ R.bytes_left source.old + length reader.old) }
    ensures short { OnOk result (sum_by (λ l. vec_len l) lines.new.items ≤ 1048576 + 65537) }
    ensures less { result ≡ Ok true → vec_len lines.new + (R.bytes_left source.new + length reader.new)
        ≤ R.bytes_left source.old + length reader.old }
    ensures failed { IsErrOf result RunFault.Read → R.failure_count source.old < R.failure_count source.new }
    ensures kept { result ≢ Err RunFault.Read → R.failure_count source.new ≡ R.failure_count source.old }
    ensures faults { IfErr result (λ e. (e ≡ RunFault.Read) ⊎ (e ≡ RunFault.NoMemory)) }
{
    lines.clear();
    let mut room = BATCH_BYTES;
    for _ in 0..BATCH {
        let mut line = Vec::new(alloc);
        let found = match reader.next_line(source, &mut line, &[]) {
            Ok(found) => found,
            Err(fault) => return Err(fault),
        };
        if !found {
            return Ok(false);
        }
        room = room.saturating_sub(line.len());
        let Ok(()) = put(lines, line) else {
            return Err(RunFault::NoMemory);
        };
        if room == 0 {
            return Ok(true);
        }
    }
    Ok(true)
}
