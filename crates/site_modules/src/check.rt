//! Whether a module is accepted.
ghost use Rattle.std.specs.Prelude.{◌≡◌, ◌≢◌, ◌⊎◌, ◌^◌, ◌<◌, ◌≤◌, Some};
ghost use Rattle.std.specs.Io.KnownBytes.{Appends};
ghost use Rattle.streams.specs.Device.{AppendsFront, use_of};
ghost use Rattle.streams.specs.declared.fault.RunFault.TheVariants as run_fault;
ghost use Rattle.fault_line.specs.declared.fault.Fault.TheVariants.{Run};
ghost use Rattle.fault_line.specs.Message.{Tells, message_of};
ghost use Rattle.site_modules.specs.Check.{CannotRead, IsCheck};
ghost use Rattle.site_modules.specs.Verdict.{status_for, verdict_line};

use crate::folder::Files;
use crate::kits::file_fault;
use crate::verdict::{Verdict, line_of, verdict_on};
use fault_line::{Fault, report};
use std::alloc::Global;
use streams::{RunFault, Sink, write_all};
use wbin::LONGEST;

/// Says on `out` whether the bytes are a module that is accepted, as one line, and gives the exit
/// status: 0 for an accepted module, 1 for a refused one. Want of memory and a failed write go to
/// `err` as one line, and a failed write of that line changes nothing.
pub fn check_module<W: Sink, E: Sink>(alloc: Global, bytes: &[u8], out: &mut W, err: &mut E) -> u8
    requires writes { W.failure_count out.old < 10 ^ 18 }
    requires tells { E.failure_count err.old < 10 ^ 18 }
    ensures { IsCheck (Some bytes.now) (λ _. ⊥) (use_of W.written W.failure_count out.old out.new)
        (use_of E.written E.failure_count err.old err.new) result }
{
    match verdict_on(alloc, bytes) {
        Ok(verdict) => tell(verdict, out, err),
        Err(_) => report(Fault::Run(RunFault::NoMemory), err),
    }
}

// Writes the line of a verdict, and gives the exit status.
#[tactic(auto, using(crate::proofs::Verdicts::status_is, crate::proofs::Verdicts::whole_front))]
fn tell<W: Sink, E: Sink>(verdict: Verdict, out: &mut W, err: &mut E) -> u8
    requires writes { W.failure_count out.old < 10 ^ 18 }
    requires tells { E.failure_count err.old < 10 ^ 18 }
    ensures status { (result ≡ 0) ⊎ ((result ≡ 1) ⊎ (result ≡ 4)) }
    ensures told { result ≤ 1 → (result ≡ status_for verdict)
        × Appends (W.written out.old) (W.written out.new) (verdict_line verdict) }
    ensures quiet { result ≤ 1 → err.new ≡ err.old }
    ensures failed { result ≡ 4 → Tells (E.written err.old) (E.written err.new) (E.failure_count err.old)
        (E.failure_count err.new) (message_of (Run run_fault.Write))
        × (W.failure_count out.old < W.failure_count out.new) }
    ensures front { AppendsFront (W.written out.old) (W.written out.new) (verdict_line verdict) }
    ensures failures_told { result ≢ 4 → W.failure_count out.new ≡ W.failure_count out.old }
{
    match write_all(out, line_of(verdict).as_slice()) {
        Ok(()) => verdict.status(),
        Err(_) => report(Fault::Run(RunFault::Write), err),
    }
}

/// Says on `out` whether the file of this name has a module that is accepted, as `check_module`
/// does. That the file can't be opened or read goes to `err` as one line, with its name and the
/// cause, and nothing is written.
pub fn check_file<F: Files, W: Sink, E: Sink>(
    alloc: Global,
    name: &str,
    files: &mut F,
    out: &mut W,
    err: &mut E,
) -> u8
    requires reads { F.failure_count files.old < 10 ^ 18 }
    requires writes { W.failure_count out.old < 10 ^ 18 }
    requires tells { E.failure_count err.old < 10 ^ 18 }
    ensures check { IsCheck (F.contents files.old name.now)
        (CannotRead name.now (F.failure_count files.old) (F.failure_count files.new)) (use_of W.written W.failure_count out.old out.new) (use_of E.written E.failure_count err.old err.new) result }

    // And that is told of a file that failed: at any other status none has.
    ensures files_told { result ≢ 4 → F.failure_count files.new ≡ F.failure_count files.old }
{
    match files.read_front(alloc, name, LONGEST + 1) {
        Ok(bytes) => check_module(alloc, bytes.as_slice(), out, err),
        Err(RunFault::NoMemory) => report(Fault::Run(RunFault::NoMemory), err),
        Err(_) => report(Fault::UnreadModule(file_fault(name, files.cause())), err),
    }
}
