//! A run of a script, by the rules of a site's plugins.
ghost use Rattle.std.specs.Prelude.{◌≡◌, ◌≢◌, ◌^◌, ◌<◌, None, length, map};
ghost use Rattle.streams.specs.Device.{use_of};
ghost use Rattle.command.specs.Within.{IsPlan};
ghost use Rattle.command.specs.Words.{syntax_of};
ghost use Rattle.site.specs.Planned.{IsPlannedRun};
ghost use Rattle.site_modules.specs.Files.{files_of};
ghost use Rattle.site.specs.Run.{IsSiteRun};
ghost use Rattle.site_modules.specs.Told.{TellsFailures};

use crate::with_kits::run_with_kits;
use command::Plan;
use fault_line::{Fault, report};
use site_modules::{Files, modules_in, named_in, site_kits};
use std::alloc::Global;
use std::hash::RandomState;
use std::sync::Wait;
use std::thread::Threads;
use streams::{RunFault, Sink, Source};

/// Reads a script from `source`, decides by the plugins that are planned, whose modules' bytes
/// stand in their order, writes the answers to `out`, and gives the exit status. A fault goes to
/// `err` as one line, and a failed write of that line changes nothing. Names are looked up under
/// the keys, which whoever writes the script can't know. Where it explains, what was decided of
/// each node stands before a cycle's line.
pub fn serve<T: Wait + Threads + Copy + Send + Sync + 'static, R: Source, W: Sink, E: Sink>(
    rt: &T,
    alloc: Global,
    keys: RandomState,
    plan: &Plan<'_>,
    explains: bool,
    modules: &[Vec<u8>],
    source: &mut R,
    out: &mut W,
    err: &mut E,
) -> u8
    requires plan { IsPlan plan.now }
    requires modules { length modules.now ≡ length plan.now.specs.items }
    requires reads { R.failure_count source.old < 10 ^ 18 }
    requires writes { W.failure_count out.old < 10 ^ 18 }
    requires tells { E.failure_count err.old < 10 ^ 18 }
    requires finite { R.bytes_left source.old < 2 ^ 64 }
    ensures run { IsSiteRun explains (λ given. given ≡ map (λ m. m.items) modules.now)
        (map syntax_of plan.now.specs.items) (use_of R.remaining R.failure_count source.old source.new)
        (use_of W.written W.failure_count out.old out.new) (use_of E.written E.failure_count err.old err.new) result }
    ensures failures { TellsFailures (source.new ≡ source.old) ⊥ (λ _. ⊥)
        (use_of R.remaining R.failure_count source.old source.new) (use_of W.written W.failure_count out.old out.new)
        (use_of E.written E.failure_count err.old err.new) result }
{
    let kits = match site_kits(alloc, plan.specs.as_slice(), modules, plan.workers) {
        Ok(kits) => kits,
        Err(refused) => return report(refused, err),
    };
    let Ok(named) = named_in(alloc, plan.specs.as_slice()) else {
        return report(Fault::Run(RunFault::NoMemory), err);
    };
    match run_with_kits(
        rt,
        alloc,
        keys,
        named.as_slice(),
        explains,
        kits,
        source,
        out,
    ) {
        Ok(()) => 0,
        Err(fault) => report(Fault::Run(fault), err),
    }
}

/// Reads the plugins' files and serves a script by them, as `serve` does. That a file can't be read
/// is told with the name of its plugin. That there are no keys, since the system gave no random
/// bytes, is told as a failed read. The script isn't read then.
pub fn serve_plan<
    T: Wait + Threads + Copy + Send + Sync + 'static,
    F: Files,
    R: Source,
    W: Sink,
    E: Sink,
>(
    rt: &T,
    alloc: Global,
    keys: Option<RandomState>,
    plan: &Plan<'_>,
    explains: bool,
    files: &mut F,
    source: &mut R,
    out: &mut W,
    err: &mut E,
) -> u8
    requires plan { IsPlan plan.now }
    requires opens { F.failure_count files.old < 10 ^ 18 }
    requires reads { R.failure_count source.old < 10 ^ 18 }
    requires writes { W.failure_count out.old < 10 ^ 18 }
    requires tells { E.failure_count err.old < 10 ^ 18 }
    requires finite { R.bytes_left source.old < 2 ^ 64 }
    ensures { IsPlannedRun explains (map syntax_of plan.now.specs.items) (keys ≡ None)
        (files_of F.contents F.failure_count files.old files.new)
        (use_of R.remaining R.failure_count source.old source.new) (use_of W.written W.failure_count out.old out.new)
        (use_of E.written E.failure_count err.old err.new) result }
{
    let Some(keys) = keys else {
        return report(Fault::Run(RunFault::Read), err);
    };
    match modules_in(alloc, plan.specs.as_slice(), files) {
        Ok(modules) => serve(
            rt,
            alloc,
            keys,
            plan,
            explains,
            modules.as_slice(),
            source,
            out,
            err,
        ),
        Err(unread) => report(unread, err),
    }
}
