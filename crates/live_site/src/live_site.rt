//! A cluster that is told and decided of, by the rules of a site's plugins.
ghost use Rattle.std.specs.Prelude.{◌≡◌, ◌^◌, ◌<◌, None, length, map};
ghost use Rattle.streams.specs.Device.{use_of};
ghost use Rattle.command.specs.Within.{IsPlan};
ghost use Rattle.command.specs.Words.{syntax_of};
ghost use Rattle.site_modules.specs.Files.{files_of};
ghost use Rattle.live_site.specs.Live.{IsPlannedLive, IsSiteLive, read_for};

use command::LivePlan;
use fault_line::{Fault, report};
use live::live_with_kits;
use live_line::Scope;
use site_modules::{Files, modules_in, named_in, site_kits};
use std::alloc::Global;
use std::hash::RandomState;
use std::sync::Wait;
use std::thread::Threads;
use streams::{RunFault, Sink, Source};

// Answers the lines of `source` by the plugins that are planned, whose modules' bytes stand in their
// order.
fn serve_site<T: Wait + Threads + Copy + Send + Sync + 'static, R: Source, W: Sink, E: Sink>(
    rt: &T,
    alloc: Global,
    keys: RandomState,
    plan: &LivePlan<'_>,
    modules: &[Vec<u8>],
    source: &mut R,
    out: &mut W,
    err: &mut E,
) -> u8
    requires plan { IsPlan plan.now.plan }
    requires modules { length modules.now ≡ length plan.now.plan.specs.items }
    requires reads { R.failure_count source.old < 10 ^ 18 }
    requires writes { W.failure_count out.old < 10 ^ 18 }
    requires tells { E.failure_count err.old < 10 ^ 18 }
    ensures { IsSiteLive (λ given. given ≡ map (λ m. m.items) modules.now)
        (map syntax_of plan.now.plan.specs.items) (read_for plan.now.scheduler.now plan.now.labels.now)
        (use_of R.remaining R.failure_count source.old source.new) (use_of W.written W.failure_count out.old out.new)
        (use_of E.written E.failure_count err.old err.new) result }
{
    let specs = plan.plan.specs.as_slice();
    let kits = match site_kits(alloc, specs, modules, plan.plan.workers) {
        Ok(kits) => kits,
        Err(refused) => return report(refused, err),
    };
    let Ok(named) = named_in(alloc, specs) else {
        return report(Fault::Run(RunFault::NoMemory), err);
    };
    let site = Scope {
        scheduler: plan.scheduler,
        labels: plan.labels,
    };
    live_with_kits(
        rt,
        alloc,
        keys,
        &site,
        named.as_slice(),
        kits,
        source,
        out,
        err,
    )
}

/// Reads the plugins' files, and answers the lines of `source` by them, as `serve_live` does. That a
/// module is refused, that a file can't be read, with the name of its plugin, and that there are no
/// keys, since the system gave no random bytes, as a failed read, is told on `err`: then nothing is
/// read or written.
pub fn live_plan<
    T: Wait + Threads + Copy + Send + Sync + 'static,
    F: Files,
    R: Source,
    W: Sink,
    E: Sink,
>(
    rt: &T,
    alloc: Global,
    keys: Option<RandomState>,
    plan: &LivePlan<'_>,
    files: &mut F,
    source: &mut R,
    out: &mut W,
    err: &mut E,
) -> u8
    requires plan { IsPlan plan.now.plan }
    requires opens { F.failure_count files.old < 10 ^ 18 }
    requires reads { R.failure_count source.old < 10 ^ 18 }
    requires writes { W.failure_count out.old < 10 ^ 18 }
    requires tells { E.failure_count err.old < 10 ^ 18 }
    ensures { IsPlannedLive (read_for plan.now.scheduler.now plan.now.labels.now)
        (map syntax_of plan.now.plan.specs.items) (keys ≡ None)
        (files_of F.contents F.failure_count files.old files.new)
        (use_of R.remaining R.failure_count source.old source.new) (use_of W.written W.failure_count out.old out.new)
        (use_of E.written E.failure_count err.old err.new) result }
{
    let Some(keys) = keys else {
        return report(Fault::Run(RunFault::Read), err);
    };
    match modules_in(alloc, plan.plan.specs.as_slice(), files) {
        Ok(modules) => serve_site(rt, alloc, keys, plan, modules.as_slice(), source, out, err),
        Err(unread) => report(unread, err),
    }
}
