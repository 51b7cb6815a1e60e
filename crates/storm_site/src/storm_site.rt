//! A storm of a script, by the rules of a site's plugins.
ghost use Rattle.std.specs.Prelude.{◌≡◌, ◌≢◌, ◌∷◌, [], ◌^◌, ◌<◌, ⊤, None, IfOk, length, map};
ghost use Rattle.streams.specs.Device.{use_of};
ghost use Rattle.command.specs.Within.{IsStormPlan};
ghost use Rattle.command.specs.Words.{syntax_of};
ghost use Rattle.site_modules.specs.Files.{files_of};
ghost use Rattle.site_modules.specs.Told.{TellsFailures};
ghost use Rattle.storm_site.specs.Storm.{IsPlannedStorm, IsSiteStorm};
ghost use Rattle.storm_site.specs.inside.Storm.{audit_status};

use crate::stand_in::storm_by;
use command::StormPlan;
use fault_line::{Fault, report};
use plugin::KitRules;
use site_modules::{Files, modules_in, site_kits};
use std::alloc::{AllocError, Global};
use std::hash::RandomState;
use std::sync::Wait;
use std::thread::Threads;
use storm::OneKit;
use streams::{RunFault, Sink, Source};

// Reads a script whole from `source` and makes a storm of it: cycle threads that decide by the
// plugins that are planned, whose modules' bytes stand in their order, and binders that stand in
// for a cluster, at work on one desk at once. It writes the dump's lines and the audit's to `out`,
// and gives the exit status: 1 where the audit says no. A fault goes to `err` as one line, and a
// failed write of that line changes nothing.
fn serve_storm<T: Wait + Threads + Sync, R: Source, W: Sink, E: Sink>(
    rt: &T,
    alloc: Global,
    keys: RandomState,
    plan: &StormPlan<'_>,
    modules: &[Vec<u8>],
    source: &mut R,
    out: &mut W,
    err: &mut E,
) -> u8
    requires plan { IsStormPlan plan.now }
    requires modules { length modules.now ≡ length plan.now.specs.items }
    requires reads { R.failure_count source.old < 10 ^ 18 }
    requires writes { W.failure_count out.old < 10 ^ 18 }
    requires tells { E.failure_count err.old < 10 ^ 18 }
    requires finite { R.bytes_left source.old < 2 ^ 64 }
    ensures storm { IsSiteStorm (λ given. given ≡ map (λ m. m.items) modules.now) (map syntax_of plan.now.specs.items)
        plan.now.cycles plan.now.binders (use_of R.remaining R.failure_count source.old source.new)
        (use_of W.written W.failure_count out.old out.new) (use_of E.written E.failure_count err.old err.new) result }
    ensures failures { TellsFailures ⊤ ⊥ (λ _. ⊥) (use_of R.remaining R.failure_count source.old source.new)
        (use_of W.written W.failure_count out.old out.new) (use_of E.written E.failure_count err.old err.new) result }
{
    let kits = match site_kits(alloc, plan.specs.as_slice(), modules, plan.cycles) {
        Ok(kits) => kits,
        Err(refused) => return report(refused, err),
    };
    let Ok(deciders) = deciders_of(alloc, kits) else {
        return report(Fault::Run(RunFault::NoMemory), err);
    };
    match storm_by(
        rt,
        alloc,
        keys,
        source,
        out,
        deciders,
        plan.binders,
        plan.is_flaky,
    ) {
        Ok(is_right) => status_for(is_right),
        Err(fault) => report(Fault::Run(fault), err),
    }
}

// The exit status that tells what an audit said.
fn status_for(is_right: bool) -> u8
    ensures { result ≡ audit_status is_right }
{
    if is_right { 0 } else { 1 }
}

// One that decides for each kit, in the thread that asks it.
fn deciders_of(alloc: Global, kits: Vec<KitRules>) -> Result<Vec<OneKit<KitRules>>, AllocError>
    ensures { IfOk result (λ deciders. map (λ d. d.kit ∷ []) deciders.items ≡ map (λ kit. kit ∷ []) kits.items) }
{
    let mut deciders = Vec::new(alloc);
    for kit in kits {
        if deciders.push(OneKit::new(alloc, kit)).is_err() {
            return Err(AllocError);
        }
    }
    Ok(deciders)
}

/// Reads the plugins' files and makes a storm of a script by them, as `serve_storm` does. That a
/// file can't be read is told with the name of its plugin. That there are no keys, since the system
/// gave no random bytes, is told as a failed read. The script isn't read then.
pub fn storm_plan<T: Wait + Threads + Sync, F: Files, R: Source, W: Sink, E: Sink>(
    rt: &T,
    alloc: Global,
    keys: Option<RandomState>,
    plan: &StormPlan<'_>,
    files: &mut F,
    source: &mut R,
    out: &mut W,
    err: &mut E,
) -> u8
    requires plan { IsStormPlan plan.now }
    requires opens { F.failure_count files.old < 10 ^ 18 }
    requires reads { R.failure_count source.old < 10 ^ 18 }
    requires writes { W.failure_count out.old < 10 ^ 18 }
    requires tells { E.failure_count err.old < 10 ^ 18 }
    requires finite { R.bytes_left source.old < 2 ^ 64 }
    ensures { IsPlannedStorm plan.now.cycles plan.now.binders (map syntax_of plan.now.specs.items) (keys ≡ None)
        (files_of F.contents F.failure_count files.old files.new)
        (use_of R.remaining R.failure_count source.old source.new) (use_of W.written W.failure_count out.old out.new)
        (use_of E.written E.failure_count err.old err.new) result }
{
    let Some(keys) = keys else {
        return report(Fault::Run(RunFault::Read), err);
    };
    match modules_in(alloc, plan.specs.as_slice(), files) {
        Ok(modules) => serve_storm(rt, alloc, keys, plan, modules.as_slice(), source, out, err),
        Err(unread) => report(unread, err),
    }
}
