//! Lines that are answered by a pool of kits, which lives until they have ended.
ghost use Rattle.std.specs.Prelude.{◌≡◌, ◌^◌, ◌<◌, ◌≤◌, ◌∷◌, vec_len};
ghost use Rattle.std.specs.List.{All};
ghost use Rattle.choose.specs.Kits.{JudgeAlike, rules_of};
ghost use Rattle.pool.specs.Speaking.{SpeaksFor};
ghost use Rattle.streams.specs.Device.{use_of};
ghost use Rattle.live.specs.Live.{IsLive, manner};
ghost use Rattle.live_line.specs.Scope.{site_of};

use crate::live_run::serve_live;
use fault_line::{Fault, report};
use live_line::Scope;
use output_lines::NamedRule;
use pool::{Blank, MAX_KITS, NoGate, Pool, Site as Fleet};
use rules::Rules;
use std::alloc::Global;
use std::hash::RandomState;
use std::marker::Brand;
use std::sync::{Arc, Wait};
use std::thread::Threads;
use streams::{RunFault, Sink, Source};

// Answers lines by a pool, and ends the pool.
fn live_in<
    J: Fleet + Send + Sync + 'static,
    T: Wait + Threads + Copy + Send + Sync + 'static,
    K: Rules + Drop + Send + 'static,
    R: Source,
    W: Sink,
    E: Sink,
>(
    rt: &T,
    alloc: Global,
    keys: RandomState,
    site: &Scope<'_>,
    named: &[NamedRule],
    blank: Blank,
    first: K,
    others: Vec<K>,
    source: &mut R,
    out: &mut W,
    err: &mut E,
) -> u8
where
    K::Notes: Send + 'static,
    requires most { vec_len others < MAX_KITS }
    requires pool { blank.seen.book ≡ J.book }
    requires first { SpeaksFor J.Says (K.answers first) }
    requires others { All (λ kit. SpeaksFor J.Says (K.answers kit)) others.items }
    requires reads { R.failure_count source.old < 10 ^ 18 }
    requires writes { W.failure_count out.old < 10 ^ 18 }
    requires tells { E.failure_count err.old < 10 ^ 18 }
    ensures { IsLive (manner (site_of site.now) (K.answers first) named.now)
        (use_of R.remaining R.failure_count source.old source.new) (use_of W.written W.failure_count out.old out.new)
        (use_of E.written E.failure_count err.old err.new) result }
{
    let Ok(gate) = Arc::new(alloc, NoGate) else {
        return report(Fault::Run(RunFault::NoMemory), err);
    };
    let Ok(mut pool) = Pool::<J, K, NoGate>::start(*rt, alloc, blank, first, others, gate) else {
        return report(Fault::Run(RunFault::NoMemory), err);
    };
    let done = serve_live(rt, alloc, keys, site, named, &mut pool, source, out, err);
    pool.end(rt);
    done
}

/// Answers the lines of `source` as `serve_live` does, by a pool of 1 to 64 kits that judge alike,
/// as those of the same plugins do: the first decides in this thread, and each other one has a
/// worker, which stays until the lines have ended.
pub fn live_with_kits<
    T: Wait + Threads + Copy + Send + Sync + 'static,
    K: Rules + Drop + Send + 'static,
    R: Source,
    W: Sink,
    E: Sink,
>(
    rt: &T,
    alloc: Global,
    keys: RandomState,
    site: &Scope<'_>,
    named: &[NamedRule],
    kits: Vec<K>,
    source: &mut R,
    out: &mut W,
    err: &mut E,
) -> u8
where
    K::Notes: Send + 'static,
    requires some { 0 < vec_len kits }
    requires most { vec_len kits ≤ MAX_KITS }
    requires alike { JudgeAlike K.answers kits.items }
    requires reads { R.failure_count source.old < 10 ^ 18 }
    requires writes { W.failure_count out.old < 10 ^ 18 }
    requires tells { E.failure_count err.old < 10 ^ 18 }
    ensures { IsLive (manner (site_of site.now) (rules_of K.answers kits.items) named.now)
        (use_of R.remaining R.failure_count source.old source.new) (use_of W.written W.failure_count out.old out.new)
        (use_of E.written E.failure_count err.old err.new) result }
{
    let mut others = kits;
    let first = others.remove(0);
    live_in::<Brand, T, K, R, W, E>(
        rt,
        alloc,
        keys,
        site,
        named,
        Blank::new(),
        first,
        others,
        source,
        out,
        err,
    )
}
