//! A run by a pool of kits, which lives as long as the run.
ghost use Rattle.std.specs.Prelude.{◌≡◌, ◌^◌, ◌<◌, ◌≤◌, ◌∷◌, Err, vec_len};
ghost use Rattle.std.specs.List.{All};
ghost use Rattle.choose.specs.Kits.{JudgeAlike, rules_of};
ghost use Rattle.pool.specs.Speaking.{SpeaksFor};
ghost use Rattle.streams.specs.Device.{use_of};
ghost use Rattle.engine.specs.Run.{IsRun};
ghost use Rattle.output_lines.specs.Telling.{telling};

use engine::run;
use output_lines::NamedRule;
use pool::{Blank, MAX_KITS, NoGate, Pool, Site};
use rules::Rules;
use std::alloc::Global;
use std::hash::RandomState;
use std::marker::Brand;
use std::sync::{Arc, Wait};
use std::thread::Threads;
use streams::{RunFault, Sink, Source};

// Runs a script by a pool, and ends the pool.
fn run_in<
    J: Site + Send + Sync + 'static,
    T: Wait + Threads + Copy + Send + Sync + 'static,
    K: Rules + Drop + Send + 'static,
    R: Source,
    W: Sink,
>(
    rt: &T,
    alloc: Global,
    keys: RandomState,
    named: &[NamedRule],
    explains: bool,
    blank: Blank,
    first: K,
    others: Vec<K>,
    source: &mut R,
    sink: &mut W,
) -> Result<(), RunFault>
where
    K::Notes: Send + 'static,
    requires most { vec_len others < MAX_KITS }
    requires pool { blank.seen.book ≡ J.book }
    requires first { SpeaksFor J.Says (K.answers first) }
    requires others { All (λ kit. SpeaksFor J.Says (K.answers kit)) others.items }
    requires reads { R.failure_count source.old < 10 ^ 18 }
    requires writes { W.failure_count sink.old < 10 ^ 18 }
    requires finite { R.bytes_left source.old < 2 ^ 64 }
    ensures run { IsRun (K.answers first) (telling named.now explains)
        (use_of R.remaining R.failure_count source.old source.new) (use_of W.written W.failure_count sink.old sink.new) result }
    ensures no_place { result ≡ Err RunFault.NoPlace → (source.new ≡ source.old) × (sink.new ≡ sink.old) }
{
    let Ok(gate) = Arc::new(alloc, NoGate) else {
        return Err(RunFault::NoMemory);
    };
    let mut pool = Pool::<J, K, NoGate>::start(*rt, alloc, blank, first, others, gate)?;
    let done = run(rt, alloc, keys, named, explains, &mut pool, source, sink);
    pool.end(rt);
    done
}

/// Runs a script as the engine's `run` does, by a pool of 1 to 64 kits that judge alike, as those
/// of the same plugins do: the first decides in this thread, and each other one has a worker, which
/// stays until the script has ended.
///
/// Errors: those of `run`. `NoMemory` comes where there is none for the pool too.
pub fn run_with_kits<
    T: Wait + Threads + Copy + Send + Sync + 'static,
    K: Rules + Drop + Send + 'static,
    R: Source,
    W: Sink,
>(
    rt: &T,
    alloc: Global,
    keys: RandomState,
    named: &[NamedRule],
    explains: bool,
    kits: Vec<K>,
    source: &mut R,
    sink: &mut W,
) -> Result<(), RunFault>
where
    K::Notes: Send + 'static,
    requires some { 0 < vec_len kits }
    requires most { vec_len kits ≤ MAX_KITS }
    requires alike { JudgeAlike K.answers kits.items }
    requires reads { R.failure_count source.old < 10 ^ 18 }
    requires writes { W.failure_count sink.old < 10 ^ 18 }
    requires finite { R.bytes_left source.old < 2 ^ 64 }
    ensures run { IsRun (rules_of K.answers kits.items) (telling named.now explains)
        (use_of R.remaining R.failure_count source.old source.new) (use_of W.written W.failure_count sink.old sink.new) result }
    ensures no_place { result ≡ Err RunFault.NoPlace → (source.new ≡ source.old) × (sink.new ≡ sink.old) }
{
    let mut others = kits;
    let first = others.remove(0);
    run_in::<Brand, T, K, R, W>(
        rt,
        alloc,
        keys,
        named,
        explains,
        Blank::new(),
        first,
        others,
        source,
        sink,
    )
}
