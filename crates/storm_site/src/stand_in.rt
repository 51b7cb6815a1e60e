//! Binders that stand in for a cluster.
ghost use Rattle.std.specs.Prelude.{◌≡◌, ◌<◌, ◌^◌, ◌∷◌, [], vec_len};
ghost use Rattle.streams.specs.Device.{use_of};
ghost use Rattle.choose.specs.Kits as choosing;
ghost use Rattle.plugin.specs.Kit.{rules_of};
ghost use Rattle.storm.specs.Storm.{IsStormRun};

use binder::{BindAnswer, Binder, Tally};
use plugin::KitRules;
use quant::Name;
use std::alloc::Global;
use std::hash::RandomState;
use std::sync::Wait;
use std::thread::Threads;
use storm::{OneKit, storm};
use streams::{RunFault, Sink, Source};

// A binder that tells no cluster. Each bind that it is asked for is done, but where it is flaky
// every third one fails.
#[derive(Drop)]
struct StandIn {
    is_flaky: bool,
    tally: Tally,
}

impl StandIn {
    // No bind was asked for yet.
    fn new(is_flaky: bool) -> StandIn {
        StandIn {
            is_flaky,
            tally: Tally::new(),
        }
    }
}

impl Binder for StandIn {
    ghost asks = { λ b. b.tally.asked };

    ghost dones = { λ b. b.tally.done };

    ghost told = { λ b. b.tally.last };

    fn asked(&self) -> u64 {
        self.tally.asked
    }

    fn bind(&mut self, uid: &Name, node: &Name) -> BindAnswer {
        let answer = if self.is_flaky && self.tally.asked % 3 == 2 {
            BindAnswer::Failed
        } else {
            BindAnswer::Done
        };
        self.tally.count(uid, node, answer);
        answer
    }
}

/// A storm with so many of these binders.
pub(crate) fn storm_by<T: Wait + Threads + Sync, R: Source, W: Sink>(
    rt: &T,
    alloc: Global,
    keys: RandomState,
    source: &mut R,
    out: &mut W,
    deciders: Vec<OneKit<KitRules>>,
    binders: usize,
    is_flaky: bool,
) -> Result<bool, RunFault>
    requires reads { R.failure_count source.old < 10 ^ 18 }
    requires writes { W.failure_count out.old < 10 ^ 18 }
    requires finite { R.bytes_left source.old < 2 ^ 64 }
    requires some_decider { 0 < vec_len deciders }
    requires some_binder { 0 < binders }
    ensures { IsStormRun (λ d. choosing.rules_of rules_of (d.kit ∷ [])) deciders.items binders
        (use_of R.remaining R.failure_count source.old source.new) (use_of W.written W.failure_count out.old out.new) result }
{
    let mut boxes = Vec::new(alloc);
    while boxes.len() < binders {
        let Ok(stand_in) = Box::new(alloc, StandIn::new(is_flaky)) else {
            return Err(RunFault::NoMemory);
        };
        let stand_in: Box<dyn Binder + Send> = stand_in;
        if boxes.push(stand_in).is_err() {
            return Err(RunFault::NoMemory);
        }
    }
    storm(rt, alloc, keys, source, out, deciders, boxes)
}
