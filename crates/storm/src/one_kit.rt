//! One kit as what decides.
ghost use Rattle.std.specs.Prelude.{◌≡◌, [], ◌∷◌, List, IfOk, OnOk};
ghost use Rattle.std.specs.Bool.{IsTrue};
ghost use denote.Param.Send.{IsSync};
ghost use Rattle.choose.specs.Choice.{AreRulings, AreVerdicts, Choice};
ghost use Rattle.choose.specs.declared.decision.Verdict.{Verdict};
ghost use Rattle.choose.specs.Kits.{rules_of};

use choose::{Decider, Decision, UNJUDGED, Verdict, choose_alone, decide, judge, rule_on};
use desk::{NoMemory, Snapshot};
use quant::SharedPod;
use rules::Rules;
use std::alloc::Global;
use std::sync::Wait;
use std::thread::Threads;

/// One kit, which decides in the thread that asks it. Where it has no rule, a decision that isn't
/// to be explained takes one pass over the nodes and no memory.
pub struct OneKit<K: Rules + Drop> {
    pub kit: K,
    verdicts: Vec<Verdict>,
}

// By hand, so that who drops one calls this, and its parts' drops are proved here alone.
impl<K: Rules + Drop> Drop for OneKit<K> {
    fn drop(self) {
        let Self {
            kit: _kit,
            verdicts: _verdicts,
        } = self;
    }
}

impl<K: Rules + Drop> OneKit<K> {
    /// Nothing was decided yet. It takes no memory yet.
    pub fn new(alloc: Global, kit: K) -> OneKit<K>
        ensures { result.kit ≡ kit }
    {
        OneKit {
            kit,
            verdicts: Vec::new(alloc),
        }
    }
}

impl<K: Rules + Drop> Decider for OneKit<K> {
    type Kit = K;

    ghost kits = { λ d. d.kit ∷ [] };

    ghost last = { λ d. d.verdicts.items };

    fn decide<R: Threads + Wait + Sync>(
        &mut self,
        _rt: &R,
        snapshot: Snapshot,
        pod: &SharedPod,
        explains: bool,
    ) -> Result<Decision, NoMemory> {
        if !explains && self.kit.count() == 0 {
            return Ok(choose_alone(&snapshot, pod, &self.kit));
        }
        let rows = snapshot.rows();
        let Ok(()) = self.verdicts.resize(rows.len(), UNJUDGED) else {
            return Err(NoMemory);
        };
        judge(rows, pod, &mut self.kit, self.verdicts.as_mut_slice());
        Ok(decide(rows, self.verdicts.as_slice()))
    }

    fn judge(
        &mut self,
        snapshot: &Snapshot,
        pod: &SharedPod,
        filters_alone: bool,
    ) -> Result<(), NoMemory> {
        let rows = snapshot.rows();
        let Ok(()) = self.verdicts.resize(rows.len(), UNJUDGED) else {
            return Err(NoMemory);
        };
        rule_on(
            rows,
            pod,
            filters_alone,
            &mut self.kit,
            self.verdicts.as_mut_slice(),
        );
        Ok(())
    }

    fn verdicts(&self) -> &[Verdict] {
        self.verdicts.as_slice()
    }
}
