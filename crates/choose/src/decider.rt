//! What decides where pods go.
ghost use Rattle.std.specs.Prelude.{◌≡◌, List, IfOk, OnOk};
ghost use Rattle.std.specs.Bool.{IsTrue};
ghost use denote.Param.Send.{IsSync};
ghost use Rattle.choose.specs.Choice.{AreRulings, AreVerdicts, Choice};
ghost use Rattle.choose.specs.declared.decision.Verdict.{Verdict};
ghost use Rattle.choose.specs.Kits.{rules_of};
ghost use Rattle.choose.specs.Verdict.{asked};

use crate::decision::{Decision, Verdict};
use desk::{NoMemory, Snapshot};
use quant::SharedPod;
use rules::Rules;
use std::sync::Wait;
use std::thread::Threads;

/// What decides where pods go, by the built-in rules and those of its kits.
pub trait Decider {
    type Kit: Rules;

    // The kits for whose rules it stands: the first for all.
    ghost kits: { Self → List Self.Kit };

    // The verdicts of the last decision that it explained, or its last rulings.
    ghost last: { Self → List Verdict };

    /// Where a pod goes, by a look at the nodes: the choice that the first kit would make alone.
    /// The verdicts by which it was decided are told where it is to be explained; else none need be
    /// written.
    ///
    /// Errors: `NoMemory`. Nothing is decided then, and it can be used again.
    fn decide<R: Threads + Wait + Sync>(
        &mut self,
        rt: &R,
        snapshot: Snapshot,
        pod: &SharedPod,
        explains: bool,
    ) -> Result<Decision, NoMemory>
        requires { IsSync R.row }
        ensures chosen { IfOk result (Choice (rules_of Self.Kit.answers (kits self.old)) snapshot pod.now) }
        ensures judged { IsTrue explains → OnOk result (AreVerdicts (rules_of Self.Kit.answers (kits self.old))
            pod.now snapshot (last self.new)) }
        ensures kits { kits self.new ≡ kits self.old };

    /// What the rules of the first kit alone say of each node, for a pod, or what their filters
    /// alone say: the verdicts are these rulings then.
    ///
    /// Errors: `NoMemory`. Nothing was asked then, and it can be used again.
    fn judge(
        &mut self,
        snapshot: &Snapshot,
        pod: &SharedPod,
        filters_alone: bool,
    ) -> Result<(), NoMemory>
        ensures judged { OnOk result (AreRulings (asked filters_alone (rules_of Self.Kit.answers (kits self.old)))
            pod.now snapshot.now (last self.new)) }
        ensures kits { kits self.new ≡ kits self.old };

    /// The verdicts of its last decision, where it was to be explained, or its last rulings, in the
    /// order of the nodes.
    fn verdicts(&self) -> &[Verdict]
        ensures { result.now ≡ last self.now };
}
