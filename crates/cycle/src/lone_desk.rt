//! The desk that many passes can share, with one pass.
ghost use Rattle.std.specs.Prelude.{◌≡◌, ◌⊎◌, IfOk, IfErr, OnOk, OnErr};
ghost use Rattle.std.specs.Bool.{IsTrue};
ghost use Rattle.desk.specs.Caller.{IsTimely};
ghost use Rattle.desk.specs.Machine as machine;
ghost use Rattle.choose.specs.Kits.{rules_of};
ghost use Rattle.choose.specs.Choice.{AreVerdicts};
ghost use Rattle.cycle.specs.CycleAlone.{IsDecidedAlone};

use crate::one_cycle::{CutShort, Cycled, place};
use choose::Decider;
use desk::{Blank, Desk, Limits, Naming, NoMemory, Pass, Reply, Snapshot, Step, one_pass_is_alone};
use quant::SharedPod;
use std::alloc::Global;
use std::hash::RandomState;
use std::marker::Model;
use std::sync::Wait;
use std::thread::Threads;
use streams::RunFault;

/// A shared desk with its only pass. Contracts see its state, which is the one that the pass has
/// seen, since nobody else makes a call.
///
/// It isn't `Drop`: end it by `end`.
pub struct LoneDesk<J: Naming> {
    desk: Desk<J>,
    pass: Pass<J>,
}

impl<J: Naming> Model for LoneDesk<J> {
    ghost use Rattle.std.specs.Prelude.{◌≡◌};
    ghost use Rattle.desk.specs.Machine.{State};
    ghost use Rattle.desk.specs.inside.Codes.{state_code};
    ghost use Rattle.desk.specs.Shared.{IsPassOf};
    ghost use Rattle.desk.specs.Alone.{state_seen};

    ghost Value = { State };

    ghost coded = { state_code };

    ghost view = { λ d. state_seen d.desk d.pass };

    ghost invariant = { λ d. (d.desk.handed ≡ 1) × IsPassOf d.pass d.desk };
}

impl<J: Naming> LoneDesk<J> {
    /// A new desk of these limits, from what was laid out for one. Names are looked up under the
    /// keys.
    ///
    /// Errors: `NoMemory`, and `NoPlace` where there is no pass of it.
    pub fn new<R: Wait>(
        rt: &R,
        blank: Blank,
        alloc: Global,
        keys: RandomState,
        limits: Limits,
    ) -> Result<Self, RunFault>
        requires named { blank.seen.book ≡ J.book }
        requires limits { limits ≡ J.limits }
        ensures opening { IfOk result (λ desk. desk ≡ machine.opening limits) }
        ensures faults { IfErr result (λ e. (e ≡ RunFault.NoMemory) ⊎ (e ≡ RunFault.NoPlace)) }
    {
        let Ok(mut desk) = Desk::<J>::for_passes(blank, alloc, keys, limits, 1) else {
            return Err(RunFault::NoMemory);
        };
        match desk.pass() {
            Ok(pass) => Ok(LoneDesk { desk, pass }),
            Err(_) => {
                desk.discard(rt);
                Err(RunFault::NoPlace)
            }
        }
    }

    /// Does a step, or refuses it. It waits for the desk's lock.
    ///
    /// Errors: `NoMemory`; nothing is changed.
    pub fn apply<R: Wait>(&mut self, rt: &R, step: Step) -> Result<Reply, NoMemory>
        requires { IsTimely step }
        ensures reply { IfOk result (λ reply. reply ≡ machine.reply self.old 0 step) }
        ensures after { OnOk result (self.new ≡ machine.after self.old 0 step) }
        ensures err { OnErr result (self.new ≡ self.old) }
    {
        one_pass_is_alone();
        self.desk.apply(rt, &mut self.pass, step)
    }

    /// Shows the nodes and what is used of them.
    ///
    /// Errors: `NoMemory`.
    pub fn look(&mut self) -> Result<Snapshot, NoMemory>
        ensures shown { IfOk result (λ shown. shown ≡ machine.snapshot self.old.cluster) }
        ensures same { self.new ≡ self.old }
    {
        one_pass_is_alone();
        self.desk.look(&mut self.pass)
    }

    /// Pops a pod, where one waits. It waits for the desk's lock.
    ///
    /// Errors: `NoMemory`.
    pub fn pop<R: Wait>(&mut self, rt: &R) -> Result<Option<SharedPod>, NoMemory>
        ensures popped { IfOk result (λ pod. pod ≡ machine.first_pod self.old.queue) }
        ensures after { OnOk result (self.new ≡ machine.after self.old 0 Step.Pop) }
    {
        one_pass_is_alone();
        self.desk.pop(rt, &mut self.pass)
    }

    /// Looks for a place for a pod that was popped, by a decider, and does what is decided of it.
    /// Where that is to be explained, the decider tells the verdicts afterwards. It may wait.
    ///
    /// Errors: as `cycle`.
    pub fn place<R: Wait + Threads + Sync, D: Decider>(
        &mut self,
        rt: &R,
        pod: &SharedPod,
        decider: &mut D,
        explains: bool,
    ) -> Result<Cycled, CutShort>
        ensures decided { IfOk result (λ came. IsDecidedAlone (rules_of D.Kit.answers (D.kits decider.old)) self.old
            pod.now came self.new) }
        ensures verdicts { IsTrue explains → OnOk result (AreVerdicts (rules_of D.Kit.answers (D.kits decider.old))
            pod.now (machine.snapshot self.old.cluster) (D.last decider.new)) }
        ensures kits { D.kits decider.new ≡ D.kits decider.old }
    {
        one_pass_is_alone();
        place(&self.desk, rt, &mut self.pass, pod, decider, explains)
    }

    /// Ends the desk.
    pub fn end<R: Wait>(self, rt: &R) {
        let LoneDesk { desk, pass: _ } = self;
        desk.discard(rt);
    }
}
