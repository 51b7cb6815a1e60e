//! One cycle of the scheduler: a pod is popped, a node is chosen for it, and its place is assumed.
ghost use Rattle.std.specs.Prelude.{◌≡◌, IfOk, IfErr, OnOk, OnErr};
ghost use Rattle.std.specs.Bool.{IsTrue};
ghost use Rattle.desk.specs.Shared.{IsApplied, IsPassOf};
ghost use Rattle.choose.specs.Kits.{rules_of};
ghost use Rattle.streams.specs.declared.fault.RunFault.TheVariants as faults;
ghost use Rattle.cycle.specs.Cycle.{IsFailed, EndsWith, IsAssumed, IsDecided, IsGivenUp, IsLeft, IsInVain, IsCycle, IsCutShort, AreSeen, DecideCycle};

use choose::{Counts, Decider, Decision};
use desk::{Desk, Naming, NoMemory, Pass, Refusal, Step};
use quant::{Name, SharedPod, Ticket};
use queue::Failure;
use rules::Cause;
use std::sync::Wait;
use std::thread::Threads;
use streams::RunFault;

/// What a cycle came to.
#[derive(Drop)]
pub enum Cycled {
    /// No pod waits to be popped.
    Idle,
    /// The pod has a place on the node, chosen with this total; the ticket names the choice.
    Assumed {
        uid: Name,
        node: Name,
        total: u32,
        ticket: Ticket,
    },
    /// Every node is rejected.
    Unschedulable {
        uid: Name,
        counts: Counts,
    },
    /// The rule at this place says nothing of this node, for this cause. The pod is tried again.
    Errs {
        uid: Name,
        place: usize,
        node: Name,
        cause: Cause,
    },
    /// The chosen node was refused. The pod is tried again.
    Lost {
        uid: Name,
        why: Refusal,
    },
}

/// A cycle was cut short for want of memory. Where a pod was popped and could not be failed either,
/// it is told: it stays in flight for the pass, which may fail it later.
#[derive(Drop)]
pub struct CutShort {
    /// The pod that is still in flight.
    pub held: Option<Name>,
}

impl From<CutShort> for RunFault {
    ghost from_gives = { λ _ fault. fault ≡ faults.NoMemory };

    fn from(_short: CutShort) -> Self {
        RunFault::NoMemory
    }
}

impl From<CutShort> for NoMemory {
    fn from(_short: CutShort) -> Self {
        NoMemory
    }
}

// Fails a pod that the pass popped. That may be refused, where the pod went meanwhile.
fn fail<J: Naming, T: Wait>(
    desk: &Desk<J>,
    rt: &T,
    pass: &mut Pass<J>,
    uid: &Name,
    how: Failure,
) -> Result<(), NoMemory>
    requires { IsPassOf pass.old desk.now }
    ensures failed { IfOk result (λ _. IsFailed desk.now pass.old uid.now how pass.new) }
    ensures err { OnErr result (pass.new ≡ pass.old) }
{
    let uid = uid.copied();
    let Ok(_) = desk.apply(rt, pass, Step::Fail { uid, how }) else {
        return Err(NoMemory);
    };
    Ok(())
}

// Fails a pod for which memory was wanting, so that it is tried again.
fn give_up<J: Naming, T: Wait>(desk: &Desk<J>, rt: &T, pass: &mut Pass<J>, uid: &Name) -> CutShort
    requires { IsPassOf pass.old desk.now }
    ensures { IsGivenUp desk.now pass.old uid.now result.held pass.new }
{
    match fail(desk, rt, pass, uid, Failure::Again) {
        Ok(()) => CutShort { held: None },
        Err(NoMemory) => CutShort {
            held: Some(uid.copied()),
        },
    }
}

// Assumes a pod on the node that was chosen, or fails it where that is refused.
fn assume<J: Naming, T: Wait>(
    desk: &Desk<J>,
    rt: &T,
    pass: &mut Pass<J>,
    uid: &Name,
    node: Name,
    total: u32,
) -> Result<Cycled, CutShort>
    requires { IsPassOf pass.old desk.now }
    ensures assumed { IfOk result (λ came. IsAssumed desk.now pass.old uid.now node total came pass.new) }
    ensures left { IfErr result (λ short. IsLeft desk.now pass.old uid.now short.held pass.new) }
{
    match desk.assume(rt, pass, uid.copied(), node.copied()) {
        Ok(Ok(ticket)) => Ok(Cycled::Assumed {
            uid: uid.copied(),
            node,
            total,
            ticket,
        }),
        Ok(Err(why)) => match fail(desk, rt, pass, uid, Failure::Again) {
            Ok(()) => Ok(Cycled::Lost {
                uid: uid.copied(),
                why,
            }),
            Err(NoMemory) => Err(CutShort {
                held: Some(uid.copied()),
            }),
        },
        Err(NoMemory) => Err(give_up(desk, rt, pass, uid)),
    }
}

// Does what was decided of a pod.
fn end_with<J: Naming, T: Wait>(
    desk: &Desk<J>,
    rt: &T,
    pass: &mut Pass<J>,
    uid: &Name,
    decision: Decision,
) -> Result<Cycled, CutShort>
    requires { IsPassOf pass.old desk.now }
    ensures ends { IfOk result (λ came. EndsWith desk.now pass.old uid.now decision came pass.new) }
    ensures left { IfErr result (λ short. IsLeft desk.now pass.old uid.now short.held pass.new) }
{
    match decision {
        Decision::Node(node, total) => assume(desk, rt, pass, uid, node, total),
        Decision::Unschedulable(counts) => {
            match fail(desk, rt, pass, uid, Failure::Unschedulable) {
                Ok(()) => Ok(Cycled::Unschedulable {
                    uid: uid.copied(),
                    counts,
                }),
                Err(NoMemory) => Err(give_up(desk, rt, pass, uid)),
            }
        }
        Decision::PluginError(place, node, cause) => {
            match fail(desk, rt, pass, uid, Failure::Again) {
                Ok(()) => Ok(Cycled::Errs {
                    uid: uid.copied(),
                    place,
                    node,
                    cause,
                }),
                Err(NoMemory) => Err(CutShort {
                    held: Some(uid.copied()),
                }),
            }
        }
    }
}

/// Looks for a place for a pod that the pass popped, and does what is decided of it. Where that is
/// to be explained, the decider tells the verdicts afterwards.
///
/// Errors: as `cycle`.
pub(crate) fn place<J: Naming, T: Wait + Threads + Sync, D: Decider>(
    desk: &Desk<J>,
    rt: &T,
    pass: &mut Pass<J>,
    pod: &SharedPod,
    decider: &mut D,
    explains: bool,
) -> Result<Cycled, CutShort>
    requires { IsPassOf pass.old desk.now }
    ensures decided { IfOk result (λ came. IsDecided (rules_of D.Kit.answers (D.kits decider.old)) desk.now pass.old
        pod.now came pass.new) }
    ensures verdicts { IsTrue explains → OnOk result (AreSeen (rules_of D.Kit.answers (D.kits decider.old)) desk.now
        pass.old pod.now (D.last decider.new)) }
    ensures in_vain { IfErr result (λ short. IsInVain desk.now pass.old pod.now.uid short.held pass.new) }
    ensures kits { D.kits decider.new ≡ D.kits decider.old }
{
    let Ok(snapshot) = desk.look_for(pass, pod.request) else {
        return Err(give_up(desk, rt, pass, &pod.uid));
    };
    match decider.decide(rt, snapshot, pod, explains) {
        Ok(decision) => end_with(desk, rt, pass, &pod.uid, decision),
        Err(NoMemory) => Err(give_up(desk, rt, pass, &pod.uid)),
    }
}

/// One cycle of a pass: it pops a pod, looks at the nodes, chooses one by the built-in rules and
/// the decider's, and assumes the pod there. A pod for which no node is left fails as
/// unschedulable; one for which a rule errs, or whose place is refused since it was chosen, fails
/// to be tried again. The decider tells afterwards by which verdicts it was decided, where that is
/// to be explained; else none need be written.
///
/// Errors: `CutShort`, for want of memory. A popped pod was then failed, to be tried again, or it
/// is told that it could not.
pub fn cycle<J: Naming, T: Wait + Threads + Sync, D: Decider>(
    desk: &Desk<J>,
    rt: &T,
    pass: &mut Pass<J>,
    decider: &mut D,
    explains: bool,
) -> Result<Cycled, CutShort>
    requires { IsPassOf pass.old desk.now }
    ensures cycled { IfOk result (λ came. IsCycle (rules_of D.Kit.answers (D.kits decider.old)) desk.now pass.old came
        pass.new) }
    ensures verdicts { IsTrue explains → OnOk result (DecideCycle (rules_of D.Kit.answers (D.kits decider.old))
        desk.now pass.old (D.last decider.new)) }
    ensures cut_short { IfErr result (λ short. IsCutShort desk.now pass.old short.held pass.new) }
    ensures kits { D.kits decider.new ≡ D.kits decider.old }
{
    match desk.pop(rt, pass) {
        Ok(Some(pod)) => place(desk, rt, pass, &pod, decider, explains),
        Ok(None) => Ok(Cycled::Idle),
        Err(NoMemory) => Err(CutShort { held: None }),
    }
}
