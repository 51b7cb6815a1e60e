//! A pass that makes cycles, and sends a job for each place that it assumes.
ghost use Rattle.std.specs.Prelude.{◌≡◌, false, IfOk, OnOk, OnErr, List};
ghost use Rattle.std.specs.Bool.{IsTrue};
ghost use Rattle.desk.specs.Shared.{IsPassOf};
ghost use Rattle.choose.specs.Kits.{rules_of};
ghost use Rattle.cycle.specs.Cycle.{IsCycle};
ghost use Rattle.cycle.specs.declared.one_cycle.Cycled.{Cycled as Came};
ghost use Rattle.cycle.specs.declared.one_cycle.Cycled.TheVariants as cycled;
ghost use Rattle.crew.specs.Cycles.{OneCycle, HasCycled, EndsIdle};

use crate::bell::Bell;
use crate::worker::Worker;
use binder::Job;
use choose::Decider;
use crossbeam_channel::Sender;
use cycle::{Cycled, cycle};
use desk::{Desk, Naming, NoMemory, Pass};
use std::sync::Wait;
use std::thread::Threads;

// Where a cycle came to a place, a job to bind the pod is sent. It tells whether there was no pod.
fn send_job<R: Wait>(rt: &R, jobs: &Sender<Job>, came: Cycled) -> Result<bool, NoMemory>
    ensures { IfOk result (λ idle. IsTrue idle → came ≡ cycled.Idle) }
{
    match came {
        Cycled::Idle => Ok(true),
        Cycled::Assumed {
            uid,
            node,
            total: _,
            ticket,
        } => {
            if jobs.send(rt, Job { uid, node, ticket }).is_err() {
                return Err(NoMemory);
            }
            Ok(false)
        }
        _ => Ok(false),
    }
}

// One cycle. Where it came to a place, a job to bind the pod is sent. It tells whether there was no
// pod.
fn turn<J: Naming, R: Wait + Threads + Sync, D: Decider>(
    rt: &R,
    desk: &Desk<J>,
    jobs: &Sender<Job>,
    pass: &mut Pass<J>,
    decider: &mut D,
) -> Result<bool, NoMemory>
    requires { IsPassOf pass.old desk.now }
    ensures cycled { IfOk result (λ idle. (came : Came) ×
        IsCycle (rules_of D.Kit.answers (D.kits decider.old)) desk.now pass.old came pass.new
        × (IsTrue idle → came ≡ cycled.Idle)) }
    ensures number { pass.new.caller.number ≡ pass.old.caller.number }
    ensures kits { D.kits decider.new ≡ D.kits decider.old }
{
    let Ok(came) = cycle(desk, rt, pass, decider, false) else {
        return Err(NoMemory);
    };
    send_job(rt, jobs, came)
}

// Makes cycles while the watch tells, and ends where both feeders have ended and then no pod waits.
fn cycle_beside<J: Naming, R: Wait + Threads + Sync, D: Decider>(
    rt: &R,
    desk: &Desk<J>,
    bell: &Bell,
    jobs: &Sender<Job>,
    pass: &mut Pass<J>,
    decider: &mut D,
) -> Result<(), NoMemory>
    requires { IsPassOf pass.old desk.now }
    ensures number { pass.new.caller.number ≡ pass.old.caller.number }
    ensures made { OnOk result ((made : List OneCycle) ×
        HasCycled (rules_of D.Kit.answers (D.kits decider.old)) desk.now pass.old made pass.new) }
    ensures kits { D.kits decider.new ≡ D.kits decider.old }
{
    for _ in rt.forever() {
        let heard = bell.heard(rt);
        let Ok(idle) = turn(rt, desk, jobs, pass, decider) else {
            return Err(NoMemory);
        };
        if idle {
            if heard.is_last() {
                return Ok(());
            }
            bell.wait_past(rt, heard);
        }
    }
    unreachable!()
}

// Makes cycles until no pod waits.
fn cycle_to_idle<J: Naming, R: Wait + Threads + Sync, D: Decider>(
    rt: &R,
    desk: &Desk<J>,
    jobs: &Sender<Job>,
    pass: &mut Pass<J>,
    decider: &mut D,
) -> Result<(), NoMemory>
    requires { IsPassOf pass.old desk.now }
    ensures number { pass.new.caller.number ≡ pass.old.caller.number }
    ensures made { OnOk result ((made : List OneCycle) × (last : OneCycle)
        × EndsIdle (rules_of D.Kit.answers (D.kits decider.old)) desk.now pass.old made last pass.new) }
    ensures kits { D.kits decider.new ≡ D.kits decider.old }
{
    for _ in rt.forever() {
        if turn(rt, desk, jobs, pass, decider)? {
            return Ok(());
        }
    }
    unreachable!()
}

/// Makes cycles while the watch tells, until both feeders have ended and then no pod waits.
pub fn schedule_beside<J: Naming, R: Wait + Threads + Sync, D: Decider + Drop>(
    rt: &R,
    desk: &Desk<J>,
    bell: &Bell,
    jobs: &Sender<Job>,
    worker: &mut Worker<J, D>,
)
    requires { IsPassOf worker.old.pass desk.now }
    ensures number { worker.new.pass.caller.number ≡ worker.old.pass.caller.number }
    ensures made { worker.new.failed ≡ false → (made : List OneCycle)
        × HasCycled (rules_of D.Kit.answers (D.kits worker.old.tool)) desk.now worker.old.pass made worker.new.pass }
    ensures kits { D.kits worker.new.tool ≡ D.kits worker.old.tool }
{
    let done = cycle_beside(rt, desk, bell, jobs, &mut worker.pass, &mut worker.tool);
    worker.failed = done.is_err();
}

/// Makes cycles until no pod waits, where memory was not wanting before.
pub fn schedule_last<J: Naming, R: Wait + Threads + Sync, D: Decider + Drop>(
    rt: &R,
    desk: &Desk<J>,
    jobs: &Sender<Job>,
    worker: &mut Worker<J, D>,
)
    requires { IsPassOf worker.old.pass desk.now }
    ensures number { worker.new.pass.caller.number ≡ worker.old.pass.caller.number }
    ensures before { worker.new.failed ≡ false → worker.old.failed ≡ false }
    ensures made { worker.new.failed ≡ false → (made : List OneCycle) × (last : OneCycle)
        × EndsIdle (rules_of D.Kit.answers (D.kits worker.old.tool)) desk.now worker.old.pass made last worker.new.pass }
    ensures kits { D.kits worker.new.tool ≡ D.kits worker.old.tool }
{
    if !worker.failed {
        let done = cycle_to_idle(rt, desk, jobs, &mut worker.pass, &mut worker.tool);
        worker.failed = done.is_err();
    }
}
