//! Who works beside whom in a storm, and who ends when.
ghost use Rattle.std.specs.Prelude.{◌<◌, length, IsSome};
ghost use Rattle.std.specs.List.{All};
ghost use denote.Param.Send.{IsSend, IsSync};
ghost use Rattle.desk.specs.Caller.{IsTimely};
ghost use Rattle.desk.specs.Shared.{Pass as Seeing, IsPassOf};
ghost use Rattle.crew.specs.Crew.{ArePassesOf, Each};
ghost use Rattle.storm.specs.inside.Stages.{HasFed, HasReported, HasScheduled, HasFinished, HaveWorked};

use binder::Job;
use choose::Decider;
use crew::{Bell, Reporting, Worker, bind_all, feed, meet_each, schedule_beside, schedule_last};
use crossbeam_channel::{Receiver, Sender};
use desk::{Desk, Naming, Step};
use rules::Rules;
use std::sync::Wait;
use std::thread;
use std::thread::{Threads, join_mut};

/// What all workers of a storm share.
#[derive(Drop)]
pub(crate) struct Stage<'a, J: Naming> {
    pub(crate) desk: &'a Desk<J>,
    pub(crate) bell: &'a Bell,
    pub(crate) steps: &'a [Step],
}

// The feeders tell the script, each in a thread of its own.
fn feed_all<J: Naming + Send + Sync, R: Threads + Wait + Sync>(
    stage: &Stage<'_, J>,
    rt: &R,
    feeders: &mut [Worker<J, ()>],
)
    requires of { ArePassesOf stage.now.desk.now feeders.old }
    requires timely { All IsTimely stage.now.steps.now }
    ensures { Each (HasFed stage.now.steps.now) feeders.old feeders.new }
{
    // (a thread is asked for where nobody works too)
    let many = feeders.len().max(1);
    thread::for_each_mut(
        rt,
        feeders,
        many,
        &|_: usize, worker: &mut Worker<J, ()>|
            requires { IsPassOf worker.now.pass stage.now.desk.now × All IsTimely stage.now.steps.now }
            ensures { HasFed stage.entry.now.steps.now worker.entry.now worker.exit.now }
        { feed(rt, stage.desk, stage.bell, stage.steps, worker) },
    );
}

// The cycle passes make cycles, each in a thread of its own.
fn cycle_all<
    J: Naming + Send + Sync,
    R: Threads + Wait + Sync,
    D: Decider<Kit: Rules<Notes: Send> + Send> + Send + Drop,
>(stage: &Stage<'_, J>, rt: &R, jobs: &Sender<Job>, cyclers: &mut [Worker<J, D>])
    requires { ArePassesOf stage.now.desk.now cyclers.old }
    ensures { Each (HasScheduled D.Kit.answers D.kits stage.now.desk.now) cyclers.old cyclers.new }
{
    // (a thread is asked for where nobody works too)
    let many = cyclers.len().max(1);
    thread::for_each_mut(
        rt,
        cyclers,
        many,
        &|_: usize, worker: &mut Worker<J, D>|
            requires { IsSync R.row × IsSend J.row × IsSync J.row × IsPassOf worker.now.pass stage.now.desk.now }
            ensures { HasScheduled D.Kit.answers D.kits stage.entry.now.desk.now worker.entry.now worker.exit.now }
        { schedule_beside(rt, stage.desk, stage.bell, jobs, worker) },
    );
}

// The binders do the jobs, each in a thread of its own.
fn report_all<J: Naming + Send + Sync, R: Threads + Wait + Sync, B: Reporting + Send>(
    desk: &Desk<J>,
    rt: &R,
    jobs: &Receiver<Job>,
    reporters: &mut [Worker<J, B>],
)
    requires { ArePassesOf desk.now reporters.old }
    ensures { Each HasReported reporters.old reporters.new }
{
    // (a thread is asked for where nobody works too)
    let many = reporters.len().max(1);
    thread::for_each_mut(
        rt,
        reporters,
        many,
        &|_: usize, worker: &mut Worker<J, B>|
            requires { IsPassOf worker.now.pass desk.now }
            ensures { HasReported worker.entry.now worker.exit.now }
        { bind_all(rt, desk, jobs, worker) },
    );
}

// A cycle pass meets the feeders, and makes cycles until no pod waits.
fn finish<J: Naming, R: Threads + Wait + Sync, D: Decider + Drop>(
    rt: &R,
    desk: &Desk<J>,
    jobs: &Sender<Job>,
    feeders: &mut [Worker<J, ()>],
    first: &mut Worker<J, D>,
)
    requires first { IsPassOf first.old.pass desk.now }
    requires feeders { ArePassesOf desk.now feeders.old }
    ensures { HasFinished D.Kit.answers D.kits desk.now feeders.old first.old feeders.new first.new }
{
    meet_each(rt, desk, &mut first.pass, feeders);
    schedule_last(rt, desk, jobs, first);
}

// Feeders and cycle passes work beside each other; then the first cycle pass goes on alone, and no
// more jobs come.
fn schedule<
    J: Naming + Send + Sync,
    R: Threads + Wait + Sync,
    D: Decider<Kit: Rules<Notes: Send> + Send> + Send + Drop,
>(
    stage: &Stage<'_, J>,
    rt: &R,
    sender: &mut Option<Sender<Job>>,
    feeders: &mut [Worker<J, ()>],
    cyclers: &mut [Worker<J, D>],
)
    requires sender { IsSome sender.old }
    requires some { 0 < length cyclers.old }
    requires some_feeder { 0 < length feeders.old }
    requires feeders { ArePassesOf stage.now.desk.now feeders.old }
    requires cyclers { ArePassesOf stage.now.desk.now cyclers.old }
    requires timely { All IsTimely stage.now.steps.now }
    ensures { HaveWorked D.Kit.answers D.kits stage.now.desk.now stage.now.steps.now feeders.old feeders.new
        cyclers.old cyclers.new }
{
    let Some(jobs) = sender.take() else {
        return;
    };
    // Where no thread can be made, the second is done first.
    let mut turning = ||
        requires { IsSync R.row × IsSend J.row × IsSync J.row × IsSend D.row ×
            ArePassesOf stage.now.desk.now cyclers.now }
        ensures { Each (HasScheduled D.Kit.answers D.kits stage.entry.now.desk.now) cyclers.entry.now cyclers.exit.now }
    { cycle_all(stage, rt, &jobs, cyclers) };
    let mut feeding = ||
        requires { IsSync R.row × IsSend J.row × IsSync J.row × ArePassesOf stage.now.desk.now feeders.now ×
            All IsTimely stage.now.steps.now }
        ensures { Each (HasFed stage.entry.now.steps.now) feeders.entry.now feeders.exit.now }
    { feed_all(stage, rt, feeders) };
    join_mut(rt, &mut turning, &mut feeding);
    finish(rt, stage.desk, &jobs, feeders, &mut cyclers[0]);
}

/// All work, until the feeders have told the whole script, no pod waits, and no job is left. The
/// binders end with the jobs.
pub(crate) fn work<
    J: Naming + Send + Sync,
    R: Threads + Wait + Sync,
    D: Decider<Kit: Rules<Notes: Send> + Send> + Send + Drop,
    B: Reporting + Send,
>(
    stage: &Stage<'_, J>,
    rt: &R,
    jobs: &Receiver<Job>,
    sender: Sender<Job>,
    feeders: &mut [Worker<J, ()>],
    cyclers: &mut [Worker<J, D>],
    reporters: &mut [Worker<J, B>],
)
    requires some { 0 < length cyclers.old }
    requires some_feeder { 0 < length feeders.old }
    requires feeders { ArePassesOf stage.now.desk.now feeders.old }
    requires cyclers { ArePassesOf stage.now.desk.now cyclers.old }
    requires reporters { ArePassesOf stage.now.desk.now reporters.old }
    requires timely { All IsTimely stage.now.steps.now }
    ensures worked { HaveWorked D.Kit.answers D.kits stage.now.desk.now stage.now.steps.now feeders.old feeders.new
        cyclers.old cyclers.new }
    ensures reported { Each HasReported reporters.old reporters.new }
{
    let mut sender = Some(sender);
    let desk = stage.desk;
    let mut binding = ||
        requires { IsSync R.row × IsSend J.row × IsSync J.row × IsSend B.row × ArePassesOf desk.now reporters.now }
        ensures { Each HasReported reporters.entry.now reporters.exit.now }
    { report_all(desk, rt, jobs, reporters) };
    let mut scheduling = ||
        requires { IsSync R.row × IsSend J.row × IsSync J.row × IsSend D.row × IsSome sender ×
            (0 < length cyclers.now) × (0 < length feeders.now)
            × ArePassesOf stage.now.desk.now feeders.now × ArePassesOf stage.now.desk.now cyclers.now × All IsTimely stage.now.steps.now }
        ensures { HaveWorked D.Kit.answers D.kits stage.entry.now.desk.now stage.entry.now.steps.now
            feeders.entry.now feeders.exit.now cyclers.entry.now cyclers.exit.now }
    { schedule(stage, rt, &mut sender, feeders, cyclers) };
    join_mut(rt, &mut binding, &mut scheduling);
}
