//! One bind, and the step that reports it.
ghost use Rattle.std.specs.Prelude.{◌≡◌, ◌<◌, nat_lt, Some, IfOk, IfErr, OnErr};
ghost use Rattle.desk.specs.Caller.{IsTimely};
ghost use Rattle.desk.specs.Shared.{IsPassOf, IsApplied};
ghost use Rattle.binder.specs.Binds.{IsAskedOnce, bind_of, report_of};

use crate::answer::BindAnswer;
use crate::binder::Binder;
use crate::job::Job;
use desk::{Desk, Naming, Pass, Reply, Step};
use std::sync::Wait;

/// The most binds that one binder is asked for.
pub const MAX_BINDS: u64 = 1_000_000_000_000_000_000;

/// There was no memory to report a bind.
#[derive(Drop)]
pub struct Unreported {
    /// The step that reports it. It wasn't applied, and is the caller's to apply.
    pub step: Step,
}

// Asks a binder for a bind, if it may be asked for one more, and tells whether the bind was done.
fn ask(binder: &mut Box<dyn Binder + Send>, job: &Job) -> bool
    ensures asked { IsAskedOnce (asks binder.old) (asks binder.new) }
    ensures told { asks binder.old < MAX_BINDS → told binder.new ≡ Some (bind_of job.now) }
    ensures done { result ≡ nat_lt (dones binder.old) (dones binder.new) }
{
    if binder.asked() >= MAX_BINDS {
        return false;
    }
    binder.bind(&job.uid, &job.node) == BindAnswer::Done
}

// The step that reports whether a bind was done.
fn report(job: &Job, done: bool) -> Step
    ensures step { result ≡ report_of job.now done }
    ensures timely { IsTimely result }
{
    let uid = job.uid.copied();
    let ticket = job.ticket;
    if done {
        Step::BindDone { uid, ticket }
    } else {
        Step::Forget { uid, ticket }
    }
}

/// Asks a binder for one bind and applies the step that reports it: `BindDone` where the binder
/// counts one more bind as done, and else `Forget`. A binder that was asked for `MAX_BINDS` binds
/// isn't asked again, and its jobs are forgotten. It waits for the desk's lock, and as long as the
/// binder does.
///
/// Errors: `Unreported` at the desk's want of memory. The binder was asked all the same.
pub fn bind_job<J: Naming, R: Wait>(
    rt: &R,
    desk: &Desk<J>,
    pass: &mut Pass<J>,
    binder: &mut Box<dyn Binder + Send>,
    job: &Job,
) -> Result<Reply, Unreported>
    requires { IsPassOf pass.old desk.now }
    ensures asked { IsAskedOnce (asks binder.old) (asks binder.new) }
    ensures told { asks binder.old < MAX_BINDS → told binder.new ≡ Some (bind_of job.now) }
    ensures applied { IfOk result (λ answer. IsApplied desk.now pass.old
        (report_of job.now (nat_lt (dones binder.old) (dones binder.new))) answer pass.new) }
    ensures unapplied { OnErr result (pass.new ≡ pass.old) }
    ensures step { IfErr result (λ left. left.step ≡ report_of job.now (nat_lt (dones binder.old) (dones binder.new))) }
{
    let done = ask(binder, job);
    match desk.apply(rt, pass, report(job, done)) {
        Ok(reply) => Ok(reply),
        Err(_) => Err(Unreported {
            step: report(job, done),
        }),
    }
}
