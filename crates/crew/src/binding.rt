//! A pass that reports binds, and its binder.
ghost use Rattle.std.specs.Prelude.{◌≡◌, List, false};
ghost use Rattle.std.specs.List.{AllByRecursion};
ghost use Rattle.desk.specs.declared.step.Step.{Step};
ghost use Rattle.desk.specs.Shared.{IsPassOf};
ghost use Rattle.crew.specs.Made.{Makes, IsReport};

use crate::worker::Worker;
use binder::{Binder, Job, bind_job};
use crossbeam_channel::Receiver;
use desk::{Desk, Naming, Pass};
use std::sync::Wait;

/// What does jobs: a binder. Who starts the threads in which it works needs to know no more of it.
pub trait Reporting: Drop {
    /// Does a job, and tells whether there was memory to report it.
    fn report<J: Naming, R: Wait>(
        &mut self,
        rt: &R,
        desk: &Desk<J>,
        pass: &mut Pass<J>,
        job: &Job,
    ) -> bool
        requires { IsPassOf pass.old desk.now }
        ensures number { pass.new.caller.number ≡ pass.old.caller.number }
        ensures reports { (steps : List Step) × Makes pass.old steps pass.new × AllByRecursion IsReport steps };
}

impl Reporting for Box<dyn Binder + Send> {
    fn report<J: Naming, R: Wait>(
        &mut self,
        rt: &R,
        desk: &Desk<J>,
        pass: &mut Pass<J>,
        job: &Job,
    ) -> bool {
        bind_job(rt, desk, pass, self, job).is_ok()
    }
}

/// Does the jobs that come, until there are no more or memory is wanting.
pub fn bind_all<J: Naming, R: Wait, B: Reporting>(
    rt: &R,
    desk: &Desk<J>,
    jobs: &Receiver<Job>,
    worker: &mut Worker<J, B>,
)
    requires { IsPassOf worker.old.pass desk.now }
    ensures number { worker.new.pass.caller.number ≡ worker.old.pass.caller.number }
    ensures reports { (steps : List Step) × Makes worker.old.pass steps worker.new.pass ×
        AllByRecursion IsReport steps }
{
    for _ in rt.forever() {
        let Ok(job) = jobs.recv(rt) else {
            return;
        };
        if !worker.tool.report(rt, desk, &mut worker.pass, &job) {
            worker.failed = true;
            return;
        }
    }
}
