//! Who works in a thread of a storm.
ghost use Rattle.std.specs.Prelude.{◌≡◌, ◌+◌, ◌⊎◌, ◌↔◌, false, length, IfOk, OnOk, IfErr};
ghost use Rattle.std.specs.Bool.{IsTrue};
ghost use Rattle.std.specs.List.{All};
ghost use Rattle.crew.specs.Crew.{enlisted};

use desk::{Desk, Naming, Pass};
use std::alloc::Global;
use streams::RunFault;

/// A pass of the desk, and what its thread works with.
pub struct Worker<J: Naming, T: Drop> {
    pub pass: Pass<J>,
    pub tool: T,
    /// Whether memory was wanting, which ended the work.
    pub failed: bool,
}

// By hand, so that who drops a worker calls this, and its parts' drops are proved here alone.
impl<J: Naming, T: Drop> Drop for Worker<J, T> {
    fn drop(self) {
        let Self {
            pass: _pass,
            tool: _tool,
            failed: _,
        } = self;
    }
}

/// A worker for each tool, with a pass that has made no call and seen nothing. The passes are
/// numbered in this order.
///
/// Errors: `NoMemory`, and `NoPlace` where the desk has too few passes left.
pub fn enlist<J: Naming, T: Drop>(
    alloc: Global,
    desk: &mut Desk<J>,
    tools: Vec<T>,
) -> Result<Vec<Worker<J, T>>, RunFault>
    ensures workers { IfOk result (λ workers. workers.items ≡ enlisted desk.old.handed tools.items) }
    ensures handed { OnOk result (desk.new ≡ record desk.old { handed = desk.old.handed + length tools.items }) }
    ensures faults { IfErr result (λ e. (e ≡ RunFault.NoMemory) ⊎ (e ≡ RunFault.NoPlace)) }
{
    let mut workers = Vec::new(alloc);
    workers.reserve(tools.len())?;
    for tool in tools {
        let pass = desk.pass()?;
        let worker = Worker {
            pass,
            tool,
            failed: false,
        };
        if workers.push(worker).is_err() {
            return Err(RunFault::NoMemory);
        }
    }
    Ok(workers)
}

/// Whether memory was wanting to none of them.
pub fn all_done<J: Naming, T: Drop>(workers: &[Worker<J, T>]) -> bool
    ensures { IsTrue result ↔ All (λ w. w.failed ≡ false) workers.now }
{
    workers.iter().all(|worker| !worker.failed)
}
