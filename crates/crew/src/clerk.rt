//! The pass that meets all others at the end, counts, looks, and closes the desk.
ghost use Rattle.std.specs.Prelude.{◌≡◌, IfOk};
ghost use Rattle.desk.specs.Shared.{IsPassOf};
ghost use Rattle.crew.specs.Crew.{ArePassesOf, HaveMet, IsDumped};

use crate::worker::Worker;
use binder::Binder;
use desk::{Counts, Desk, Naming, NoMemory, Pass, Snapshot};
use std::sync::Wait;

/// Meets each of these passes, in order.
pub fn meet_each<J: Naming, R: Wait, T: Drop>(
    rt: &R,
    desk: &Desk<J>,
    clerk: &mut Pass<J>,
    workers: &mut [Worker<J, T>],
)
    requires clerk { IsPassOf clerk.old desk.now }
    requires workers { ArePassesOf desk.now workers.old }
    ensures { HaveMet desk.now clerk.old workers.old clerk.new workers.new }
{
    for k in 0..workers.len() {
        desk.meet(rt, clerk, &mut workers[k].pass);
    }
}

/// Meets all who worked, counts and looks, and meets them again: so what each of them did before
/// the count is known to be all that it did.
pub fn take_dump<J: Naming, R: Wait, D: Drop>(
    rt: &R,
    desk: &Desk<J>,
    clerk: &mut Pass<J>,
    feeders: &mut [Worker<J, ()>],
    cyclers: &mut [Worker<J, D>],
    reporters: &mut [Worker<J, Box<dyn Binder + Send>>],
) -> Result<(Counts, Snapshot), NoMemory>
    requires clerk { IsPassOf clerk.old desk.now }
    requires feeders { ArePassesOf desk.now feeders.old }
    requires cyclers { ArePassesOf desk.now cyclers.old }
    requires reporters { ArePassesOf desk.now reporters.old }
    ensures dumped { IfOk result (λ dump. IsDumped desk.now clerk.old feeders.old cyclers.old reporters.old dump.0
        dump.1 clerk.new) }
    ensures number { clerk.new.caller.number ≡ clerk.old.caller.number }
{
    meet_each(rt, desk, clerk, feeders);
    meet_each(rt, desk, clerk, cyclers);
    meet_each(rt, desk, clerk, reporters);
    let Ok(counts) = desk.count(rt, clerk) else {
        return Err(NoMemory);
    };
    let Ok(shown) = desk.look(clerk) else {
        return Err(NoMemory);
    };
    meet_each(rt, desk, clerk, feeders);
    meet_each(rt, desk, clerk, cyclers);
    meet_each(rt, desk, clerk, reporters);
    Ok((counts, shown))
}
