//! A feeder: it tells the desk what the watch told.
ghost use Rattle.std.specs.Prelude.{◌≡◌, false, None, IfOk, OnOk};
ghost use Rattle.std.specs.List.{All};
ghost use Rattle.desk.specs.Caller.{IsTimely};
ghost use Rattle.desk.specs.Shared.{IsPassOf};
ghost use Rattle.crew.specs.Made.{Makes};
ghost use Rattle.crew.specs.inside.News.{WakesNone};

use crate::bell::{Bell, News};
use crate::worker::Worker;
use desk::{Desk, Naming, NoMemory, Pass, Reply, Step};
use quant::Event;
use std::sync::Wait;

// What a step brought that was answered so. Where that is nothing, no pod can be popped after it
// that couldn't before.
fn news_of(step: &Step, reply: &Reply) -> Option<News>
    ensures { result ≡ None → WakesNone step.now reply.now }
{
    if let Reply::Refused(_) = reply {
        return None;
    }
    match step {
        Step::Event(Event::PodPending { .. }) => Some(News::Pod),
        Step::Event(Event::NodeGone { .. }) => None,
        Step::Event(Event::PodBound { .. }) => None,
        _ => Some(News::Move),
    }
}

// Does all steps, in order.
fn tell_all<J: Naming, R: Wait>(
    rt: &R,
    desk: &Desk<J>,
    bell: &Bell,
    steps: &[Step],
    pass: &mut Pass<J>,
) -> Result<(), NoMemory>
    requires of { IsPassOf pass.old desk.now }
    requires timely { All IsTimely steps.now }
    ensures number { pass.new.caller.number ≡ pass.old.caller.number }
    ensures told { OnOk result (Makes pass.old steps.now pass.new) }
{
    for step in steps {
        let reply = desk.apply(rt, pass, step.share()?)?;
        if let Some(news) = news_of(step, &reply) {
            bell.ring(rt, news);
        }
    }
    Ok(())
}

/// Does all steps of a script, in order, and tells that it has ended.
pub fn feed<J: Naming, R: Wait>(
    rt: &R,
    desk: &Desk<J>,
    bell: &Bell,
    steps: &[Step],
    worker: &mut Worker<J, ()>,
)
    requires of { IsPassOf worker.old.pass desk.now }
    requires timely { All IsTimely steps.now }
    ensures number { worker.new.pass.caller.number ≡ worker.old.pass.caller.number }
    ensures told { worker.new.failed ≡ false → Makes worker.old.pass steps.now worker.new.pass }
{
    worker.failed = tell_all(rt, desk, bell, steps, &mut worker.pass).is_err();
    bell.end(rt);
}
