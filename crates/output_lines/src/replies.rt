//! The lines that answer a step, and those that show a desk.
ghost use Rattle.std.specs.Prelude.{◌++◌, false};
ghost use Rattle.streams.specs.TextBuilder.{Adds};
ghost use Rattle.output_lines.specs.Indented.{AreLines};
ghost use Rattle.output_lines.specs.Replies.{reply_lines, snapshot_lines};

use crate::text::{push_clock, push_node, push_places, push_queue, push_refused};
use desk::{Counts, Reply, Snapshot};
use streams::TextBuilder;

/// Adds the lines that answer a step.
#[tactic(auto, unfolding(crate::specs::Replies::reply_lines))]
pub fn push_reply(out: &mut TextBuilder, reply: Reply)
    ensures { Adds out.old out.new (reply_lines reply) }
{
    match reply {
        Reply::Done | Reply::Idle | Reply::Popped(_) | Reply::Ticket(_) => out.put(b"ok\n"),
        Reply::Counts(counts) => push_numbers(out, counts),
        Reply::Refused(why) => push_refused(out, why),
    }
}

// Adds the lines of a desk's numbers.
#[tactic(auto, unfolding(crate::specs::Replies::reply_lines))]
fn push_numbers(out: &mut TextBuilder, n: Counts)
    ensures { Adds out.old out.new (reply_lines (Reply.Counts n)) }
{
    push_places(out, n.bound as u64, n.assumed as u64);
    push_queue(
        out,
        n.active as u64,
        n.backoff as u64,
        n.unschedulable as u64,
        n.in_flight as u64,
    );
    push_clock(out, n.clock.0, n.version.0);
}

/// Adds the lines of a dump: those of the nodes, and those of the desk's numbers.
pub fn push_dump(out: &mut TextBuilder, snapshot: &Snapshot, counts: Counts)
    ensures { Adds out.old out.new (snapshot_lines snapshot.now ++ reply_lines (Reply.Counts counts)) }
{
    push_snapshot(out, snapshot);
    push_numbers(out, counts);
}

/// Adds the lines of the nodes, in the order of their names.
pub fn push_snapshot(out: &mut TextBuilder, snapshot: &Snapshot)
    ensures text { Adds out.old out.new (snapshot_lines snapshot.now) }
    ensures lines { AreLines false (snapshot_lines snapshot.now) }
{
    for row in snapshot.rows() {
        push_node(out, &row.node, row.used);
    }
}
