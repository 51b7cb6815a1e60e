//! The lines of the output.
ghost use Rattle.std.specs.Prelude.{◌≡◌, ◌++◌, false};
ghost use Rattle.streams.specs.Lines.{IsLine};
ghost use Rattle.streams.specs.TextBuilder.{Adds};
ghost use Rattle.output_lines.specs.Indented.{AreLines};
ghost use Rattle.output_lines.specs.Text.{refused_line, share_text, node_line, counts, places_line, queue_line, clock_line, assumed_line, reasons_text, unschedulable_line, cause_text, error_line, lost_line, judged_line, name_at, cycle_line};

use crate::named_rule::NamedRule;
use choose::Counts;
use cycle::Cycled;
use desk::Refusal;
use quant::{Name, Node, Res};
use rules::Cause;
use streams::TextBuilder;

// Adds a label, what is used, and what there is.
#[tactic(auto, unfolding(crate::specs::Text::share_text))]
fn push_share(out: &mut TextBuilder, label: &[u8], used: u64, whole: u64)
    ensures { Adds out.old out.new (label.now ++ share_text used whole) }
{
    out.put_number(label, used);
    out.put_number(b"/", whole);
}

// Adds the line of a refused step.
#[tactic(auto, unfolding(crate::specs::Text::refused_line))]
pub(crate) fn push_refused(out: &mut TextBuilder, why: Refusal)
    ensures { Adds out.old out.new (refused_line why) }
{
    out.put_number(b"refused ", u64::from(why.number()));
    out.put_two(b" ", why.name().as_bytes());
    out.put(b"\n");
}

// Adds the line of a node and what its pods use.
#[tactic(auto, unfolding(crate::specs::Text::node_line))]
pub(crate) fn push_node(out: &mut TextBuilder, node: &Node, used: Res)
    ensures text { Adds out.old out.new (node_line node.now used) }
    ensures lines { AreLines false (node_line node.now used) }
{
    let whole = node.allocatable;
    out.put_two(b"node ", node.name.as_bytes());
    push_share(out, b" cpu ", used.cpu.0, whole.cpu.0);
    push_share(out, b" mem ", used.mem.0, whole.mem.0);
    push_share(out, b" pods ", u64::from(used.pods), u64::from(whole.pods));
    out.put(b"\n");
}

// Adds two counts, each behind its label.
#[tactic(auto, unfolding(crate::specs::Text::counts))]
fn push_counts(out: &mut TextBuilder, first: &[u8], m: u64, second: &[u8], n: u64)
    ensures { Adds out.old out.new (counts first.now m second.now n) }
{
    out.put_number(first, m);
    out.put_number(second, n);
}

// Adds the line on places.
pub(crate) fn push_places(out: &mut TextBuilder, bound: u64, assumed: u64)
    ensures { Adds out.old out.new (places_line bound assumed) }
{
    push_counts(out, b"places bound ", bound, b" assumed ", assumed);
    out.put(b"\n");
}

// Adds the line on the queue.
pub(crate) fn push_queue(
    out: &mut TextBuilder,
    active: u64,
    backoff: u64,
    unschedulable: u64,
    inflight: u64,
)
    ensures { Adds out.old out.new (queue_line active backoff unschedulable inflight) }
{
    push_counts(out, b"queue active ", active, b" backoff ", backoff);
    push_counts(
        out,
        b" unschedulable ",
        unschedulable,
        b" inflight ",
        inflight,
    );
    out.put(b"\n");
}

// Adds the line on the clock and the version.
pub(crate) fn push_clock(out: &mut TextBuilder, clock: u64, version: u64)
    ensures { Adds out.old out.new (clock_line clock version) }
{
    push_counts(out, b"clock ", clock, b" version ", version);
    out.put(b"\n");
}

// Adds the line of a pod that has its place.
#[tactic(auto, unfolding(crate::specs::Text::assumed_line))]
fn push_assumed(out: &mut TextBuilder, uid: &Name, node: &Name, total: u32, ticket: u64)
    ensures text { Adds out.old out.new (assumed_line uid.now node.now total ticket) }
    ensures lines { AreLines false (assumed_line uid.now node.now total ticket) }
{
    out.put_two(uid.as_bytes(), b" on ");
    out.put(node.as_bytes());
    push_counts(out, b" total ", u64::from(total), b" ticket ", ticket);
    out.put(b"\n");
}

// Adds how many nodes are rejected for which reason.
#[tactic(auto, unfolding(crate::specs::Text::reasons_text))]
fn push_reasons(out: &mut TextBuilder, n: Counts)
    ensures { Adds out.old out.new (reasons_text n) }
{
    push_counts(
        out,
        b" marked ",
        n.marked as u64,
        b" taint ",
        n.taint as u64,
    );
    push_counts(out, b" cpu ", n.cpu as u64, b" memory ", n.memory as u64);
    push_counts(out, b" pods ", n.pods as u64, b" plugin ", n.plugin as u64);
    out.put_number(b" final ", n.plugin_final as u64);
}

// Adds the line of a pod for which every node is rejected.
fn push_unschedulable(out: &mut TextBuilder, uid: &Name, n: Counts)
    ensures text { Adds out.old out.new (unschedulable_line uid.now n) }
    ensures lines { AreLines false (unschedulable_line uid.now n) }
{
    out.put_two(uid.as_bytes(), b" unschedulable");
    push_reasons(out, n);
    out.put(b"\n");
}

// Adds why a rule said nothing of a node.
#[tactic(auto, unfolding(crate::specs::Text::cause_text))]
pub(crate) fn push_cause(out: &mut TextBuilder, why: Cause)
    ensures { Adds out.old out.new (cause_text why) }
{
    match why {
        Cause::Code(code) => out.put_signed(b"code ", i64::from(code)),
        Cause::Score(score) => out.put_signed(b"score ", score),
        Cause::Trap(trap) => {
            out.put_number(b"trap ", u64::from(trap.number()));
            out.put_two(b" ", trap.name().as_bytes());
        }
        Cause::Exhausted => out.put(b"exhausted"),
    }
}

// Adds the line of a pod for which the rule of this name said nothing of a node.
#[tactic(auto, unfolding(crate::specs::Text::error_line))]
fn push_error(out: &mut TextBuilder, uid: &Name, rule: &[u8], node: &Name, why: Cause)
    requires { IsLine rule.now }
    ensures text { Adds out.old out.new (error_line uid.now rule.now node.now why) }
    ensures lines { AreLines false (error_line uid.now rule.now node.now why) }
{
    out.put_two(uid.as_bytes(), b" error plugin ");
    out.put_two(rule, b" node ");
    out.put_two(node.as_bytes(), b" ");
    push_cause(out, why);
    out.put(b"\n");
}

// Adds the line of a pod whose place was refused.
#[tactic(auto, unfolding(crate::specs::Text::lost_line))]
fn push_lost(out: &mut TextBuilder, uid: &Name, why: Refusal)
    ensures text { Adds out.old out.new (lost_line uid.now why) }
    ensures lines { AreLines false (lost_line uid.now why) }
{
    out.put(uid.as_bytes());
    out.put_number(b" lost ", u64::from(why.number()));
    out.put_two(b" ", why.name().as_bytes());
    out.put(b"\n");
}

/// Adds the line of a pod for which so many nodes were judged.
#[tactic(auto, unfolding(crate::specs::Text::judged_line))]
pub fn push_judged(out: &mut TextBuilder, uid: &Name, nodes: u64)
    ensures text { Adds out.old out.new (judged_line uid.now nodes) }
    ensures lines { AreLines false (judged_line uid.now nodes) }
{
    out.put_two(b"judged ", uid.as_bytes());
    out.put_number(b" ", nodes);
    out.put(b"\n");
}

// The name of the rule at a place.
pub(crate) fn name_at(named: &[NamedRule], place: usize) -> &[u8]
    ensures name { result.now ≡ name_at named.now place }
    ensures line { IsLine result.now }
{
    match named.get(place) {
        Some(rule) => rule.name.as_bytes(),
        None => &[],
    }
}

/// Adds the line that tells what a cycle came to, where the rules have these names in their order.
#[tactic(auto, unfolding(crate::specs::Text::cycle_line))]
pub fn push_cycled(out: &mut TextBuilder, named: &[NamedRule], came: &Cycled)
    ensures text { Adds out.old out.new (cycle_line named.now came.now) }
    ensures lines { AreLines false (cycle_line named.now came.now) }
{
    match came {
        Cycled::Idle => out.put(b"idle\n"),
        Cycled::Assumed {
            uid,
            node,
            total,
            ticket,
        } => push_assumed(out, uid, node, *total, ticket.0),
        Cycled::Unschedulable { uid, counts } => push_unschedulable(out, uid, *counts),
        Cycled::Errs {
            uid,
            place,
            node,
            cause,
        } => push_error(out, uid, name_at(named, *place), node, *cause),
        Cycled::Lost { uid, why } => push_lost(out, uid, *why),
    }
}
