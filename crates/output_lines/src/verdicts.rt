//! The lines that tell what a cycle decided of each node, or what the rules alone say of it.
ghost use Rattle.std.specs.Prelude.{◌≡◌, ◌≤◌, ◌++◌, IfSome, length, map, true, Some};
ghost use Rattle.std.specs.List.{All};
ghost use Rattle.taints.specs.Tolerance.{first_untolerated};
ghost use Rattle.desk.specs.Shown.{shown};
ghost use Rattle.choose.specs.Choice.{count_of};
ghost use Rattle.streams.specs.Lines.{IsLine};
ghost use Rattle.streams.specs.TextBuilder.{Adds};
ghost use Rattle.output_lines.specs.Indented.{AreLines};
ghost use Rattle.output_lines.specs.Telling.{code_of, effect_name, lines_by, part_text, parts_text, reason_text, ruling_lines, sum_text, taint_text, total_text, verdict_line, verdict_lines, verdict_text, want_text};

use crate::named_rule::NamedRule;
use crate::text::{name_at, push_cause};
use choose::{Reason, Verdict, most_taints, total};
use desk::Row;
use quant::{Effect, Pod, Taint};
use rules::Rejection;
use streams::TextBuilder;
use taints::{first_untolerated, normalize};

// ---- a node that is rejected

// Adds how much is asked for, and how much is free of what there is.
#[tactic(auto, unfolding(crate::specs::Telling::want_text))]
fn push_want(out: &mut TextBuilder, label: &[u8], asked: u64, allocatable: u64, used: u64)
    ensures { Adds out.old out.new (label.now ++ want_text asked allocatable used) }
{
    out.put_number(label, asked);
    out.put_number(b" of ", allocatable.saturating_sub(used));
}

// An effect's name.
fn effect_name(effect: Effect) -> &'static [u8]
    ensures { result.now ≡ effect_name effect }
{
    match effect {
        Effect::NoSchedule => b"NoSchedule",
        Effect::PreferNoSchedule => b"PreferNoSchedule",
        Effect::NoExecute => b"NoExecute",
    }
}

// Adds a taint behind a space.
#[tactic(auto, unfolding(crate::specs::Telling::taint_text))]
fn push_taint(out: &mut TextBuilder, taint: &Taint)
    ensures text { Adds out.old out.new (taint_text (Some taint.now)) }
    ensures line { IsLine (taint_text (Some taint.now)) }
{
    out.put_two(b" ", taint.key.as_bytes());
    out.put_two(b"=", taint.value.as_bytes());
    out.put_two(b":", effect_name(taint.effect));
}

// Adds the first taint that keeps the pod off the node.
#[tactic(auto, unfolding(crate::specs::Telling::taint_text))]
fn push_first_taint(out: &mut TextBuilder, pod: &Pod, row: &Row)
    ensures text { Adds out.old out.new (taint_text (first_untolerated row.now.node pod.now)) }
    ensures line { IsLine (taint_text (first_untolerated row.now.node pod.now)) }
{
    match first_untolerated(&row.node, pod) {
        Some(taint) => push_taint(out, taint),
        None => {}
    }
}

// Adds why a built-in filter rejects a node.
#[tactic(auto, unfolding(crate::specs::Telling::reason_text))]
fn push_reason(out: &mut TextBuilder, pod: &Pod, row: &Row, reason: Reason)
    ensures text { Adds out.old out.new (reason_text pod.now (shown row.now) reason) }
    ensures line { IsLine (reason_text pod.now (shown row.now) reason) }
{
    let all = row.allocatable().amounts();
    let used = row.used;
    let asked = pod.request;
    match reason {
        Reason::Marked => out.put(b"marked"),
        Reason::Taint => {
            out.put(b"taint");
            push_first_taint(out, pod, row);
        }
        Reason::Cpu => push_want(out, b"cpu ", asked.cpu.0, all.cpu.0, used.cpu.0),
        Reason::Memory => push_want(out, b"memory ", asked.mem.0, all.mem.0, used.mem.0),
        Reason::Pods => { push_want(out, b"pods ", 1, u64::from(all.pods), u64::from(used.pods)) }
        Reason::Plugin => out.put(b"plugin"),
        Reason::Final => out.put(b"final"),
    }
}

// The code by which a filter rejects.
fn code_of(how: Rejection) -> u64
    ensures { result ≡ code_of how }
{
    match how {
        Rejection::Unschedulable => 2,
        Rejection::UnschedulableAndUnresolvable => 3,
    }
}

// ---- a node that passes

// Adds a rule's part of a total.
#[tactic(auto, unfolding(crate::specs::Telling::part_text))]
fn push_part(out: &mut TextBuilder, rule: &NamedRule, score: u8)
    ensures text { Adds out.old out.new (part_text (rule.now, score)) }
    ensures line { IsLine (part_text (rule.now, score)) }
{
    out.put_two(b" ", rule.name.as_bytes());
    out.put_number(b" ", u64::from(rule.weight));
    out.put_number(b" ", u64::from(score));
}

// Adds each rule's part of a total, by the rules' places.
fn push_parts(out: &mut TextBuilder, named: &[NamedRule], scores: &[u8])
    ensures text { Adds out.old out.new (parts_text named.now scores.now) }
    ensures line { IsLine (parts_text named.now scores.now) }
{
    for at in 0..named.len().min(scores.len()) {
        push_part(out, &named[at], scores[at]);
    }
}

// Adds the total of a node that passes, and what it is the sum of.
#[tactic(auto, unfolding(crate::specs::Telling::total_text))]
fn push_total(
    out: &mut TextBuilder,
    named: &[NamedRule],
    most: u8,
    pod: &Pod,
    row: &Row,
    count: u8,
    score: u16,
    scores: &[u8],
)
    requires { count ≤ most }
    ensures text { Adds out.old out.new (total_text named.now most pod.now (shown row.now) count
        score scores.now) }
    ensures line { IsLine (total_text named.now most pod.now (shown row.now) count score scores.now) }
{
    let fit = row.allocatable().least_allocated(row.used, pod.request);
    out.put_number(b"total ", u64::from(total(most, count, score)));
    out.put_number(b" fit ", u64::from(fit));
    out.put_number(b" taints ", u64::from(normalize(count, most)));
    push_parts(out, named, scores);
}

// Adds what the rules alone add up to.
#[tactic(auto, unfolding(crate::specs::Telling::sum_text))]
fn push_sum(out: &mut TextBuilder, named: &[NamedRule], score: u16, scores: &[u8])
    ensures text { Adds out.old out.new (sum_text named.now score scores.now) }
    ensures line { IsLine (sum_text named.now score scores.now) }
{
    out.put_number(b"total ", u64::from(score));
    push_parts(out, named, scores);
}

// ---- a verdict

// Adds a verdict, where the most untolerated taints of a node that passes are these, or, where none
// are told, a ruling.
#[tactic(auto, unfolding(crate::specs::Telling::verdict_text))]
fn push_verdict(
    out: &mut TextBuilder,
    named: &[NamedRule],
    most: Option<u8>,
    pod: &Pod,
    row: &Row,
    verdict: Verdict,
)
    requires { IfSome most (λ most. count_of verdict ≤ most) }
    ensures text { Adds out.old out.new (verdict_text named.now most pod.now (shown row.now)
        verdict) }
    ensures line { IsLine (verdict_text named.now most pod.now (shown row.now) verdict) }
{
    match verdict {
        Verdict::Rejected(reason) => push_reason(out, pod, row, reason),
        Verdict::RejectedBy(place, how) => {
            out.put_two(b"plugin ", name_at(named, place));
            out.put_number(b" ", code_of(how));
        }
        Verdict::Errs(place, why) => {
            out.put_two(b"error plugin ", name_at(named, place));
            out.put(b" ");
            push_cause(out, why);
        }
        Verdict::Passes(count, score, scores) => match most {
            Some(most) => push_total(out, named, most, pod, row, count, score, &scores),
            None => push_sum(out, named, score, &scores),
        },
    }
}

// Adds the line of a node.
#[tactic(auto, unfolding(crate::specs::Telling::verdict_line))]
fn push_line(
    out: &mut TextBuilder,
    named: &[NamedRule],
    most: Option<u8>,
    pod: &Pod,
    row: &Row,
    verdict: Verdict,
)
    requires { IfSome most (λ most. count_of verdict ≤ most) }
    ensures text { Adds out.old out.new (verdict_line named.now most pod.now
        (shown row.now, verdict)) }
    ensures lines { AreLines true (verdict_line named.now most pod.now (shown row.now, verdict)) }
{
    out.put_two(b"  ", row.node.name.as_bytes());
    out.put(b" ");
    push_verdict(out, named, most, pod, row, verdict);
    out.put(b"\n");
}

// ---- all nodes

// Adds the lines of all nodes, in their order.
fn push_lines(
    out: &mut TextBuilder,
    named: &[NamedRule],
    most: Option<u8>,
    pod: &Pod,
    rows: &[Row],
    verdicts: &[Verdict],
)
    requires all { length verdicts.now ≡ length rows.now }
    requires most { IfSome most (λ most. All (λ verdict. count_of verdict ≤ most) verdicts.now) }
    ensures text { Adds out.old out.new (lines_by named.now most pod.now (map shown rows.now)
        verdicts.now) }
    ensures lines { AreLines true (lines_by named.now most pod.now (map shown rows.now) verdicts.now) }
{
    for at in 0..rows.len() {
        push_line(out, named, most, pod, &rows[at], verdicts[at]);
    }
}

/// Adds the lines of all nodes, in their order, each with the verdict on it for the pod. The rules
/// have these names and weights, in their order.
pub fn push_verdicts(
    out: &mut TextBuilder,
    named: &[NamedRule],
    pod: &Pod,
    rows: &[Row],
    verdicts: &[Verdict],
)
    requires { length verdicts.now ≡ length rows.now }
    ensures text { Adds out.old out.new (verdict_lines named.now pod.now (map shown rows.now)
        verdicts.now) }
    ensures lines { AreLines true (verdict_lines named.now pod.now (map shown rows.now) verdicts.now) }
{
    let most = most_taints(verdicts);
    push_lines(out, named, Some(most), pod, rows, verdicts);
}

/// Adds the lines of all nodes, in their order, each with the ruling on it. The rules have these
/// names and weights, in their order.
pub fn push_rulings(
    out: &mut TextBuilder,
    named: &[NamedRule],
    pod: &Pod,
    rows: &[Row],
    rulings: &[Verdict],
)
    requires { length rulings.now ≡ length rows.now }
    ensures text { Adds out.old out.new (ruling_lines named.now pod.now (map shown rows.now)
        rulings.now) }
    ensures lines { AreLines true (ruling_lines named.now pod.now (map shown rows.now) rulings.now) }
{
    push_lines(out, named, None, pod, rows, rulings);
}
