//! The verdicts on nodes, one by one.
ghost use Rattle.std.specs.Prelude.{◌≡◌, ◌≤◌, length, IfOk, map};
ghost use Rattle.std.specs.List.{AllZip};
ghost use Rattle.taints.specs.Tolerance.{prefer_not};
ghost use Rattle.desk.specs.Shown.{shown};
ghost use Rattle.choose.specs.Verdict.{HasRuling, HasVerdict, asked, built_in, passing};
ghost use Rattle.choose.specs.Choice.{AreRulings, AreVerdicts};
ghost use Rattle.choose.specs.inside.Finding.{IsBuiltIn};

use crate::asking::{Added, filtered, scored};
use crate::decision::{Reason, UNJUDGED, Verdict};
use desk::Row;
use fit::{Shortage, fits};
use quant::Pod;
use rules::Rules;
use std::alloc::{AllocError, Global};
use taints::{Rejection, prefer_count, rejected_by};

/// The first of the built-in filters that rejects a node: its mark, its taints, its CPU, its memory
/// and its number of pods. A plain node isn't looked into.
#[tactic(auto, using(crate::proofs::Plain::keeps_none_off), unfolding(crate::specs::Verdict::built_in))]
pub(crate) fn built_in(row: &Row, pod: &Pod) -> Option<Reason>
    ensures { result ≡ built_in (shown row.now) pod.now }
{
    if !row.is_plain() {
        match rejected_by(&row.node, pod) {
            Some(Rejection::Marked) => return Some(Reason::Marked),
            Some(Rejection::Tainted) => return Some(Reason::Taint),
            None => {}
        }
    }
    match fits(row.allocatable().amounts(), row.used, pod.request) {
        Ok(()) => None,
        Err(Shortage::Cpu) => Some(Reason::Cpu),
        Err(Shortage::Memory) => Some(Reason::Memory),
        Err(Shortage::Pods) => Some(Reason::Pods),
    }
}

// How many of a node's taints `PreferNoSchedule` a pod doesn't tolerate. A plain node isn't looked
// into.
#[tactic(auto, using(crate::proofs::Plain::is_preferred))]
fn untolerated(row: &Row, pod: &Pod) -> u8
    ensures { result ≡ prefer_not row.now.node pod.now }
{
    if row.is_plain() {
        return 0;
    }
    prefer_count(&row.node, pod)
}

// The verdict on a node that all filters pass, and to which the scores of the rules add this.
fn passing(row: &Row, pod: &Pod, added: Added) -> Verdict
    requires { added.sum ≤ 16000 }
    ensures { result ≡ passing (shown row.now) pod.now added }
{
    let free = row.allocatable().least_allocated(row.used, pod.request);
    Verdict::Passes(
        untolerated(row, pod),
        u16::from(free) + added.sum,
        added.scores,
    )
}

// The verdict on a node where there is no rule. It need be shown to none.
pub(crate) fn built_in_verdict(row: &Row, pod: &Pod) -> Verdict
    ensures { IsBuiltIn pod.now (shown row.now) result }
{
    match built_in(row, pod) {
        Some(reason) => Verdict::Rejected(reason),
        None => {
            let nothing = Added {
                sum: 0,
                scores: [0; 16],
            };
            passing(row, pod, nothing)
        }
    }
}

/// The verdict on a node. The rules are shown it where no built-in filter rejects it; the pod was
/// shown to them already.
pub fn verdict_of<R: Rules>(row: &Row, pod: &Pod, notes: &mut R::Notes, rules: &mut R) -> Verdict
    requires { R.OfPod notes.old pod.now }
    ensures is { HasVerdict (R.answers rules.old) pod.now (shown row.now) result }
    ensures stays { rules.new ≡ rules.old }
    ensures pod { R.OfPod notes.new pod.now }
{
    if let Some(reason) = built_in(row, pod) {
        return Verdict::Rejected(reason);
    }
    rules.show_node(notes, &row.node, &row.used);
    if let Some(stopped) = filtered(row, pod, notes, rules) {
        return stopped;
    }
    match scored(row, pod, notes, rules) {
        Ok(added) => passing(row, pod, added),
        Err(erring) => erring,
    }
}

/// Writes the verdicts on nodes into the places for them, in the nodes' order. Where there is a
/// rule the pod is shown to the rules, once. No memory is taken.
pub fn judge<R: Rules>(rows: &[Row], pod: &Pod, rules: &mut R, verdicts: &mut [Verdict])
    requires { length verdicts.old ≡ length rows.now }
    ensures are { AreVerdicts (R.answers rules.old) pod.now (map shown rows.now) verdicts.new }
    ensures stays { rules.new ≡ rules.old }
{
    if rules.count() == 0 {
        judge_alone(rows, pod, verdicts);
    } else {
        judge_by_rules(rows, pod, rules, verdicts);
    }
}

// Writes the verdicts on nodes where there is no rule.
fn judge_alone(rows: &[Row], pod: &Pod, verdicts: &mut [Verdict])
    requires { length verdicts.old ≡ length rows.now }
    ensures { AllZip (IsBuiltIn pod.now) (map shown rows.now) verdicts.new }
{
    for at in 0..rows.len() {
        verdicts[at] = built_in_verdict(&rows[at], pod);
    }
}

// Writes the verdicts on nodes, which the rules are shown.
fn judge_by_rules<R: Rules>(rows: &[Row], pod: &Pod, rules: &mut R, verdicts: &mut [Verdict])
    requires { length verdicts.old ≡ length rows.now }
    ensures are { AreVerdicts (R.answers rules.old) pod.now (map shown rows.now) verdicts.new }
    ensures stays { rules.new ≡ rules.old }
{
    let mut notes = rules.show_pod(pod);
    for at in 0..rows.len() {
        verdicts[at] = verdict_of(&rows[at], pod, &mut notes, rules);
    }
}

// The ruling on a node, which the rules are shown; the pod was shown to them already.
fn ruling_of<R: Rules>(
    row: &Row,
    pod: &Pod,
    filters_alone: bool,
    notes: &mut R::Notes,
    rules: &mut R,
) -> Verdict
    requires { R.OfPod notes.old pod.now }
    ensures is { HasRuling (asked filters_alone (R.answers rules.old)) pod.now (shown row.now) result }
    ensures stays { rules.new ≡ rules.old }
    ensures pod { R.OfPod notes.new pod.now }
{
    rules.show_node(notes, &row.node, &row.used);
    if let Some(stopped) = filtered(row, pod, notes, rules) {
        return stopped;
    }
    if filters_alone {
        return Verdict::Passes(0, 0, [0; 16]);
    }
    match scored(row, pod, notes, rules) {
        Ok(added) => Verdict::Passes(0, added.sum, added.scores),
        Err(erring) => erring,
    }
}

/// Writes what the rules alone say of nodes into the places for verdicts, in the nodes' order: no
/// built-in filter is asked, and no score but the rules' counts. Where their filters alone are to
/// be asked no score is, as if no rule had one; where there is no rule each node passes with 0. The
/// pod is shown to the rules once. No memory is taken.
pub fn rule_on<R: Rules>(
    rows: &[Row],
    pod: &Pod,
    filters_alone: bool,
    rules: &mut R,
    verdicts: &mut [Verdict],
)
    requires { length verdicts.old ≡ length rows.now }
    ensures are { AreRulings (asked filters_alone (R.answers rules.old)) pod.now (map shown rows.now) verdicts.new }
    ensures stays { rules.new ≡ rules.old }
{
    let mut notes = rules.show_pod(pod);
    for at in 0..rows.len() {
        verdicts[at] = ruling_of(&rows[at], pod, filters_alone, &mut notes, rules);
    }
}

/// The verdicts on nodes, in their order.
///
/// Errors: where no memory is left for as many verdicts; none was made then.
pub fn verdicts_of<R: Rules>(
    alloc: Global,
    rows: &[Row],
    pod: &Pod,
    rules: &mut R,
) -> Result<Vec<Verdict>, AllocError>
    ensures are { IfOk result (λ verdicts. AreVerdicts (R.answers rules.old) pod.now (map shown rows.now)
        verdicts.items) }
    ensures stays { rules.new ≡ rules.old }
{
    let mut verdicts = Vec::new(alloc);
    let Ok(()) = verdicts.resize(rows.len(), UNJUDGED) else {
        return Err(AllocError);
    };
    judge(rows, pod, rules, verdicts.as_mut_slice());
    Ok(verdicts)
}
