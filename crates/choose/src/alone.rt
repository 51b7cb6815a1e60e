//! The choice where there is no rule. Nodes that are shown stand in the order of their names, so
//! one pass finds the node that goes first: the first one of the greatest total. No verdict is
//! written, and no memory is taken.
ghost use Rattle.std.specs.Prelude.{◌≡◌, ℕ, ◌≤◌, ◌<◌, true, length, map, IfSome};
ghost use Rattle.desk.specs.Worth.{IsSought};
ghost use Rattle.desk.specs.Plain.{is_plain};
ghost use Rattle.desk.specs.Shown.{shown};
ghost use Rattle.desk.specs.Order.{AreInOrder};
ghost use Rattle.choose.specs.Choice.{total_of, most_of, IsChoice, Choice};
ghost use Rattle.choose.specs.inside.Alone.{alone, verdicts_alone, judged_alone, worth_from, told_of, one_for};
ghost use Rattle.choose.specs.inside.Plain.{LeadsPlain, first_of_both, goes_later, told_unless_plain};
ghost use Rattle.choose.specs.inside.Finding.{StandsFirst, counts_in};

use crate::best::{Found, Worth};
use crate::choice::name_of;
use crate::decision::{Counts, Decision, Reason, Verdict};
use crate::judging::{built_in, built_in_verdict};
use desk::{Row, Snapshot, Sought};
use quant::Pod;
use rules::Rules;
use taints::normalize;

// What counts of a node.
#[derive(Clone, Copy)]
struct Told {
    // Its untolerated taints `PreferNoSchedule`, where it passes.
    count: u8,
    // Its total, where it passes and that is enough to go first.
    worth: Option<u32>,
}

// What a pass over all nodes found.
#[derive(Clone, Copy)]
struct Pass {
    // The node that goes first, if one passes.
    first: Option<Found>,
    // The most untolerated taints `PreferNoSchedule` of a node that passes.
    most: u8,
}

/// Where a pod goes, by a look at the nodes, where there is no rule: as `choose` decides it, but no
/// memory is taken. Plain nodes aren't judged where it was looked for the pod's request.
pub fn choose_alone<R: Rules>(snapshot: &Snapshot, pod: &Pod, _rules: &R) -> Decision
    requires { length (R.answers _rules.now).weights ≡ 0 }
    ensures { Choice (R.answers _rules.now) snapshot.now pod.now result }
{
    snapshot.stands_in_order();
    let rows = snapshot.rows();
    let best = best_by(rows, pod, snapshot.sought(pod.request));
    decide_by(rows, pod, best)
}

// The best node that passes, if one does, by what was sought for the pod's request, if anything
// was.
fn best_by(rows: &[Row], pod: &Pod, sought: Option<Sought>) -> Option<Found>
    requires order { AreInOrder (map shown rows.now) }
    requires request { IfSome sought (λ sought. sought.request ≡ pod.now.request) }
    requires sought { IfSome sought (IsSought (map shown rows.now)) }
    ensures first { let nodes = judged_alone pod.now (map shown rows.now) in
        StandsFirst (Worth.Total (most_of nodes)) nodes nodes result }
    ensures there { IfSome result (λ found. found.at < length rows.now) }
{
    match sought {
        Some(sought) => best_beside(rows, pod, sought),
        None => best_alone(rows, pod),
    }
}

// The decision among these nodes, of which this is the best one that passes, if one does.
fn decide_by(rows: &[Row], pod: &Pod, best: Option<Found>) -> Decision
    requires first { let nodes = judged_alone pod.now (map shown rows.now) in
        StandsFirst (Worth.Total (most_of nodes)) nodes nodes best }
    requires there { IfSome best (λ found. found.at < length rows.now) }
    ensures { IsChoice (judged_alone pod.now (map shown rows.now)) result }
{
    match best {
        Some(best) => Decision::Node(name_of(rows, best.at), best.worth),
        None => Decision::Unschedulable(counts_alone(rows, pod)),
    }
}

// The best node that passes, if one does. A node without untolerated taints has its total whatever
// others have; so a second pass is made only where one with such taints passes.
fn best_alone(rows: &[Row], pod: &Pod) -> Option<Found>
    requires { AreInOrder (map shown rows.now) }
    ensures first { let nodes = judged_alone pod.now (map shown rows.now) in
        StandsFirst (Worth.Total (most_of nodes)) nodes nodes result }
    ensures there { IfSome result (λ found. found.at < length rows.now) }
{
    let pass = pass_over(rows, pod, 0);
    if pass.most == 0 {
        return pass.first;
    }
    pass_over(rows, pod, pass.most).first
}

// The same, where it is known which of the plain nodes goes first: those that aren't are judged.
fn best_beside(rows: &[Row], pod: &Pod, sought: Sought) -> Option<Found>
    requires order { AreInOrder (map shown rows.now) }
    requires request { sought.request ≡ pod.now.request }
    requires sought { IsSought (map shown rows.now) sought }
    ensures first { let nodes = judged_alone pod.now (map shown rows.now) in
        StandsFirst (Worth.Total (most_of nodes)) nodes nodes result }
    ensures there { IfSome result (λ found. found.at < length rows.now) }
{
    let plain = first_plain(rows, pod, sought);
    if sought.all_plain {
        return plain;
    }
    let pass = pass_marked(rows, pod, 0, plain);
    if pass.most == 0 {
        return pass.first;
    }
    pass_marked(rows, pod, pass.most, plain).first
}

// The plain node that goes first, if one passes, with its total.
fn first_plain(rows: &[Row], pod: &Pod, sought: Sought) -> Option<Found>
    requires request { sought.request ≡ pod.now.request }
    requires sought { IsSought (map shown rows.now) sought }
    ensures { (most : ℕ) → LeadsPlain most pod.now rows.now result }
{
    let Some(at) = sought.first else {
        return None;
    };
    match plain_total(&rows[at], pod, 0) {
        Some(worth) => Some(Found { at, worth }),
        None => None,
    }
}

// The first node among those of the greatest total, where so many untolerated taints count as the
// most, and this is the first one among the plain ones.
fn pass_marked(rows: &[Row], pod: &Pod, most: u8, plain: Option<Found>) -> Pass
    requires order { AreInOrder (map shown rows.now) }
    requires plain { LeadsPlain most pod.now rows.now plain }
    ensures first { let nodes = judged_alone pod.now (map shown rows.now) in
        StandsFirst (Worth.Total most) nodes nodes result.first }
    ensures there { IfSome result.first (λ found. found.at < length rows.now) }
    ensures most { result.most ≡ most_of (judged_alone pod.now (map shown rows.now)) }
{
    let mut first = plain;
    let mut greatest = 0;
    for at in 0..rows.len() {
        let told = tell_unless_plain(&rows[at], pod, most);
        greatest = greatest.max(told.count);
        first = first_of_both(first, at, told.worth);
    }
    Pass {
        first,
        most: greatest,
    }
}

// What counts of a node that isn't plain. Nothing does of a plain one, which isn't looked into.
#[inline]
fn tell_unless_plain(row: &Row, pod: &Pod, most: u8) -> Told
    ensures { result ≡ told_unless_plain most pod.now (shown row.now) }
{
    if row.is_plain() {
        return Told {
            count: 0,
            worth: None,
        };
    }
    tell_marked(row, pod, most, 0)
}

// Which goes first: what was found so far, if anything was, or the node at this place, if it has a
// total.
#[inline]
fn first_of_both(first: Option<Found>, at: usize, worth: Option<u32>) -> Option<Found>
    ensures { result ≡ first_of_both first at worth }
{
    match (first, worth) {
        (_, None) => first,
        (None, Some(worth)) => Some(Found { at, worth }),
        (Some(found), Some(worth)) => {
            if goes_later(found, at, worth) {
                first
            } else {
                Some(Found { at, worth })
            }
        }
    }
}

// Whether a node with a total goes behind what was found: that is worth more, or as much and its
// place comes before.
#[inline]
fn goes_later(found: Found, at: usize, worth: u32) -> bool
    ensures { result ≡ goes_later found at worth }
{
    worth < found.worth || worth == found.worth && found.at < at
}

// The first node among those of the greatest total, where so many untolerated taints count as the
// most.
fn pass_over(rows: &[Row], pod: &Pod, most: u8) -> Pass
    requires { AreInOrder (map shown rows.now) }
    ensures first { let nodes = judged_alone pod.now (map shown rows.now) in
        StandsFirst (Worth.Total most) nodes nodes result.first }
    ensures there { IfSome result.first (λ found. found.at < length rows.now) }
    ensures most { result.most ≡ most_of (judged_alone pod.now (map shown rows.now)) }
{
    let mut first = None;
    let mut least = 0;
    let mut greatest = 0;
    for at in 0..rows.len() {
        let told = tell(&rows[at], pod, most, least);
        greatest = greatest.max(told.count);
        if let Some(worth) = told.worth {
            first = Some(Found { at, worth });
            least = worth + 1;
        }
    }
    Pass {
        first,
        most: greatest,
    }
}

// What counts of a node. A plain one isn't looked into.
#[inline]
fn tell(row: &Row, pod: &Pod, most: u8, least: u32) -> Told
    ensures told { result ≡ told_of most least (alone pod.now (shown row.now)) }
    ensures few { IfSome result.worth (λ worth. worth ≤ 100000) }
{
    if !row.is_plain() {
        return tell_marked(row, pod, most, least);
    }
    Told {
        count: 0,
        worth: plain_total(row, pod, least),
    }
}

// The total of a plain node, where it passes and has at least so much.
#[inline]
fn plain_total(row: &Row, pod: &Pod, least: u32) -> Option<u32>
    requires { is_plain row.now.node ≡ true }
    ensures total { (most : ℕ) → result ≡ worth_from least (total_of most (alone pod.now (shown row.now))) }
    ensures few { IfSome result (λ worth. worth ≤ 100000) }
{
    let least = least.saturating_sub(100);
    match row.allocatable().score_from(least, row.used, pod.request) {
        Some(score) => Some(u32::from(score) + 100),
        None => None,
    }
}

// What counts of a node that has a mark or taints.
fn tell_marked(row: &Row, pod: &Pod, most: u8, least: u32) -> Told
    ensures told { result ≡ told_of most least (alone pod.now (shown row.now)) }
    ensures few { IfSome result.worth (λ worth. worth ≤ 100000) }
{
    match built_in_verdict(row, pod) {
        Verdict::Passes(count, score, _) => {
            let worth = u32::from(score) + u32::from(normalize(count, most));
            Told {
                count,
                worth: if worth < least { None } else { Some(worth) },
            }
        }
        _ => Told {
            count: 0,
            worth: None,
        },
    }
}

// How many nodes are rejected for each reason.
fn counts_alone(rows: &[Row], pod: &Pod) -> Counts
    ensures { result ≡ counts_in (verdicts_alone pod.now (map shown rows.now)) }
{
    let mut marked = 0;
    let mut taint = 0;
    let mut cpu = 0;
    let mut memory = 0;
    let mut pods = 0;
    for at in 0..rows.len() {
        let found = built_in(&rows[at], pod);
        marked += one_for(found, Reason::Marked);
        taint += one_for(found, Reason::Taint);
        cpu += one_for(found, Reason::Cpu);
        memory += one_for(found, Reason::Memory);
        pods += one_for(found, Reason::Pods);
    }
    Counts {
        marked,
        taint,
        cpu,
        memory,
        pods,
        plugin: 0,
        plugin_final: 0,
    }
}

// One where a node is rejected for this reason, and else none.
fn one_for(found: Option<Reason>, reason: Reason) -> usize
    ensures value { result ≡ one_for found reason }
    ensures few { result ≤ 1 }
{
    if found == Some(reason) { 1 } else { 0 }
}
