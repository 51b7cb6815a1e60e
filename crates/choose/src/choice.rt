//! The choice among all nodes.
ghost use Rattle.std.specs.Prelude.{◌≡◌, ◌<◌, length, map, IfOk};
ghost use Rattle.desk.specs.Shown.{shown};
ghost use Rattle.choose.specs.Choice.{judged, IsChoice, Choice};
ghost use Rattle.desk.specs.Order.{name_at};
ghost use Rattle.choose.specs.inside.Finding.{StandsFirst};

use crate::best::{Found, Worth, first_of, most_taints};
use crate::counts::counts;
use crate::decision::{Decision, Verdict};
use crate::judging::verdicts_of;
use desk::{NoMemory, Row, Snapshot};
use quant::{Name, Pod};
use rules::Rules;
use std::alloc::Global;

/// The decision by the verdicts on nodes, in their order. Where a node errs, the one of the least
/// name decides. Else the node of the greatest total among those that pass is chosen, and among
/// those of equal totals the one of the least name. Where no node passes, it is told how many are
/// rejected for which reason.
///
/// A node's total is its score and, for its untolerated taints `PreferNoSchedule`, what
/// `taints::normalize` gives beside the most that a node has which passes.
pub fn decide(rows: &[Row], verdicts: &[Verdict]) -> Decision
    requires { length verdicts.now ≡ length rows.now }
    ensures { IsChoice (judged (map shown rows.now) verdicts.now) result }
{
    if let Some(found) = first_of(rows, verdicts, Worth::Error) {
        return error_at(rows, verdicts, found);
    }
    let most = most_taints(verdicts);
    match first_of(rows, verdicts, Worth::Total(most)) {
        Some(best) => Decision::Node(name_of(rows, best.at), best.worth),
        None => Decision::Unschedulable(counts(verdicts)),
    }
}

// The decision for the erring node that was found.
fn error_at(rows: &[Row], verdicts: &[Verdict], found: Found) -> Decision
    requires all { length verdicts.now ≡ length rows.now }
    requires there { found.at < length rows.now }
    requires found { let nodes = judged (map shown rows.now) verdicts.now in
        StandsFirst Worth.Error nodes nodes (Some found) }
    ensures { IsChoice (judged (map shown rows.now) verdicts.now) result }
{
    let at = found.at;
    let name = name_of(rows, at);
    match verdicts[at] {
        Verdict::Errs(place, why) => Decision::PluginError(place, name, why),
        _ => unreachable!(),
    }
}

// The name of the node at a place.
pub(crate) fn name_of(rows: &[Row], at: usize) -> Name
    requires { at < length rows.now }
    ensures { result ≡ name_at (map shown rows.now) at }
{
    rows[at].node.name.copied()
}

/// Where a pod goes, by a look at the nodes: each node is judged, and then it is decided among all.
///
/// Errors: `NoMemory` where there is none for a verdict a node; nothing is decided then.
pub fn choose<R: Rules>(
    alloc: Global,
    snapshot: &Snapshot,
    pod: &Pod,
    rules: &mut R,
) -> Result<Decision, NoMemory>
    ensures chosen { IfOk result (Choice (R.answers rules.old) snapshot.now pod.now) }
    ensures stays { rules.new ≡ rules.old }
{
    choose_among(alloc, snapshot.rows(), pod, rules)
}

// The choice among these nodes.
fn choose_among<R: Rules>(
    alloc: Global,
    rows: &[Row],
    pod: &Pod,
    rules: &mut R,
) -> Result<Decision, NoMemory>
    ensures chosen { IfOk result (Choice (R.answers rules.old) (map shown rows.now) pod.now) }
    ensures stays { rules.new ≡ rules.old }
{
    let Ok(verdicts) = verdicts_of(alloc, rows, pod, rules) else {
        return Err(NoMemory);
    };
    Ok(decide(rows, verdicts.as_slice()))
}
