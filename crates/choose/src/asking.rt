//! What the rules make of a node.
ghost use Rattle.std.specs.Prelude.{◌≡◌, ◌≤◌, length, IfOk};
ghost use Rattle.desk.specs.Shown.{shown};
ghost use Rattle.choose.specs.Verdict.{Filtered, Scored, told_of};

use crate::decision::Verdict;
use desk::Row;
use quant::Pod;
use rules::{FilterVerdict, Rules, ScoreVerdict};

/// What the scores of the rules add to a node.
#[derive(Clone, Copy)]
pub struct Added {
    /// Each score as often as its rule's weight says, added up.
    pub sum: u16,
    /// The scores, by the rules' places. A place without a rule has 0.
    pub scores: [u8; 16],
}

/// What the filters of the rules make of a node and a pod, of which the notes are, in the rules'
/// order: the first that doesn't pass ends it.
pub fn filtered<R: Rules>(row: &Row, pod: &Pod, notes: &R::Notes, rules: &mut R) -> Option<Verdict>
    requires pod { R.OfPod notes.now pod.now }
    requires node { R.OfNode rules.old notes.now row.now.node row.now.used }
    ensures is { Filtered (R.answers rules.old) (told_of pod.now (shown row.now)) result }
    ensures stays { rules.new ≡ rules.old }
    ensures few { length (R.answers rules.old).weights ≤ 16 }
{
    for place in 0..rules.count() {
        match rules.filter(place, notes, pod, &row.node, &row.used) {
            FilterVerdict::Passes => {}
            FilterVerdict::Rejects(how) => return Some(Verdict::RejectedBy(place, how)),
            FilterVerdict::Errs(why) => return Some(Verdict::Errs(place, why)),
        }
    }
    None
}

/// What the scores of the rules add to this node for this pod, of which the notes are, or the
/// verdict where one isn't good.
pub fn scored<R: Rules>(
    row: &Row,
    pod: &Pod,
    notes: &R::Notes,
    rules: &mut R,
) -> Result<Added, Verdict>
    requires pod { R.OfPod notes.now pod.now }
    requires node { R.OfNode rules.old notes.now row.now.node row.now.used }
    ensures is { Scored (R.answers rules.old) (told_of pod.now (shown row.now)) result }
    ensures stays { rules.new ≡ rules.old }
    ensures few { IfOk result (λ added. added.sum ≤ 16000) }
{
    let mut sum = 0;
    let mut scores = [0; 16];
    for place in 0..rules.count() {
        match rules.score(place, notes, pod, &row.node, &row.used) {
            ScoreVerdict::Good(score) => {
                sum += u16::from(rules.weight(place)) * u16::from(score);
                scores[place] = score;
            }
            ScoreVerdict::Errs(why) => return Err(Verdict::Errs(place, why)),
        }
    }
    Ok(Added { sum, scores })
}
