//! What a set of a site's rules promises.
ghost use Rattle.std.specs.Prelude.{◌≡◌, ◌<◌, ◌≤◌, length, Some, slice_get};
ghost use Rattle.quant.specs.declared.amount.Res.{Res};
ghost use Rattle.quant.specs.declared.objects.Node.{Node};
ghost use Rattle.quant.specs.declared.objects.Pod.{Pod};
ghost use Rattle.rules.specs.RuleSet.{RuleSet, SayOneThing, told_of};
ghost use Rattle.rules.specs.Verdict.{IsWithin};

use crate::verdict::{FilterVerdict, ScoreVerdict};
use quant::{Pod, Res, SharedNode};

/// A site's rules, in the order in which they are configured.
///
/// What a rule says depends on the rule, the pod, the node and what is used of the node alone,
/// whatever was asked before: each call leaves the set as it was. In what form a set notes what it
/// is shown, and what it keeps ready from one call to the next, is its own.
pub trait Rules {
    /// What a set notes of a pod and a node that it is shown.
    type Notes: Drop;

    // What the rules say, and how much their scores count.
    ghost answers: { Self → RuleSet };

    // Notes are of this pod, and of this node with so much used of it, for this set.
    ghost OfPod: { Self.Notes → Pod → Type 0 };

    ghost OfNode: { Self → Self.Notes → Node → Res → Type 0 };

    /// How many rules there are: at most 16.
    fn count(&self) -> usize
        ensures value { result ≡ length (answers self.now).weights }
        ensures most { result ≤ 16 };

    /// How much the score of the rule at a place counts: 1 to 10.
    fn weight(&self, place: usize) -> u8
        requires { place < length (answers self.now).weights }
        ensures value { slice_get (answers self.now).weights place ≡ Some result }
        ensures least { 1 ≤ result }
        ensures most { result ≤ 10 };

    /// Shows a pod, once a decision. The notes are of no node yet.
    fn show_pod(&mut self, pod: &Pod) -> Self::Notes
        ensures pod { OfPod result pod.now }
        ensures stays { self.new ≡ self.old };

    /// Shows a node on which pods use so much, once a node. The notes are of the same pod as
    /// before.
    fn show_node(&mut self, notes: &mut Self::Notes, node: &SharedNode, used: &Res)
        ensures node { OfNode self.new notes.new node.now used.now }
        ensures pod { (pod : Pod) → OfPod notes.old pod → OfPod notes.new pod }
        ensures stays { self.new ≡ self.old };

    /// Asks the filter of the rule at a place about the pod and the node that the notes are of. A
    /// rule without one lets every node pass.
    fn filter(
        &mut self,
        place: usize,
        notes: &Self::Notes,
        pod: &Pod,
        node: &SharedNode,
        used: &Res,
    ) -> FilterVerdict
        requires there { place < length (answers self.old).weights }
        requires pod { OfPod notes.now pod.now }
        requires node { OfNode self.old notes.now node.now used.now }
        ensures says { (answers self.old).Filters place (told_of pod.now node.now used.now) result }
        ensures stays { self.new ≡ self.old };

    /// Asks the score of the rule at a place likewise. A rule without one adds nothing: it gives 0.
    fn score(
        &mut self,
        place: usize,
        notes: &Self::Notes,
        pod: &Pod,
        node: &SharedNode,
        used: &Res,
    ) -> ScoreVerdict
        requires there { place < length (answers self.old).weights }
        requires pod { OfPod notes.now pod.now }
        requires node { OfNode self.old notes.now node.now used.now }
        ensures says { (answers self.old).Scores place (told_of pod.now node.now used.now) result }
        ensures within { IsWithin result }
        ensures stays { self.new ≡ self.old };

    /// About how much work the rules' calls have been so far, in units of fuel, from 2^64 on from 0
    /// again. Nothing is promised of it: by it alone whoever has several sets goes when the work is
    /// shared among them or not.
    fn spent(&self) -> u64;

    /// As much of that as went into calls that were shown no node, which a set makes once and not
    /// for each node.
    fn spent_once(&self) -> u64 {
        0
    }

    // A filter says one thing, and so does a score.
    ghost say_one_thing: { (rules : Self) → SayOneThing (answers rules) };
}
