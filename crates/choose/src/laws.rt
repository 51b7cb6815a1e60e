//! What holds of every choice. The functions do nothing: their contracts are the laws.
ghost use Rattle.choose.specs.Laws.{OneVerdict, OneRuling, OneDecision, VerdictsDecide, RejectedOnlyCount};

use rules::Rules;

/// There is one verdict on a node, and one ruling, by the node, the pod and the rules alone, or
/// their filters alone.
pub fn one_verdict<R: Rules>(_rules: &R)
    ensures verdict { OneVerdict (R.answers _rules.now) }
    ensures ruling { OneRuling (R.answers _rules.now) }
{}

/// There is one decision where no two nodes have one name: one node is chosen or none, and one
/// error is told or none.
pub fn one_decision<R: Rules>(_rules: &R)
    ensures { OneDecision (R.answers _rules.now) }
{}

/// The choice depends on the verdicts on the nodes alone, which may be made part by part and put
/// together in the nodes' order.
pub fn verdicts_decide<R: Rules>(_rules: &R)
    ensures { VerdictsDecide (R.answers _rules.now) }
{}

/// Without a node that is rejected the decision is the same, but that the node isn't counted.
pub fn rejected_nodes_only_count()
    ensures { RejectedOnlyCount }
{}
