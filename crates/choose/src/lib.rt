//! Which node a pod goes to: what is decided of each node, and the choice among all of them.
//!
//! What is decided of a node depends on that node, the pod and the rules alone (`verdict_of`), and
//! the choice on these verdicts alone (`decide`), so verdicts may be made in parts and put together
//! in the nodes' order. However many share the work, and in however many threads, what they come to
//! is what a `Decider` promises.
//!
//! - `decision`: what is decided of a node, a `Verdict`, and of a pod, a `Decision`.
//! - `judging`: the verdicts on nodes, by the built-in filters and scores, and by the rules of a
//!   site, `asking`; and the rulings, which are by these rules alone.
//! - `choice`: the decision by the verdicts of all nodes. `best` has the node that goes first, and
//!   `counts` how many are rejected for which reason.
//! - `alone`: the choice where there is no rule, without verdicts.
//! - `decider`: what promises this choice, whoever shares the work.
//! - `laws`: what holds of every choice.
#![tactic(auto)]

mod alone;
mod asking;
mod best;
mod choice;
mod counts;
mod decider;
mod decision;
mod judging;
mod laws;
mod one_of;

pub use alone::choose_alone;
pub use best::{most_taints, total};
pub use choice::{choose, decide};
pub use decider::Decider;
pub use decision::{Counts, Decision, Reason, UNJUDGED, Verdict};
pub use desk::NoMemory;
pub use judging::{judge, rule_on, verdict_of, verdicts_of};
pub use laws::{one_decision, one_verdict, rejected_nodes_only_count, verdicts_decide};
pub use one_of::OneOf;
