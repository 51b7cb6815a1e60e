//! What is decided of a node, and of a pod.
use quant::Name;
use rules::{Cause, Rejection};

/// The first reason for which a node isn't for a pod.
#[derive(Clone, Copy, PartialEq, Eq)]
pub enum Reason {
    /// It is marked unschedulable.
    Marked,
    /// It has a taint that the pod doesn't tolerate.
    Taint,
    /// It has too little CPU.
    Cpu,
    /// It has too little memory.
    Memory,
    /// It has no place for one more pod.
    Pods,
    /// A rule answered `Unschedulable`.
    Plugin,
    /// A rule answered `UnschedulableAndUnresolvable`.
    Final,
}

/// What is decided of a node.
#[derive(Clone, Copy)]
pub enum Verdict {
    /// A built-in filter rejects it.
    Rejected(Reason),
    /// The filter of the rule at this place rejects it.
    RejectedBy(usize, Rejection),
    /// The rule at this place said nothing of it, for this cause.
    Errs(usize, Cause),
    /// It is for the pod: how many of its taints `PreferNoSchedule` the pod doesn't tolerate; the
    /// node's score but for these taints, which count beside those of all nodes; and the scores of
    /// the rules that it has in it, by their places. There are at most 16 rules, and a place
    /// without one has 0.
    Passes(u8, u16, [u8; 16]),
}

/// What stands in a place for a verdict before the node is judged.
pub const UNJUDGED: Verdict = Verdict::Rejected(Reason::Marked);

/// How many nodes were rejected for each first reason.
#[derive(Clone, Copy)]
pub struct Counts {
    pub marked: usize,
    pub taint: usize,
    pub cpu: usize,
    pub memory: usize,
    pub pods: usize,
    /// Those of which a rule answered `Unschedulable`.
    pub plugin: usize,
    /// Those of which a rule answered `UnschedulableAndUnresolvable`.
    pub plugin_final: usize,
}

/// What is decided of a pod.
#[derive(Drop)]
pub enum Decision {
    /// The node that the pod goes to, and its total.
    Node(Name, u32),
    /// Every node is rejected.
    Unschedulable(Counts),
    /// The rule at this place said nothing of this node, for this cause.
    PluginError(usize, Name, Cause),
}
