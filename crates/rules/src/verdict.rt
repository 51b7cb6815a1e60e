//! What a rule says of a node.
use crate::trap::Trap;

/// Why a rule keeps a pod off a node (the names of the Kubernetes page "Scheduling Framework").
#[derive(Clone, Copy)]
pub enum Rejection {
    /// The pod may not stand here now.
    Unschedulable,
    /// Nor would it help to take other pods away.
    UnschedulableAndUnresolvable,
}

/// Why a rule says nothing of the node.
#[derive(Clone, Copy)]
pub enum Cause {
    /// Its filter answered this number, which is no code.
    Code(i32),
    /// It gave this score, which is not from 0 to 100.
    Score(i64),
    /// It was cut off.
    Trap(Trap),
    /// Its fuel was used up.
    Exhausted,
}

/// What a rule's filter says of a node.
#[derive(Clone, Copy)]
pub enum FilterVerdict {
    Passes,
    Rejects(Rejection),
    Errs(Cause),
}

/// What a rule's score says of a node.
#[derive(Clone, Copy)]
pub enum ScoreVerdict {
    /// A score from 0 to 100.
    Good(u8),
    Errs(Cause),
}
