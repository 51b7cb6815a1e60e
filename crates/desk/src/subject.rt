//! Whose rows a step may change.
use quant::{Name, Res, SharedNode};

/// Whose rows a step may change, with all that has to be there before the step, since after it
/// nothing may fail.
#[derive(Drop)]
pub enum Subject {
    /// Nobody's.
    Nothing,
    /// Those of the nodes where this pod is placed before and after the step.
    Pod(Name),
    /// That of this node, which is told of.
    Set(SharedNode),
    /// That of the node of this name, which is told to be gone.
    Gone(Name),
    /// Anybody's, since places expire. There is room for what is used of each.
    All(Vec<Res>),
}
