//! The operations that a line may name.
ghost use Rattle.std.specs.Prelude.{◌≡◌};
ghost use Rattle.manifest.specs.Operation.{operation_named};

/// What a line may ask for.
#[derive(Clone, Copy)]
pub(crate) enum Operation {
    /// A node is there, or it has changed.
    Node,
    /// A node is no longer there.
    Gone,
    /// A pod waits for a place.
    Pod,
    /// A pod runs on a node.
    Bound,
    /// A pod is no longer there.
    Deleted,
    /// The clock moves.
    Tick,
    /// The next pod is to be placed.
    Cycle,
    /// An assumed pod runs.
    Done,
    /// An assumed pod could not be bound.
    Forget,
    /// The state is to be printed.
    Dump,
    /// What the rules alone say of each node is to be printed.
    Judge,
}

impl Operation {
    /// The operation of this name, if there is one.
    #[tactic(auto, unfolding(crate::specs::Operation::operation_named))]
    pub(crate) fn named(name: &str) -> Option<Operation>
        ensures { result ≡ operation_named name.now }
    {
        match name {
            "node" => Some(Operation::Node),
            "gone" => Some(Operation::Gone),
            "pod" => Some(Operation::Pod),
            "bound" => Some(Operation::Bound),
            "deleted" => Some(Operation::Deleted),
            "tick" => Some(Operation::Tick),
            "cycle" => Some(Operation::Cycle),
            "done" => Some(Operation::Done),
            "forget" => Some(Operation::Forget),
            "dump" => Some(Operation::Dump),
            "judge" => Some(Operation::Judge),
            _ => None,
        }
    }
}
