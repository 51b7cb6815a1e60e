//! How large a scheduler may grow. All its room is made before its first step.
ghost use Rattle.std.specs.Prelude.{◌≡◌, ◌≤◌};
ghost use Rattle.quant.specs.declared.limits.TheConstants.{MAX_NODES, MAX_PLACED, MAX_QUEUED};

use quant::{MAX_NODES, MAX_PLACED, MAX_QUEUED};

/// How many milliseconds after its bind was reported done an assumed place that the cluster hasn't
/// confirmed stays.
pub const EXPIRY: u64 = 30_000;

/// How many nodes, placed pods and queued pods there is room for. Each may be 0.
#[derive(Clone, Copy)]
pub struct Limits {
    /// Nodes, at most `MAX_NODES`.
    pub nodes: usize,
    /// Pods with a place, at most `MAX_PLACED`.
    pub placed: usize,
    /// Pods in the queue, at most `MAX_QUEUED`.
    pub queued: usize,
    pub ghost few_nodes: { nodes ≤ MAX_NODES },
    pub ghost few_placed: { placed ≤ MAX_PLACED },
    pub ghost few_queued: { queued ≤ MAX_QUEUED },
}

impl Limits {
    /// The greatest limits.
    pub fn greatest() -> Self
        ensures nodes { result.nodes ≡ MAX_NODES }
        ensures placed { result.placed ≡ MAX_PLACED }
        ensures queued { result.queued ≡ MAX_QUEUED }
    {
        Limits {
            nodes: MAX_NODES,
            placed: MAX_PLACED,
            queued: MAX_QUEUED,
        }
    }
}
