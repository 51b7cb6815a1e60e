//! What happens to a cluster, and what is answered.
use crate::entry::Entry;
use crate::refusal::Refusal;
use quant::{Event, Moment, Name, Request, SharedPod, Ticket};

/// A step that touches the version, the nodes, the places or the tickets, with what its tests need
/// of the queue.
#[derive(Drop)]
pub enum ClusterStep {
    /// The watch tells this.
    Event {
        /// What it tells.
        event: Event,
        /// Whether the queue has an entry of the pod that the event names.
        queued: bool,
        /// Whether the queue has no room for one more entry.
        queue_full: bool,
    },
    /// The scheduler chose this node for a pod, which is placed there before the cluster tells so.
    Assume {
        /// The pod.
        uid: Name,
        /// The node's name.
        node: Name,
        /// What the queue has of the pod.
        entry: Entry,
    },
    /// An assumed place was told to the cluster.
    BindDone {
        /// The pod.
        uid: Name,
        /// What names the choice of its place.
        ticket: Ticket,
        /// When that was reported.
        at: Moment,
        /// Whether the queue has an entry of the pod.
        queued: bool,
    },
    /// An assumed place couldn't be told to the cluster, and is given up.
    Forget {
        /// The pod.
        uid: Name,
        /// What names the choice of its place.
        ticket: Ticket,
        /// Whether the queue has an entry of the pod.
        queued: bool,
    },
}

/// The answer to a step.
#[derive(Drop)]
pub enum Reply {
    /// The step was done.
    Done,
    /// The event was taken, and this pod, which it brought, is the queue's to keep.
    Queue(SharedPod),
    /// The pod has its place, and this ticket names the choice from now on.
    Ticket(Ticket),
    /// The step was refused, and changed nothing.
    Refused(Refusal),
}
