//! What a caller may ask of the desk, and what is answered.
ghost use Rattle.std.specs.Prelude.{◌≡◌, IfOk};

use book::Refusal;
use quant::{Event, Moment, Name, SharedPod, Ticket, Version};
use queue::Failure;
use std::alloc::AllocError;

/// A step.
#[derive(Drop)]
pub enum Step {
    /// The watch tells this.
    Event(Event),
    /// The caller wants a pod to place.
    Pop,
    /// The caller chose this node for a pod that it popped.
    Assume {
        /// The pod.
        uid: Name,
        /// The node's name.
        node: Name,
    },
    /// An assumed place was told to the cluster.
    BindDone {
        /// The pod.
        uid: Name,
        /// What names the choice of its place.
        ticket: Ticket,
    },
    /// An assumed place couldn't be told to the cluster, and is given up.
    Forget {
        /// The pod.
        uid: Name,
        /// What names the choice of its place.
        ticket: Ticket,
    },
    /// The caller found no place for a pod that it popped.
    Fail {
        /// The pod.
        uid: Name,
        /// Whether it is to be tried again.
        how: Failure,
    },
    /// Time goes on to this moment, at most `LATEST_MOMENT`.
    Tick(Moment),
    /// Nothing changes; the desk tells its numbers.
    Count,
}

impl Step {
    ghost use Rattle.desk.specs.inside.NodeCalls.{tells_of_node};

    // Whether it tells of a node.
    pub(crate) fn tells_of_node(&self) -> bool
        ensures { result ≡ tells_of_node self.now }
    {
        match self {
            Step::Event(event) => matches!(event, Event::NodeSet { .. } | Event::NodeGone { .. }),
            _ => false,
        }
    }

    /// The same step, with one more owner of the row or the pod that it tells of.
    ///
    /// Errors: `AllocError` where that can have no further owner.
    pub fn share(&self) -> Result<Step, AllocError>
        ensures { IfOk result (λ step. step ≡ self.now) }
    {
        Ok(match self {
            Step::Event(event) => match share_event(event) {
                Ok(event) => Step::Event(event),
                Err(AllocError) => return Err(AllocError),
            },
            Step::Pop => Step::Pop,
            Step::Assume { uid, node } => Step::Assume {
                uid: uid.copied(),
                node: node.copied(),
            },
            Step::BindDone { uid, ticket } => Step::BindDone {
                uid: uid.copied(),
                ticket: *ticket,
            },
            Step::Forget { uid, ticket } => Step::Forget {
                uid: uid.copied(),
                ticket: *ticket,
            },
            Step::Fail { uid, how } => Step::Fail {
                uid: uid.copied(),
                how: *how,
            },
            Step::Tick(now) => Step::Tick(*now),
            Step::Count => Step::Count,
        })
    }
}

fn share_event(event: &Event) -> Result<Event, AllocError>
    ensures { IfOk result (λ shared. shared ≡ event.now) }
{
    Ok(match event {
        Event::NodeSet { version, node } => match node.share() {
            Ok(node) => Event::NodeSet {
                version: *version,
                node,
            },
            Err(AllocError) => return Err(AllocError),
        },
        Event::NodeGone { version, name } => Event::NodeGone {
            version: *version,
            name: name.copied(),
        },
        Event::PodPending { version, pod } => match pod.share() {
            Ok(pod) => Event::PodPending {
                version: *version,
                pod,
            },
            Err(AllocError) => return Err(AllocError),
        },
        Event::PodBound {
            version,
            uid,
            node,
            request,
        } => Event::PodBound {
            version: *version,
            uid: uid.copied(),
            node: node.copied(),
            request: *request,
        },
        Event::PodGone { version, uid } => Event::PodGone {
            version: *version,
            uid: uid.copied(),
        },
    })
}

/// The desk's numbers.
#[derive(Clone, Copy, PartialEq, Eq)]
pub struct Counts {
    /// Pods whose place the cluster told.
    pub bound: usize,
    /// Pods whose place is assumed.
    pub assumed: usize,
    /// Pods in the queue that may be popped.
    pub active: usize,
    /// Pods in the queue that wait for the end of their backoff.
    pub backoff: usize,
    /// Pods in the queue for which no node was found.
    pub unschedulable: usize,
    /// Pods that were popped and have no place yet.
    pub in_flight: usize,
    /// The desk's clock.
    pub clock: Moment,
    /// The version of the last accepted event, and 0 before the first.
    pub version: Version,
}

/// The answer to a step.
#[derive(Drop)]
pub enum Reply {
    /// The step was done.
    Done,
    /// The answer to `Pop` where no pod waits to be popped.
    Idle,
    /// The answer to `Pop`: this pod is the caller's, until it is placed, fails or goes.
    Popped(SharedPod),
    /// The answer to `Assume`: the pod has its place, and this ticket names the choice.
    Ticket(Ticket),
    /// The answer to `Count`.
    Counts(Counts),
    /// The step was refused, and changed nothing but the caller's count of calls.
    Refused(Refusal),
}

impl Reply {
    ghost use Rattle.desk.specs.inside.Done.{is_refused};

    // Whether the step was refused.
    pub(crate) fn is_refused(&self) -> bool
        ensures { result ≡ is_refused self.now }
    {
        matches!(self, Reply::Refused(_))
    }
}
