//! What a line asks for.
use quant::{Event, Moment, Name, SharedPod, Ticket};

/// What a line asks for.
#[derive(Drop)]
pub enum Command {
    /// What the cluster's watch tells.
    Event(Event),
    /// The scheduler's clock stands at this moment from now on, 0 to 10^15 milliseconds.
    Tick(Moment),
    /// The next pod of the queue is to be placed.
    Cycle,
    /// The pod that was assumed under this ticket now runs on its node.
    BindDone {
        /// Which pod it is.
        uid: Name,
        /// The ticket under which its place was assumed, 1 to 10^18.
        ticket: Ticket,
    },
    /// The pod that was assumed under this ticket could not be bound, and loses its place.
    Forget {
        /// Which pod it is.
        uid: Name,
        /// The ticket under which its place was assumed, 1 to 10^18.
        ticket: Ticket,
    },
    /// A look at the nodes, the places and the queue.
    Dump,
    /// What the rules alone say of each node.
    Judge(Question),
}

/// What is asked of the rules.
#[derive(Drop)]
pub struct Question {
    /// The pod for which they are asked.
    pub pod: SharedPod,
    /// Whether their filters alone are asked, and no score.
    pub filters_alone: bool,
}
