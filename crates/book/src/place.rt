//! Where a pod is placed.
ghost use Rattle.std.specs.Prelude.{◌≡◌, not, ◌∷◌, [], Some};
ghost use Rattle.std.specs.Result.{result_err};

use crate::finishes::NEVER;
use crate::refusal::Refusal;
use quant::{Moment, Name, Request, Ticket};

/// How sure a place is.
#[derive(Clone, Copy)]
pub enum Status {
    /// The scheduler chose the place, and the cluster has not confirmed it yet.
    Assumed {
        /// What names this choice.
        ticket: Ticket,
        /// The moment at which the bind was reported done, if it was.
        finished: Option<Moment>,
    },
    /// The cluster told the place.
    Bound,
}

/// A pod's place.
#[derive(Drop)]
pub struct Place {
    /// The name of the node, which needn't be there.
    pub node: Name,
    /// What the pod asks of the node.
    pub request: Request,
    /// How sure the place is.
    pub status: Status,
}

impl Status {
    ghost use Rattle.book.specs.Step.{first_of, is_bound, has_ticket, is_finished, finished_status};
    ghost use Rattle.book.specs.inside.Finishes.{finish_of};

    // An assumed place is what a ticket names, if it is the place's own, until its bind is reported
    // done.
    pub(crate) fn check(self, named: Ticket) -> Result<(), Refusal>
        ensures { result_err result ≡ first_of ((is_bound self, Refusal.Confirmed) ∷
            (not (has_ticket named self), Refusal.StaleTicket) ∷ (is_finished self, Refusal.Confirmed) ∷ []) }
    {
        match self {
            Status::Bound => Err(Refusal::Confirmed),
            Status::Assumed { ticket, .. } if ticket != named => Err(Refusal::StaleTicket),
            Status::Assumed {
                finished: Some(_),
                ..
            } => Err(Refusal::Confirmed),
            Status::Assumed { .. } => Ok(()),
        }
    }

    // The status once its bind is reported done, at this moment.
    pub(crate) fn finished(self, at: Moment) -> Self
        ensures { result ≡ finished_status at self }
    {
        match self {
            Status::Assumed { ticket, .. } => Status::Assumed {
                ticket,
                finished: Some(at),
            },
            Status::Bound => Status::Bound,
        }
    }

    // The millisecond at which the bind was reported done, or one at which nothing ever expires.
    pub(crate) fn finish(self) -> u64
        ensures { result ≡ finish_of self }
    {
        match self {
            Status::Assumed {
                finished: Some(at),
                ..
            } => at.0,
            _ => NEVER,
        }
    }
}
