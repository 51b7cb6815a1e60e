//! Why a step is refused.
ghost use Rattle.std.specs.Prelude.{◌≡◌};
ghost use Rattle.book.specs.Refusal.{number_of, name_of};

/// A refusal of a step. It changes nothing but the caller's count of calls.
#[derive(Clone, Copy, PartialEq, Eq)]
pub enum Refusal {
    /// The event's version is at or below that of the last accepted event.
    Old = 1,
    /// The table that the step adds to is full, or the last ticket was given.
    Full = 2,
    /// The pod is in the queue, and the caller doesn't have it in flight.
    NotInFlight = 3,
    /// The pod has a place.
    Placed = 4,
    /// The node isn't there.
    NoNode = 5,
    /// The pod doesn't fit on the node now.
    NoRoom = 6,
    /// The place was assumed with another ticket, or isn't assumed.
    StaleTicket = 7,
    /// The pod is neither in the queue nor placed.
    Gone = 8,
    /// The moment is before the clock.
    ClockBack = 9,
    /// The pod is in the queue or placed already.
    Known = 10,
    /// The place is bound, or its bind has been reported done.
    Confirmed = 11,
}

impl Refusal {
    /// The refusal's number, as output lines tell it.
    pub fn number(self) -> u8
        ensures { result ≡ number_of self }
    {
        self as u8
    }

    /// The refusal's name, as output lines tell it.
    pub fn name(self) -> &'static str
        ensures { result.now ≡ name_of self }
    {
        match self {
            Refusal::Old => "Old",
            Refusal::Full => "Full",
            Refusal::NotInFlight => "NotInFlight",
            Refusal::Placed => "Placed",
            Refusal::NoNode => "NoNode",
            Refusal::NoRoom => "NoRoom",
            Refusal::StaleTicket => "StaleTicket",
            Refusal::Gone => "Gone",
            Refusal::ClockBack => "ClockBack",
            Refusal::Known => "Known",
            Refusal::Confirmed => "Confirmed",
        }
    }
}
