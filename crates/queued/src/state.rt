//! Where a pod stands in the queue, and how an attempt at it may fail.
ghost use Rattle.std.specs.Prelude.{◌≡◌};
ghost use Rattle.queued.specs.Entry.{is_active, is_in_flight, is_in_flight_for};

use quant::Moment;

/// The number of a pass, which tells one user of the queue from another.
#[derive(Clone, Copy, PartialEq, Eq)]
pub struct PassNumber(pub u64);

/// Where a pod stands in the queue.
#[derive(Clone, Copy, PartialEq, Eq)]
pub enum State {
    /// It waits to be popped.
    Active,
    /// It waits until this moment, and is active from the first tick at or after it.
    Backoff(Moment),
    /// No node would take it at this moment. A move may release it, and time does.
    Unschedulable(Moment),
    /// A pass popped it and has not given it back.
    InFlight {
        /// The pass that popped it.
        pass: PassNumber,
        /// Whether there was a move since it was popped.
        moved: bool,
    },
}

/// How an attempt at a pod failed.
#[derive(Clone, Copy)]
pub enum Failure {
    /// No node would take it.
    Unschedulable,
    /// It is to be tried again.
    Again,
}

impl State {
    /// Whether the pod waits to be popped.
    pub fn is_active(self) -> bool
        ensures { result ≡ is_active self }
    {
        matches!(self, State::Active)
    }

    /// Whether some pass has popped the pod.
    pub fn is_in_flight(self) -> bool
        ensures { result ≡ is_in_flight self }
    {
        matches!(self, State::InFlight { .. })
    }

    /// Whether this pass has popped the pod.
    pub fn is_in_flight_for(self, mine: PassNumber) -> bool
        ensures { result ≡ is_in_flight_for mine self }
    {
        matches!(self, State::InFlight { pass, .. } if pass == mine)
    }
}
