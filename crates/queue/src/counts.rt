//! How many entries stand where.

ghost use Rattle.std.specs.Prelude.{◌≡◌, ◌+◌, ◌<◌, ◌^◌};
ghost use Rattle.queue.specs.inside.Slots.{counted, total_of};

use queued::State;

/// The number of entries in each state.
#[derive(Clone, Copy, Default, PartialEq, Eq)]
pub struct Counts {
    /// Those that wait to be popped.
    pub active: usize,
    /// Those that wait for a moment.
    pub backoff: usize,
    /// Those that wait for a move, or for time.
    pub unschedulable: usize,
    /// Those that a pass has popped.
    pub in_flight: usize,
}

impl Counts {
    /// Counts one more entry, which is in this state.
    pub(crate) fn add(&mut self, state: State)
        requires { total_of self.old + 1 < 2 ^ 64 }
        ensures { self.new ≡ counted state self.old }
    {
        match state {
            State::Active => self.active += 1,
            State::Backoff(_) => self.backoff += 1,
            State::Unschedulable(_) => self.unschedulable += 1,
            State::InFlight { .. } => self.in_flight += 1,
        }
    }
}
