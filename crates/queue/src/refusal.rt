//! Why a call of the queue is refused.
ghost use Rattle.std.specs.Prelude.{◌≡◌};
ghost use Rattle.queue.specs.Refusal.{name_of};

/// A refusal. The queue is then as it was.
#[derive(Clone, Copy, PartialEq, Eq)]
pub enum Refusal {
    /// There is an entry of this uid.
    Known,
    /// There are as many entries as there may be.
    Full,
    /// The pod is not in flight, or not for this pass.
    NotInFlight,
}

impl Refusal {
    /// The refusal's name, as output lines tell it.
    pub fn name(self) -> &'static str
        ensures { result.now ≡ name_of self }
    {
        match self {
            Refusal::Known => "Known",
            Refusal::Full => "Full",
            Refusal::NotInFlight => "NotInFlight",
        }
    }
}
