//! The way of a pool's messages: a channel with room for one, under a rule that asks the same of
//! each message, whoever sends and receives.
ghost use Rattle.std.specs.Prelude.{◌≡◌, IfErr, IfSome};
ghost use Rattle.crossbeam_channel.specs.Claims.{IsSeatAt};
ghost use Rattle.crossbeam_channel.specs.Ends.{sends_on, receives_on};

use crossbeam_channel::protocol::{Lesson, Outcome, Protocol, Split};
use crossbeam_channel::{Pass, RuledReceiver, RuledSender, bounded_with};
use std::alloc::{AllocError, Global};
use std::marker::PhantomData;
use std::sync::Wait;

/// What holds of each message of a way.
pub trait Holds<T> {
    ghost of: { T → Type 0 };
}

/// The rule of a channel by which it holds.
pub struct Each<H> {
    of: PhantomData<H>,
}

impl<T, H: Holds<T>> Protocol<T, ()> for Each<H> {
    ghost use Rattle.std.specs.List.{AllByRecursion};

    ghost holds = { λ items views. AllByRecursion H.of items };

    ghost first = { tt };
}

impl<T, H: Holds<T>> Outcome<T, ()> for Each<H> {
    ghost then = { λ v x w. H.of x };
}

impl<T, H: Holds<T>> Lesson<T, ()> for Each<H> {
    ghost use Rattle.std.specs.Prelude.{⊤};

    ghost fact = { λ v items. ⊤ };
}

/// One more who sends or receives.
pub struct Twin;

impl Split<()> for Twin {
    ghost left = { λ v. tt };

    ghost right = { λ v. tt };
}

/// The end at which messages are sent.
pub struct Outbox<T: Drop, H: Holds<T>> {
    sender: RuledSender<T, (), Each<H>>,
    seat: Pass<T, ()>,
    ghost seated: { IsSeatAt (sends_on sender) seat },
}

/// The end at which they are received.
pub struct Inbox<T: Drop, H: Holds<T>> {
    receiver: RuledReceiver<T, (), Each<H>>,
    seat: Pass<T, ()>,
    ghost seated: { IsSeatAt (receives_on receiver) seat },
}

// The ends' drops do what a derive would. But a derived one stands anew, part by part, wherever an
// end may be let go, and these are called there.
impl<T: Drop, H: Holds<T>> Drop for Outbox<T, H> {
    fn drop(self) {
        let Self { sender, seat } = self;
        drop(sender);
        drop(seat);
    }
}

impl<T: Drop, H: Holds<T>> Drop for Inbox<T, H> {
    fn drop(self) {
        let Self { receiver, seat } = self;
        drop(receiver);
        drop(seat);
    }
}

/// Both ends of a new way.
pub fn way<T: Drop, H: Holds<T>>(alloc: Global) -> Result<(Outbox<T, H>, Inbox<T, H>), AllocError> {
    let Ok((sender, receiver, mut seat)) = bounded_with::<T, (), Each<H>, Global>(alloc, 1) else {
        return Err(AllocError);
    };
    let other = sender.another::<Twin>(&mut seat);
    let outbox = Outbox { sender, seat };
    let inbox = Inbox {
        receiver,
        seat: other,
    };
    Ok((outbox, inbox))
}

impl<T: Drop, H: Holds<T>> Outbox<T, H> {
    /// Sends a message.
    ///
    /// Errors: the message, where nobody can receive it any more.
    pub fn send<R: Wait>(&mut self, rt: &R, message: T) -> Result<(), T>
        requires { H.of message }
        ensures { IfErr result (λ back. back ≡ message) }
    {
        match self
            .sender
            .send_as::<Each<H>, R>(rt, &mut self.seat, message)
        {
            Ok(()) => Ok(()),
            Err(error) => Err(error.into_inner()),
        }
    }
}

impl<T: Drop, H: Holds<T>> Inbox<T, H> {
    /// Waits for a message. There is none where nobody can send one any more.
    pub fn receive<R: Wait>(&mut self, rt: &R) -> Option<T>
        ensures { IfSome result (λ message. H.of message) }
    {
        self.receiver.recv_as::<Each<H>, R>(rt, &mut self.seat).ok()
    }

    /// Waits until nobody can send any more. What comes until then is let go.
    pub fn outlast<R: Wait>(&mut self, rt: &R) {
        for _ in rt.forever() {
            if self.receive(rt).is_none() {
                return;
            }
        }
    }
}
