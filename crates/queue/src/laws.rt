//! What holds of all queues and of all runs of calls. These functions do nothing: each promises a
//! law of the definitions by which the contracts of the queue's calls say what they do.
ghost use Rattle.queue.specs.Calls.{PopsTheFirst, OnlyOneIsNext, PopsOnce, TicksOnce, LosesNone};

/// What is popped next is the one active entry before which no other active entry comes.
pub fn pops_the_first()
    ensures first { PopsTheFirst }
    ensures only { OnlyOneIsNext }
{}

/// Once a pass has popped a pod, no call pops it again until it is given back or taken out.
pub fn pops_once()
    ensures { PopsOnce }
{}

/// A second tick to the same moment changes nothing.
pub fn ticks_once()
    ensures { TicksOnce }
{}

/// No call loses an entry, but one that takes it out.
pub fn loses_none()
    ensures { LosesNone }
{}
