//! What holds of this crate's constants, and of every history. The functions do nothing: their
//! contracts are the laws.
ghost use Rattle.std.specs.Prelude.{◌≡◌, ◌^◌, ℕ, List};
ghost use Rattle.book.specs.declared.limits.Limits.{Limits};
ghost use Rattle.desk.specs.Machine.{opening};
ghost use Rattle.desk.specs.History.{Call, Legal, state_after, rows_of, places_of};
ghost use Rattle.desk.specs.Laws.{TicketsOnce, TicketsInOrder, EntryOrPlace, EntryGoesWithPlace, InFlightIsUnanswered};
ghost use Rattle.desk.specs.Alone.{AnswersAlone, LooksAlone};

use crate::limits::{MAX_CALLS, MAX_PASSES};

/// How many passes a desk hands out, and how many calls of each are answered, are these numbers.
pub fn desk_limits_are_these()
    ensures passes { MAX_PASSES ≡ 64 }
    ensures calls { MAX_CALLS ≡ 10 ^ 18 }
{}

/// Whatever legal history came before, the nodes that are there and the places of pods are those
/// that the history tells, by the last accepted steps that name each.
pub fn history_tells_the_state()
    ensures nodes { (limits : Limits) (passes : ℕ) (l : List Call) → Legal limits passes l →
        (state_after (opening limits) l).cluster.nodes ≡ rows_of l }
    ensures places { (limits : Limits) (passes : ℕ) (l : List Call) → Legal limits passes l →
        (state_after (opening limits) l).cluster.places ≡ places_of l }
{}

/// No ticket is given twice, whichever passes ask: a history gives the tickets 1, 2, 3, .. in this
/// order.
pub fn tickets_are_given_once()
    ensures once { TicketsOnce }
    ensures in_order { TicketsInOrder }
{}

/// A pod has an entry in the queue or a place or neither. It has both only while its place is
/// assumed, and then it is in flight; once it is bound it has no entry.
pub fn entry_or_place()
    ensures once { EntryOrPlace }
    ensures by_place { EntryGoesWithPlace }
{}

/// What a pass popped that was not answered since is what is in flight for that pass and has no
/// place, and of all passes together that is as much as `Count` tells.
pub fn in_flight_is_unanswered()
    ensures { InFlightIsUnanswered }
{}

/// The only pass of a shared desk knows its state: each of its steps is answered and done on the
/// state that it has seen, and each look shows that state.
pub fn one_pass_is_alone()
    ensures answers { AnswersAlone }
    ensures looks { LooksAlone }
{}
