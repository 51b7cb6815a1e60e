//! The rule of a history that only grows, as of that which passes share.
use crate::next_call::NextCall;
use logbook::{Gain, Plain, Play, Rule};
use std::marker::Model;

/// A call of the history. No value of it is made.
pub struct Entry;

impl Model for Entry {
    ghost use Rattle.desk.specs.History.{Call};
    ghost use Rattle.desk.specs.inside.SharedCodes.{call_code};
    ghost use Rattle.desk.specs.inside.Shared.{no_call};

    ghost Value = { Call };

    ghost coded = { call_code };

    ghost view = { λ _. no_call };
}

/// The word is the length of the history, whatever it is a history of.
pub struct HistoryRule;

impl<E> Rule<E, u64> for HistoryRule {
    ghost use Rattle.std.specs.Prelude.{[]};
    ghost use base.Fml.{ftrue};
    ghost use Rattle.desk.specs.inside.Shared.{IsKept};

    ghost holds = { λ cells log. IsKept cells log };

    ghost first = { [] };

    ghost hinted = { λ n log. Unit {0} };

    ghost shows = { λ log. [] };

    ghost keeps = { λ names log. ftrue };

    ghost moves = { λ ask before after answer. Unit {0} };
}

/// Callers trade nothing.
pub struct Nothing;

impl<E> Gain<E, u64> for Nothing {
    ghost use base.Fml.{ftrue};

    ghost after = { λ names about answer. ftrue };
}

/// A step that adds what is asked.
pub struct Adds;

impl<E> Play<E, u64> for Adds {
    ghost use Rattle.desk.specs.inside.Shared.{IsAdded};

    ghost then = { IsAdded };
}

/// What a step asks for: the call, with the answer that the desk has for it.
impl<'a> Plain<NextCall<'a>, Entry, u64> for Adds {
    ghost use Rattle.std.specs.Prelude.{None};
    ghost use Rattle.desk.specs.inside.Shared.{next_call};

    ghost ask = { λ next. next_call next.desk.now.state next.pass next.number next.step.now };

    ghost state = { λ next. None };
}
