//! The history that all passes of a desk share. It exists in the proofs alone: what threads share
//! is a word, its length, and a `Prefix` is a beginning of it that was seen.
ghost use Rattle.std.specs.Prelude.{◌≡◌, [], IfSome};
ghost use Rattle.std.specs.Bool.{IsTrue};
ghost use mathlib.Core.List.{IsPrefix};
ghost use Rattle.desk.specs.inside.Shared.{head_of, next_call, with_call};
ghost use Rattle.desk.specs.inside.NodeCalls.{calls_on_nodes};

use crate::history_rule::{Adds, Entry, HistoryRule, Nothing};
use crate::next_call::NextCall;
use logbook::{Offer, Seen, Start, Word};
use std::marker::{Brand, Model, PhantomData};

/// Which desk it is, and how large it may grow. Whoever opens a desk picks it.
pub trait Naming {
    ghost use Rattle.logbook.specs.Pages.{Book};
    ghost use Rattle.book.specs.declared.limits.Limits.{Limits};

    ghost book: { Book };

    ghost limits: { Limits };
}

impl Naming for Brand {
    ghost use Rattle.std.proofs.Common.{zero-le};

    ghost book = { record { number = 0; log_name = 0; cells_name = 0 } };

    ghost limits = { record { nodes = 0; placed = 0; queued = 0; few_nodes = zero-le; few_placed = zero-le; few_queued = zero-le } };
}

/// An empty history, before it has a name.
pub struct Blank {
    head: Word<Entry, u64, HistoryRule>,
    seen: Seen<Entry, u64, HistoryRule>,
    pub ghost empty: { seen.log ≡ [] },
    pub ghost head_is: { head ≡ head_of seen.book },
}

/// The word that all threads share: the length of the history.
#[derive(Drop)]
pub struct Head<J: Naming> {
    word: Word<Entry, u64, HistoryRule>,
    of: PhantomData<J>,
    ghost word_is: { word ≡ head_of J.book },
}

/// A beginning of the history that was seen. Contracts see it as its calls.
pub struct Prefix {
    calls: u64,
    // How many of them tell of a node.
    node_calls: u64,
    seen: Seen<Entry, u64, HistoryRule>,
}

impl Model for Prefix {
    ghost use Rattle.std.specs.Prelude.{◌≡◌, length};
    ghost use Rattle.desk.specs.inside.Shared.{Prefix as Begun};
    ghost use Rattle.desk.specs.inside.SharedCodes.{prefix_code};
    ghost use Rattle.desk.specs.inside.NodeCalls.{calls_on_nodes};

    ghost Value = { Begun };

    ghost coded = { prefix_code };

    ghost view = { λ f. record { book = f.seen.book; list = f.seen.log } };

    ghost invariant = { λ f. (f.calls ≡ length f.seen.log) × (f.node_calls ≡ calls_on_nodes f.seen.log) };
}

// By hand, so that who drops a beginning calls this, and its parts' drops are proved here alone.
impl Drop for Prefix {
    fn drop(self) {
        let Self {
            calls: _,
            node_calls: _,
            seen: _seen,
        } = self;
    }
}

impl Blank {
    /// An empty history.
    pub fn new() -> Blank {
        let (seen, mut first, _second) = Seen::open(Start::alone(), 0, 0);
        Blank {
            head: Word::tracked(0, &mut first),
            seen,
        }
    }

    /// The history under a name.
    pub(crate) fn named<J: Naming>(self) -> (Head<J>, Prefix)
        requires { self.seen.book ≡ J.book }
        ensures { result.1 ≡ record { book = J.book; list = [] } }
    {
        let Blank { head, seen } = self;
        (
            Head {
                word: head,
                of: PhantomData,
            },
            Prefix {
                calls: 0,
                node_calls: 0,
                seen,
            },
        )
    }
}

impl Prefix {
    /// A copy.
    pub(crate) fn again(&self) -> Prefix
        ensures { result ≡ self.now }
    {
        Prefix {
            calls: self.calls,
            node_calls: self.node_calls,
            seen: self.seen.again(),
        }
    }

    /// Whether the other is no shorter, and so begins with this one.
    pub(crate) fn begins(&self, other: &Prefix) -> bool
        requires { other.now.book ≡ self.now.book }
        ensures { IsTrue result → IsPrefix self.now.list other.now.list }
    {
        let mut both = self.seen.again();
        both.learn(&other.seen);
        self.calls <= other.calls
    }

    /// Whether the other is this one.
    pub(crate) fn is_same(&self, other: &Prefix) -> bool
        requires { other.now.book ≡ self.now.book }
        ensures { IsTrue result → self.now.list ≡ other.now.list }
    {
        self.begins(other) && self.calls == other.calls
    }

    /// How many more calls the other has.
    pub(crate) fn calls_until(&self, other: &Prefix) -> usize {
        usize::try_from(other.calls.saturating_sub(self.calls)).unwrap_or(usize::MAX)
    }

    /// Whether the other begins with this one, and none of its further calls tells of a node.
    pub(crate) fn has_same_nodes(&self, other: &Prefix) -> bool
        requires { other.now.book ≡ self.now.book }
        ensures begins { IsTrue result → IsPrefix self.now.list other.now.list }
        ensures same { IsTrue result → calls_on_nodes self.now.list ≡ calls_on_nodes other.now.list }
    {
        self.begins(other) && self.node_calls == other.node_calls
    }

    /// With one call more, if this is the whole history and there is room for a call in it.
    pub(crate) fn with_call<J: Naming>(&self, head: &Head<J>, next: &NextCall<'_>) -> Option<Prefix>
        requires { self.now.book ≡ J.book }
        ensures { IfSome result (λ more. more ≡ with_call self.now
            (next_call next.now.desk.now.state next.now.pass next.now.number next.now.step.now)) }
    {
        let calls = self.calls;
        if calls >= 1 << 62 {
            return None;
        }
        let longer = calls + 1;
        let node_calls = self.node_calls + u64::from(next.step.tells_of_node());
        let mut seen = self.seen.again();
        let mut offer: Offer<Entry, u64, HistoryRule, Nothing> = seen.plain::<
            Nothing,
            NextCall<'_>,
            Adds,
        >(next);
        let mut pen = seen.no_pen();
        let found = head
            .word
            .compare_exchange::<Adds, Nothing>(calls, longer, &mut seen, &mut offer, &mut pen);
        if found != calls {
            return None;
        }
        Some(Prefix {
            calls: longer,
            node_calls,
            seen,
        })
    }
}
