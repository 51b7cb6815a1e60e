//! What a pool is asked, and the history of it.
ghost use Rattle.std.specs.Prelude.{◌≡◌, ◌<◌, ◌≤◌, [], length, IfOk, IfErr};
ghost use Rattle.std.specs.Bool.{IsTrue};
ghost use Rattle.desk.specs.inside.Shared.{head_of};
ghost use Rattle.pieces.specs.Pieces.{begins};

use crate::cut::begin;
use desk::{HistoryRule, Nothing, Snapshot};
use logbook::{Offer, Plain, Play, Seen, Start, Word};
use quant::SharedPod;
use std::marker::{Brand, Model, PhantomData};

/// A pod, the nodes among which it is to be placed, and into how many pieces they are cut.
pub struct Asked {
    pub snapshot: Snapshot,
    pub pod: SharedPod,
    pub pieces: usize,
}

// By hand, so that who drops one calls this, and its parts' drops are proved here alone.
impl Drop for Asked {
    fn drop(self) {
        let Self {
            snapshot: _snapshot,
            pod: _pod,
            pieces: _,
        } = self;
    }
}

/// A step that adds what is asked. (The desk has one like it for its calls. With that one, whoever
/// names a history of a pool would name all that lies under a desk too.)
pub struct Adds;

impl Play<Asked, u64> for Adds {
    ghost use Rattle.desk.specs.inside.Shared.{IsAdded};

    ghost then = { IsAdded };
}

impl Plain<Asked, Asked, u64> for Adds {
    ghost use Rattle.std.specs.Prelude.{None};

    ghost ask = { λ asked. asked };

    ghost state = { λ asked. None };
}

/// Which pool it is, and what its kits say. Whoever starts a pool picks it.
pub trait Site {
    ghost use Rattle.logbook.specs.Pages.{Book};
    ghost use Rattle.quant.specs.declared.objects.Pod.{Pod};
    ghost use Rattle.desk.specs.Shown.{Shown};
    ghost use Rattle.choose.specs.declared.decision.Verdict.{Verdict};

    // the history of what it is asked
    ghost book: { Book };

    // the verdict on a node, for a pod
    ghost Says: { Pod → Shown → Verdict → Type 0 };
}

impl Site for Brand {
    ghost use Rattle.std.specs.Prelude.{⊤};

    ghost book = { record { number = 0; log_name = 0; cells_name = 0 } };

    ghost Says = { λ pod node verdict. ⊤ };
}

/// An empty history, before it has a name.
pub struct Blank {
    head: Word<Asked, u64, HistoryRule>,
    seen: Seen<Asked, u64, HistoryRule>,
    pub ghost empty: { seen.log ≡ [] },
    pub ghost head_is: { head ≡ head_of seen.book },
}

// By hand, as what is asked.
impl Drop for Blank {
    fn drop(self) {
        let Self {
            head: _head,
            seen: _seen,
        } = self;
    }
}

impl Blank {
    /// An empty history.
    pub fn new() -> Blank {
        let (seen, mut first, _second) = Seen::open(Start::alone(), 0, 0);
        Blank {
            head: Word::tracked(0, &mut first),
            seen,
        }
    }

    /// The history under a name.
    pub fn named<J: Site>(self) -> History<J>
        requires { self.seen.book ≡ J.book }
    {
        let Blank { head, seen } = self;
        History {
            head,
            seen,
            count: 0,
            of: PhantomData,
        }
    }
}

/// All that a pool was asked, and how much that is.
pub struct History<J: Site> {
    head: Word<Asked, u64, HistoryRule>,
    seen: Seen<Asked, u64, HistoryRule>,
    count: u64,
    of: PhantomData<J>,
    ghost head_is: { head ≡ head_of J.book },
    ghost seen_is: { seen.book ≡ J.book },
    ghost counted: { count ≡ length seen.log },
}

// By hand, as what is asked.
impl<J: Site> Drop for History<J> {
    fn drop(self) {
        let Self {
            head: _head,
            seen: _seen,
            count: _,
            of: _,
        } = self;
    }
}

/// What a pool was asked, with its number among all that it was asked: no two have one number.
/// Contracts see what was asked.
pub struct Order<J: Site> {
    asked: Asked,
    number: u64,
    seen: Seen<Asked, u64, HistoryRule>,
    of: PhantomData<J>,
}

// By hand, as what is asked.
impl<J: Site> Drop for Order<J> {
    fn drop(self) {
        let Self {
            asked: _asked,
            number: _,
            seen: _seen,
            of: _,
        } = self;
    }
}

impl<J: Site> Model for Order<J> {
    ghost use Rattle.std.specs.Prelude.{◌≡◌, Some, slice_get};
    ghost use Rattle.pieces.specs.declared.asked.Asked.{Asked};

    ghost Value = { Asked };

    ghost view = { λ o. o.asked };

    ghost invariant = { λ o. (o.seen.book ≡ J.book) × (slice_get o.seen.log o.number ≡ Some o.asked) };
}

impl<J: Site> History<J> {
    /// Gives what is asked the next number, if there is one left.
    pub fn add(&mut self, asked: Asked) -> Result<Order<J>, Asked>
        ensures added { IfOk result (λ order. order ≡ asked) }
        ensures full { IfErr result (λ back. back ≡ asked) }
    {
        let count = self.count;
        if count >= 1 << 62 {
            return Err(asked);
        }
        let mut seen = self.seen.again();
        let mut offer: Offer<Asked, u64, HistoryRule, Nothing> = seen.plain::<Nothing, Asked, Adds>(
            &asked,
        );
        let mut pen = seen.no_pen();
        let found = self
            .head
            .compare_exchange::<Adds, Nothing>(count, count + 1, &mut seen, &mut offer, &mut pen);
        if found != count {
            return Err(asked);
        }
        let order = Order {
            asked,
            number: count,
            seen: seen.again(),
            of: PhantomData,
        };
        self.seen = seen;
        self.count = count + 1;
        Ok(order)
    }
}

impl<J: Site> Order<J> {
    /// What was asked.
    pub fn asked(&self) -> &Asked
        ensures { result.now ≡ self.now }
    {
        &self.asked
    }

    /// The place at which a piece of the nodes begins.
    #[tactic(auto, using(crate::proofs::Seen::as_many))]
    pub fn begin(&self, piece: usize) -> usize
        requires some { 0 < self.now.pieces }
        requires few { self.now.pieces ≤ 64 }
        requires there { piece ≤ self.now.pieces }
        ensures place { result ≡ begins (length self.now.snapshot) self.now.pieces piece }
        ensures within { result ≤ length self.now.snapshot }
    {
        begin(self.asked.snapshot.rows().len(), self.asked.pieces, piece)
    }

    /// Whether both are the same.
    #[tactic(auto, using(crate::proofs::Asking::one_stands))]
    pub fn is(&self, other: &Order<J>) -> bool
        ensures { IsTrue result → other.now ≡ self.now }
    {
        let mut both = self.seen.again();
        both.learn(&other.seen);
        self.number == other.number
    }
}
