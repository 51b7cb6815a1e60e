//! What a call changes of the rows that are published.
ghost use Rattle.std.specs.Prelude.{◌≡◌};
ghost use Rattle.desk.specs.inside.Board.{totals_of};

use quant::{Res, SharedNode};

/// What is used of a row's node from now on.
#[derive(Clone, Copy)]
pub struct Total {
    /// The row.
    pub at: usize,
    /// What the pods on its node use together.
    pub used: Res,
}

/// What is used of at most two rows' nodes from now on, in this order.
#[derive(Clone, Copy)]
pub struct Totals {
    pub first: Option<Total>,
    pub second: Option<Total>,
}

/// A change of the rows. What it changes is told by places among them, so that it costs the same
/// however many there are, but for rows that come or go and for places that expire.
#[derive(Drop)]
pub enum Change {
    /// None.
    Nothing,
    /// What is used of at most two nodes.
    Used(Option<Total>, Option<Total>),
    /// What is used of each node.
    AllUsed(Vec<Res>),
    /// A node's row is this one.
    Set(usize, SharedNode),
    /// A node comes, of which so much is used.
    Come(usize, Res, SharedNode),
    /// A node goes.
    Gone(usize),
}

impl Change {
    /// What it writes, where that is no more than what is used of two nodes.
    pub(crate) fn totals(&self) -> Option<Totals>
        ensures { result ≡ totals_of self.now }
    {
        match self {
            Change::Nothing => Some(Totals {
                first: None,
                second: None,
            }),
            Change::Used(first, second) => Some(Totals {
                first: *first,
                second: *second,
            }),
            _ => None,
        }
    }
}
