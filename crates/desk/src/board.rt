//! What looks read of a desk, and what a call changes of it.
ghost use Rattle.std.specs.Prelude.{◌≡◌, ◌<◌, ℕ, [], IfOk, IfSome, OnOk, OnErr, map, replicate, slice_index, slice_set, length};
ghost use Rattle.std.specs.Arc.{arc_value};
ghost use Rattle.std.specs.Bool.{IsTrue};
ghost use Rattle.desk.specs.inside.Board.{nodes_after, used_after, board_after, rows_shown, with_total};
ghost use Rattle.desk.specs.inside.Caller.{HasNoCalls};
ghost use Rattle.desk.specs.inside.NodeCalls.{nodes_of};
ghost use Rattle.desk.specs.Shown.{shown};
ghost use Rattle.desk.specs.declared.limits.TheConstants.{MAX_PASSES};

use crate::change::{Change, Total, Totals};
use crate::history::Prefix;
use crate::kept::Kept;
use crate::limits::MAX_PASSES;
use crate::snapshot::Row;
use book::{Limits, NoMemory};
use left_right::Absorb;
use quant::{Res, SharedNode};
use std::alloc::{AllocError, Global};
use std::marker::Model;
use std::sync::Arc;

/// A call that is to be published: what it changes, how many calls of its pass were then answered,
/// and the history with it.
pub struct Order {
    pub(crate) change: Change,
    pub(crate) pass: usize,
    pub(crate) calls: u64,
    pub(crate) prefix: Prefix,
}

/// What looks read: the nodes with what is used of each, how many calls of each pass were answered,
/// and the history that left it so.
pub struct Board {
    alloc: Global,
    nodes: Vec<SharedNode>,
    // What is used of each, in the same order.
    used: Vec<Res>,
    room: usize,
    calls: [u64; MAX_PASSES],
    pub(crate) prefix: Prefix,
}

impl Model for Board {
    ghost use Rattle.desk.specs.inside.Board.{Board as Published};
    ghost use Rattle.desk.specs.inside.BoardCodes.{board_code};

    ghost Value = { Published };

    ghost coded = { board_code };

    ghost use Rattle.std.specs.Prelude.{◌≡◌, ◌≤◌, vec_len, vec_capacity, length};
    ghost use Rattle.desk.specs.declared.limits.TheConstants.{MAX_PASSES};

    ghost view = { λ b. record { nodes = b.nodes.items; used = b.used.items; room = b.room; calls = b.calls; prefix = b.prefix } };

    ghost invariant = { λ b. (vec_len b.used ≡ vec_len b.nodes) × (b.room ≤ vec_capacity b.nodes) × (b.room ≤ vec_capacity b.used) × (length b.calls ≡ MAX_PASSES) };
}

impl Board {
    /// No nodes, with room for as many as the limits say, and no calls.
    pub(crate) fn new(alloc: Global, limits: Limits, nothing: &Prefix) -> Result<Self, NoMemory>
        ensures { IfOk result (λ b. b ≡ record {
          nodes = [];
          used = [];
          room = limits.nodes;
          calls = replicate MAX_PASSES 0;
          prefix = nothing.now;
        }) }
    {
        let Ok(nodes) = Vec::with_capacity(alloc, limits.nodes) else {
            return Err(NoMemory);
        };
        let Ok(used) = Vec::with_capacity(alloc, limits.nodes) else {
            return Err(NoMemory);
        };
        Ok(Board {
            alloc,
            nodes,
            used,
            room: limits.nodes,
            calls: [0; MAX_PASSES],
            prefix: nothing.again(),
        })
    }

    // So much is used of a row's node.
    fn write(&mut self, total: Option<Total>)
        ensures { self.new ≡ record self.old { used = with_total total self.old.used } }
    {
        if let Some(Total { at, used }) = total {
            if at < self.used.len() {
                self.used[at] = used;
            }
        }
    }

    // So much is used of each row's node.
    #[tactic(auto, unfolding(crate::specs::inside::Board::nodes_after, crate::specs::inside::Board::used_after))]
    fn write_all(&mut self, all: &Vec<Res>)
        ensures { self.new ≡ record self.old {
          used = used_after self.old.room (Change.AllUsed all.now)
              self.old.used;
        } }
    {
        if all.len() == self.used.len() {
            self.used.as_mut_slice().copy_from_slice(all.as_slice());
        }
    }

    // A node's row is this one.
    fn set(&mut self, at: usize, node: &SharedNode) -> Result<(), AllocError>
        ensures set { OnOk result (self.new ≡ record self.old { nodes = slice_set self.old.nodes at node.now }) }
        ensures err { OnErr result (self.new ≡ self.old) }
    {
        let Ok(node) = node.share() else {
            return Err(AllocError);
        };
        if at < self.nodes.len() {
            self.nodes[at] = node;
        }
        Ok(())
    }

    // A node comes, of which so much is used.
    #[tactic(auto, unfolding(crate::specs::inside::Board::nodes_after, crate::specs::inside::Board::used_after))]
    fn take_in(&mut self, at: usize, used: Res, node: &SharedNode) -> Result<(), AllocError>
        ensures nodes { OnOk result (self.new ≡ record self.old {
          nodes = nodes_after self.old.room (Change.Come at used node.now) self.old.nodes;
          used = used_after self.old.room (Change.Come at used node.now) self.old.used;
        }) }
        ensures err { OnErr result (self.new ≡ self.old) }
    {
        let Ok(node) = node.share() else {
            return Err(AllocError);
        };
        if at <= self.nodes.len() && self.nodes.len() < self.room {
            self.nodes.insert(at, node).unwrap();
            self.used.insert(at, used).unwrap();
        }
        Ok(())
    }

    // A node goes.
    #[tactic(auto, unfolding(crate::specs::inside::Board::nodes_after, crate::specs::inside::Board::used_after))]
    fn leave_out(&mut self, at: usize)
        ensures { self.new ≡ record self.old {
          nodes = nodes_after self.old.room (Change.Gone at) self.old.nodes;
          used = used_after self.old.room (Change.Gone at) self.old.used;
        } }
    {
        if at < self.nodes.len() {
            self.nodes.remove(at);
            self.used.remove(at);
        }
    }

    // Changes the rows. It takes no memory.
    #[tactic(auto, unfolding(crate::specs::inside::Board::nodes_after, crate::specs::inside::Board::used_after))]
    fn change(&mut self, change: &Change) -> Result<(), AllocError>
        ensures changed { OnOk result (self.new ≡ record self.old {
          nodes = nodes_after self.old.room change.now self.old.nodes;
          used = used_after self.old.room change.now self.old.used;
        }) }
        ensures err { OnErr result (self.new ≡ self.old) }
    {
        match change {
            Change::Nothing => {}
            Change::Used(first, second) => {
                self.write(*first);
                self.write(*second);
            }
            Change::AllUsed(all) => self.write_all(all),
            Change::Set(at, node) => return self.set(*at, node),
            Change::Come(at, used, node) => return self.take_in(*at, *used, node),
            Change::Gone(at) => self.leave_out(*at),
        }
        Ok(())
    }

    // So many calls of a pass were answered, and this is the history.
    fn count(&mut self, pass: usize, calls: u64, prefix: Prefix)
        ensures { self.new ≡ record self.old { calls = slice_set self.old.calls pass calls; prefix = prefix } }
    {
        if pass < MAX_PASSES {
            self.calls[pass] = calls;
        }
        self.prefix = prefix;
    }

    /// How many calls of a pass were answered.
    pub(crate) fn calls_of(&self, pass: usize) -> u64
        requires { pass < MAX_PASSES }
        ensures { result ≡ slice_index self.now.calls pass }
    {
        self.calls[pass]
    }

    /// Whether so many calls of this pass were answered, and none of the passes from this number
    /// on.
    pub(crate) fn counts_alike(&self, pass: usize, calls: u64, handed: usize) -> bool
        requires { pass < MAX_PASSES }
        ensures calls { IsTrue result → slice_index self.now.calls pass ≡ calls }
        ensures handed { IsTrue result → HasNoCalls handed self.now.calls }
    {
        self.calls[pass] == calls && has_none_from(&self.calls, handed)
    }

    /// The rows of the nodes, with what is used of each: these, or else new ones.
    pub(crate) fn show(&self, before: Option<Vec<Row>>) -> Result<Arc<Vec<Row>>, NoMemory>
        requires { IfSome before (λ rows. map shown rows.items ≡ rows_shown self.now) }
        ensures { IfOk result (λ rows. map shown (arc_value rows).items ≡ rows_shown self.now) }
    {
        let Ok(rows) = self.rows_now(before) else {
            return Err(NoMemory);
        };
        match Arc::new(self.alloc, rows) {
            Ok(shared) => Ok(shared),
            Err(_) => Err(NoMemory),
        }
    }

    fn rows_now(&self, before: Option<Vec<Row>>) -> Result<Vec<Row>, NoMemory>
        requires { IfSome before (λ rows. map shown rows.items ≡ rows_shown self.now) }
        ensures { IfOk result (λ rows. map shown rows.items ≡ rows_shown self.now) }
    {
        match before {
            Some(rows) => Ok(rows),
            None => self.show_anew(),
        }
    }

    /// Nothing is kept yet.
    pub(crate) fn no_kept(&self) -> Kept
        ensures { result.classes.items ≡ [] }
    {
        Kept::new(self.alloc)
    }

    /// No totals yet.
    pub(crate) fn no_totals(&self) -> Vec<Totals>
        ensures { result.items ≡ [] }
    {
        Vec::new(self.alloc)
    }

    /// What is used of each row's node.
    pub(crate) fn used(&self) -> &[Res]
        ensures { result.now ≡ self.now.used }
    {
        &self.used
    }

    // Rows of all nodes, each of which has an owner more then.
    fn show_anew(&self) -> Result<Vec<Row>, NoMemory>
        ensures { IfOk result (λ rows. map shown rows.items ≡ rows_shown self.now) }
    {
        let Ok(mut rows) = Vec::with_capacity(self.alloc, self.nodes.len()) else {
            return Err(NoMemory);
        };
        for (at, node) in self.nodes.iter().enumerate() {
            let used = self.used[at];
            let Ok(node) = node.share() else {
                return Err(NoMemory);
            };
            let Ok(()) = rows.push(Row::new(node, used)) else {
                return Err(NoMemory);
            };
        }
        Ok(rows)
    }
}

// By hand, so that who drops a board calls this, and its parts' drops are proved here alone.
impl Drop for Board {
    fn drop(self) {
        let Self {
            alloc: _,
            nodes: _nodes,
            used: _used,
            room: _,
            calls: _,
            prefix: _prefix,
        } = self;
    }
}

// By hand too, as the board's.
impl Drop for Order {
    fn drop(self) {
        let Self {
            change: _change,
            pass: _,
            calls: _,
            prefix: _prefix,
        } = self;
    }
}

impl Absorb<Order> for Board {
    type State = Board;

    ghost state = { λ x. x };

    ghost applied = { board_after };

    fn absorb_first(&mut self, order: &Order, _other: &Board) -> Result<(), AllocError> {
        let Ok(()) = self.change(&order.change) else {
            return Err(AllocError);
        };
        self.count(order.pass, order.calls, order.prefix.again());
        Ok(())
    }
}

// Whether no call of the passes from this number on was answered.
fn has_none_from(calls: &[u64; MAX_PASSES], handed: usize) -> bool
    ensures { IsTrue result → HasNoCalls handed calls.now }
{
    for pass in handed..MAX_PASSES {
        if calls[pass] != 0 {
            return false;
        }
    }
    true
}
