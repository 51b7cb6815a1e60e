//! The ledger.
ghost use Rattle.std.specs.Prelude.{◌≡◌, ◌≤◌, true, IfOk};
ghost use Rattle.book.specs.Used.{used};
ghost use Rattle.ledger.specs.declared.event.Answer.TheVariants as answer;
ghost use Rattle.ledger.specs.State.{opening};
ghost use Rattle.ledger.specs.Telling.{became};
ghost use Rattle.ledger.specs.Told.{IsTold};

use crate::event::{Answer, Event};
use crate::known::{Heard, Known, LeftOut, Seen};
use book::{Book, Limits, NoMemory};
use name_table::NameTable;
use quant::{Name, Res};
use std::alloc::Global;
use std::hash::RandomState;
use std::marker::Model;

// Nothing was heard.
const UNHEARD: Heard = Heard {
    lists: 0,
    listing: false,
    fresh: false,
    listed: false,
    hears: false,
};

/// What was told of a cluster, and the binds whose end isn't known.
pub struct Ledger {
    pub(crate) book: Book,
    pub(crate) pods: NameTable<Known>,
    pub(crate) nodes: NameTable<Seen>,
    pub(crate) of_nodes: Heard,
    pub(crate) of_pods: Heard,
    pub(crate) rested: bool,
    pub(crate) left_out: LeftOut,
}

impl Model for Ledger {
    ghost use Rattle.ledger.specs.State.{State};

    ghost Value = { State };

    ghost use Rattle.ledger.specs.inside.Codes.{state_code};

    ghost coded = { state_code };

    ghost use Rattle.std.specs.Prelude.{◌≡◌, ◌≤◌, length};
    ghost use Rattle.name_table.specs.Slots.{map_of};

    ghost view = { λ l. record { cluster = l.book; room = length l.pods; pods = map_of l.pods; nodes = map_of l.nodes; of_nodes = l.of_nodes; of_pods = l.of_pods; rested = l.rested; left_out = l.left_out } };

    ghost invariant = { λ l. (length l.nodes ≡ l.book.limits.nodes) × (length l.pods ≤ 1000000) };
}

impl Ledger {
    /// A ledger to which nothing was told, with room for as many nodes and pods on nodes as the
    /// limits say, and for so many pods in all. It is the one call of a ledger that takes memory.
    ///
    /// Errors: `NoMemory`.
    pub fn new(
        alloc: Global,
        keys: RandomState,
        limits: Limits,
        room: usize,
    ) -> Result<Self, NoMemory>
        requires { room ≤ 1000000 }
        ensures { IfOk result (λ ledger. ledger ≡ opening limits room) }
    {
        let Ok(nodes) = NameTable::new(alloc, keys, limits.nodes) else {
            return Err(NoMemory);
        };
        let Ok(pods) = NameTable::new(alloc, keys, room) else {
            return Err(NoMemory);
        };
        let Ok(book) = Book::new(alloc, keys, limits) else {
            return Err(NoMemory);
        };
        Ok(Ledger {
            book,
            pods,
            nodes,
            of_nodes: UNHEARD,
            of_pods: UNHEARD,
            rested: false,
            left_out: LeftOut {
                any: false,
                list: 0,
            },
        })
    }

    /// Takes what is told, or answers what is asked. Neither takes memory.
    pub fn tell(&mut self, event: Event) -> Answer
        ensures { IsTold self.old event result self.new }
    {
        match event {
            Event::ListBegins(kind) => self.list_begins(kind),
            Event::ListEnds(kind) => self.list_ends(kind),
            Event::Deaf(kind) => self.deaf(kind),
            Event::Hears(kind) => self.hears(kind),
            Event::Node { version, node } => self.node(version, node),
            Event::NodeGone { name } => self.node_gone(name),
            Event::Waits {
                version,
                uid,
                request,
            } => self.waits(version, uid, request),
            Event::Withheld { version, uid } => self.withheld(version, uid),
            Event::Stands {
                version,
                uid,
                node,
                request,
            } => self.stands(version, uid, node, request),
            Event::Unread => self.fall_short(),
            Event::Gone { uid } => self.gone(uid),
            Event::Rested => self.rest(),
            Event::Bind { uid, node } => self.bind(uid, node),
            Event::Answered {
                uid,
                ticket,
                outcome,
            } => self.answered(uid, ticket, outcome),
            Event::Read { uid, ticket, said } => self.read(uid, ticket, said),
        }
    }

    // Nothing is on its way from before.
    fn rest(&mut self) -> Answer
        ensures { became result self.new ≡ became answer.Told (record self.old { rested = true }) }
    {
        self.rested = true;
        Answer::Told
    }

    /// What counts on a node: what all pods there take, and what those ask for that may be bound
    /// there yet.
    pub fn used(&self, node: &Name) -> Res
        ensures { result ≡ used self.now.cluster.places node.now }
    {
        self.book.used(node)
    }
}

// By hand, so that who drops a ledger calls this, and its parts' drops are proved here alone.
impl Drop for Ledger {
    fn drop(self) {
        let Self {
            book: _book,
            pods: _pods,
            nodes: _nodes,
            of_nodes: _,
            of_pods: _,
            rested: _,
            left_out: _,
        } = self;
    }
}
