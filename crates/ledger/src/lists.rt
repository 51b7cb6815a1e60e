//! What is heard of nodes and pods, and what ends with a list.
ghost use Rattle.std.specs.Prelude.{◌≡◌};
ghost use Rattle.ledger.specs.declared.event.Kind.TheVariants as kind;
ghost use Rattle.ledger.specs.Hearing.{heard, with_heard, is_at_rest, list_begins, deaf, hears, ended, IsListEnd};
ghost use Rattle.ledger.specs.Telling.{became};

use crate::event::{Answer, Kind};
use crate::known::Heard;
use crate::ledger::Ledger;
use crate::swept::{sweep_nodes, sweep_pods};

// The greatest version of the book at which a list may end: what it takes away is a change of the
// book each, and there are fewer objects than this leaves.
const LAST_SWEEP: u64 = u64::MAX - 2_000_000;

impl Heard {
    // A list ended.
    fn end(&mut self)
        ensures { self.new ≡ ended self.old }
    {
        self.listing = false;
        self.listed = self.listed || self.fresh;
        self.hears = true;
    }
}

impl Ledger {
    // What is heard of a kind.
    fn heard(&self, kind: Kind) -> Heard
        ensures { result ≡ heard self.now kind }
    {
        match kind {
            Kind::Nodes => self.of_nodes,
            Kind::Pods => self.of_pods,
        }
    }

    // Something else is heard of a kind.
    fn set_heard(&mut self, kind: Kind, heard: Heard)
        ensures { self.new ≡ with_heard self.old kind heard }
    {
        match kind {
            Kind::Nodes => self.of_nodes = heard,
            Kind::Pods => self.of_pods = heard,
        }
    }

    /// A list of all objects of a kind begins.
    pub(crate) fn list_begins(&mut self, kind: Kind) -> Answer
        ensures { became result self.new ≡ list_begins self.old kind }
    {
        let heard = self.heard(kind);
        if heard.lists == u64::MAX {
            return Answer::Full;
        }
        let begun = Heard {
            lists: heard.lists + 1,
            listing: true,
            fresh: self.is_at_rest(kind),
            ..heard
        };
        self.set_heard(kind, begun);
        Answer::Told
    }

    // Whether a list of this kind that begins now shows all that was asked before the ledger was
    // made: nobody who binds pods changes nodes.
    fn is_at_rest(&self, kind: Kind) -> bool
        ensures { result ≡ is_at_rest self.now kind }
    {
        match kind {
            Kind::Nodes => true,
            Kind::Pods => self.rested,
        }
    }

    /// No watch of a kind is open.
    pub(crate) fn deaf(&mut self, kind: Kind) -> Answer
        ensures { became result self.new ≡ deaf self.old kind }
    {
        let heard = self.heard(kind);
        self.set_heard(
            kind,
            Heard {
                hears: false,
                ..heard
            },
        );
        Answer::Told
    }

    /// A watch of a kind is open.
    pub(crate) fn hears(&mut self, kind: Kind) -> Answer
        ensures { became result self.new ≡ hears self.old kind }
    {
        let heard = self.heard(kind);
        self.set_heard(
            kind,
            Heard {
                hears: true,
                ..heard
            },
        );
        Answer::Told
    }

    /// A list ended.
    pub(crate) fn list_ends(&mut self, kind: Kind) -> Answer
        ensures { IsListEnd kind self.old result self.new }
    {
        match kind {
            Kind::Nodes => self.nodes_end(),
            Kind::Pods => self.pods_end(),
        }
    }

    // A list of nodes ended.
    fn nodes_end(&mut self) -> Answer
        ensures { IsListEnd kind.Nodes self.old result self.new }
    {
        if !self.of_nodes.listing {
            return Answer::Old;
        }
        if self.book.version().0 > LAST_SWEEP {
            return Answer::Full;
        }
        sweep_nodes(&mut self.book, &mut self.nodes, self.of_nodes.lists);
        self.of_nodes.end();
        Answer::Told
    }

    // A list of pods ended.
    fn pods_end(&mut self) -> Answer
        ensures { IsListEnd kind.Pods self.old result self.new }
    {
        if !self.of_pods.listing {
            return Answer::Old;
        }
        if self.book.version().0 > LAST_SWEEP {
            return Answer::Full;
        }
        sweep_pods(&mut self.book, &mut self.pods, self.of_pods.lists);
        self.of_pods.end();
        let again = !self.of_pods.fresh || self.left_out.list == self.of_pods.lists;
        self.left_out.any = self.left_out.any && again;
        Answer::Told
    }
}
