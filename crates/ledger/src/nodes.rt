//! What is told of nodes.
ghost use Rattle.std.specs.Prelude.{◌≡◌};
ghost use Rattle.ledger.specs.Telling.{became, node_told, node_new, node_gone};

use crate::event::Answer;
use crate::known::Seen;
use crate::ledger::Ledger;
use crate::tables::{is_full_for, next_version, put, take};
use quant::{Event as Change, Name, SharedNode, Version};

impl Ledger {
    /// A node is there, with this row.
    pub(crate) fn node(&mut self, version: Version, node: SharedNode) -> Answer
        ensures { became result self.new ≡ node_told self.old version node }
    {
        let name = node.name.copied();
        if let Some(seen) = self.nodes.get(&name).copied() {
            if version <= seen.version {
                let list = self.of_nodes.lists;
                put(&mut self.nodes, name, Seen { list, ..seen });
                return Answer::Old;
            }
        }
        self.node_new(version, name, node)
    }

    // A node's row is new.
    fn node_new(&mut self, version: Version, name: Name, node: SharedNode) -> Answer
        requires { name ≡ node.name }
        ensures { became result self.new ≡ node_new self.old version node }
    {
        if is_full_for(&self.nodes, &name) {
            return Answer::Full;
        }
        let change = Change::NodeSet {
            version: next_version(&self.book),
            node,
        };
        if !take(&mut self.book, change) {
            return Answer::Full;
        }
        let list = self.of_nodes.lists;
        put(&mut self.nodes, name, Seen { version, list });
        Answer::Told
    }

    /// A node is gone.
    pub(crate) fn node_gone(&mut self, name: Name) -> Answer
        ensures { became result self.new ≡ node_gone self.old name }
    {
        if self.nodes.find(&name).is_none() {
            return Answer::Old;
        }
        let change = Change::NodeGone {
            version: next_version(&self.book),
            name: name.copied(),
        };
        if !take(&mut self.book, change) {
            return Answer::Full;
        }
        self.nodes.remove(&name);
        Answer::Told
    }
}
