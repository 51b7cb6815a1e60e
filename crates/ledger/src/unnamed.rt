//! What a list didn't name.
ghost use Rattle.std.specs.Prelude.{◌≡◌, IfOk};
ghost use Rattle.name_table.specs.Slots.{map_of};
ghost use Rattle.ledger.specs.Hearing.{unnamed};
ghost use Rattle.ledger.specs.Lists.{unnamed_in};

use crate::event::Kind;
use crate::known::Listed;
use crate::ledger::Ledger;
use book::NoMemory;
use name_table::NameTable;
use quant::Name;
use std::alloc::Global;

impl Ledger {
    /// The names of the objects of a kind that weren't told since its last list began, in the order
    /// of their bytes: the uids of pods, or the nodes' names. They go where the list ends now.
    ///
    /// Errors: `NoMemory`.
    pub fn unnamed(&self, alloc: Global, kind: Kind) -> Result<Vec<Name>, NoMemory>
        ensures { IfOk result (λ names. names.items ≡ unnamed self.now kind) }
    {
        match kind {
            Kind::Nodes => unnamed_in(alloc, &self.nodes, self.of_nodes.lists),
            Kind::Pods => unnamed_in(alloc, &self.pods, self.of_pods.lists),
        }
    }
}

// The names of those that weren't told since so many lists had begun.
fn unnamed_in<V: Listed>(
    alloc: Global,
    table: &NameTable<V>,
    lists: u64,
) -> Result<Vec<Name>, NoMemory>
    ensures { IfOk result (λ names. names.items ≡ unnamed_in V.list lists (map_of table.now)) }
{
    let _once = table.len();
    let mut names = Vec::new(alloc);
    for slot in table.slots() {
        let Some(entry) = slot else {
            continue;
        };
        if entry.value.list() != lists {
            let Ok(()) = names.push(entry.name.copied()) else {
                return Err(NoMemory);
            };
        }
    }
    names.sort_unstable();
    Ok(names)
}
