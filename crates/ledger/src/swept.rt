//! What a list didn't name goes.
ghost use Rattle.std.specs.Prelude.{◌≡◌, ◌≢◌, ◌+◌, ◌<◌, ◌≤◌, ℕ, List, None, Some, IfSome, IfNone, length, slice_set};
ghost use Rattle.std.specs.FinMap as fin;
ghost use Rattle.name_table.specs.Slots.{entry_in, map_of, NamesOnce};
ghost use Rattle.ledger.specs.Lists.{of_pods, of_nodes, IsSwept};
ghost use Rattle.ledger.specs.inside.Swept.{IsTakenOut, IsNamedIn, IsSlotSwept};

use crate::known::{Known, Seen, Stage};
use crate::tables::{take_place, take_row};
use book::Book;
use name_table::{Entry, NameTable};

// Takes a pod out of a slot, where it wasn't told since so many lists had begun.
fn take_unnamed_pod(pods: &mut NameTable<Known>, slot: usize, lists: u64) -> Option<Entry<Known>>
    ensures some { IfSome result (λ e. IsTakenOut of_pods lists slot e pods.old pods.new) }
    ensures unchanged { IfNone result (pods.new ≡ pods.old) }
    ensures named { IfNone result (IsNamedIn of_pods lists slot pods.old) }
    ensures room { length pods.new ≡ length pods.old }
    ensures once { NamesOnce pods.new }
{
    let _once = pods.len();
    let Some(Some(entry)) = pods.slots().get(slot) else {
        return None;
    };
    if entry.value.list == lists {
        return None;
    }
    Some(pods.remove_at(slot))
}

// Takes a pod out of a slot, and what counts for it, where it wasn't told since so many lists had
// begun.
fn sweep_pod_slot(book: &mut Book, pods: &mut NameTable<Known>, slot: usize, lists: u64)
    requires { book.old.version < 18446744073709551615 }
    ensures out { IsSlotSwept of_pods lists slot pods.old pods.new book.old book.new }
    ensures room { length pods.new ≡ length pods.old }
    ensures once { NamesOnce pods.new }
    ensures version { book.new.version ≤ book.old.version + 1 }
    ensures counted { book.new.version + fin.len book.new.places ≡ book.old.version + fin.len book.old.places }
{
    if let Some(entry) = take_unnamed_pod(pods, slot, lists) {
        if !matches!(entry.value.stage, Stage::Waits(_)) {
            take_place(book, entry.name);
        }
    }
}

/// Takes away each pod that wasn't told since so many lists had begun, and what counts for it.
pub(crate) fn sweep_pods(book: &mut Book, pods: &mut NameTable<Known>, lists: u64)
    requires { book.old.version + length pods.old < 18446744073709551615 }
    ensures swept { IsSwept of_pods lists (map_of pods.old) (map_of pods.new) book.old book.new }
    ensures room { length pods.new ≡ length pods.old }
{
    let _once = pods.len();
    for slot in 0..pods.room() {
        sweep_pod_slot(book, pods, slot, lists);
    }
}

// Takes a node out of a slot, where it wasn't told since so many lists had begun.
fn take_unnamed_node(nodes: &mut NameTable<Seen>, slot: usize, lists: u64) -> Option<Entry<Seen>>
    ensures some { IfSome result (λ e. IsTakenOut of_nodes lists slot e nodes.old nodes.new) }
    ensures unchanged { IfNone result (nodes.new ≡ nodes.old) }
    ensures named { IfNone result (IsNamedIn of_nodes lists slot nodes.old) }
    ensures room { length nodes.new ≡ length nodes.old }
    ensures once { NamesOnce nodes.new }
{
    let _once = nodes.len();
    let Some(Some(entry)) = nodes.slots().get(slot) else {
        return None;
    };
    if entry.value.list == lists {
        return None;
    }
    Some(nodes.remove_at(slot))
}

// Takes a node out of a slot, and its row, where it wasn't told since so many lists had
// begun.
fn sweep_node_slot(book: &mut Book, nodes: &mut NameTable<Seen>, slot: usize, lists: u64)
    requires { book.old.version < 18446744073709551615 }
    ensures out { IsSlotSwept of_nodes lists slot nodes.old nodes.new book.old book.new }
    ensures room { length nodes.new ≡ length nodes.old }
    ensures once { NamesOnce nodes.new }
    ensures version { book.new.version ≤ book.old.version + 1 }
    ensures counted { book.new.version + fin.len book.new.nodes ≡ book.old.version + fin.len book.old.nodes }
{
    if let Some(entry) = take_unnamed_node(nodes, slot, lists) {
        take_row(book, entry.name);
    }
}

/// Takes away each node that wasn't told since so many lists had begun, and its row.
pub(crate) fn sweep_nodes(book: &mut Book, nodes: &mut NameTable<Seen>, lists: u64)
    requires { book.old.version + length nodes.old < 18446744073709551615 }
    ensures swept { IsSwept of_nodes lists (map_of nodes.old) (map_of nodes.new) book.old book.new }
    ensures room { length nodes.new ≡ length nodes.old }
{
    let _once = nodes.len();
    for slot in 0..nodes.room() {
        sweep_node_slot(book, nodes, slot, lists);
    }
}
