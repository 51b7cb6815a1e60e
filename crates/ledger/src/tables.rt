//! What tables and the book have for a ledger.
ghost use Rattle.std.specs.Prelude.{◌≡◌, ◌+◌, ◌<◌, ◌≤◌, ℕ, List, not, false, length, None, Some, MatchResult, if◌then◌else◌};
ghost use Rattle.std.specs.Str.{bytes_eq};
ghost use Rattle.std.specs.FinMap as fin;
ghost use Rattle.name_table.specs.Slots.{map_of};
ghost use Rattle.book.specs.Step.{after, refusal, effect, next_ticket};
ghost use Rattle.book.specs.declared.step.ClusterStep.TheVariants as step;
ghost use Rattle.book.specs.declared.entry.Entry.TheVariants as entry;
ghost use Rattle.book.specs.Tables.{is_full_for};
ghost use Rattle.ledger.specs.Telling.{next_version, step_of, is_too_much};

use book::{Book, Entry, Refusal};
use name_table::NameTable;
use quant::{Event, Name, Request, Ticket, Version};

/// The version of the book's next change.
pub(crate) fn next_version(book: &Book) -> Version
    ensures { result ≡ next_version book.now }
{
    Version(book.version().0.saturating_add(1))
}

/// Has the book take a change, or tells that it has no room for it.
pub(crate) fn take(book: &mut Book, change: Event) -> bool
    ensures room { result ≡ not (is_too_much book.old change) }
    ensures after { book.new ≡ after book.old (step_of change) }
{
    book.take_event(change, false, false).is_ok()
}

/// Whether a name is new and the table has no room for it.
pub(crate) fn is_full_for<V: Drop>(table: &NameTable<V>, name: &Name) -> bool
    ensures { result ≡ is_full_for (map_of table.now) (length table.now) name.now }
{
    table.is_full() && table.find(name).is_none()
}

/// Gives a name a value, in place of the one that it may have.
pub(crate) fn put<V: Drop>(table: &mut NameTable<V>, name: Name, value: V)
    requires { is_full_for (map_of table.old) (length table.old) name ≡ false }
    ensures map { map_of table.new ≡ fin.insert (map_of table.old) name value }
    ensures room { length table.new ≡ length table.old }
{
    match table.find(&name) {
        Some(slot) => {
            table.replace_at(slot, value);
        }
        None => {
            table.insert(name, value);
        }
    }
}

/// Has the book place a pod that waits on a node, or tells why not.
pub(crate) fn assume(
    book: &mut Book,
    uid: Name,
    node: Name,
    request: Request,
) -> Result<Ticket, Refusal>
    ensures { MatchResult result
        (λ ticket. (refusal book.old (step.Assume uid node (entry.Held request)) ≡ None) ×
        (book.new ≡ effect book.old (step.Assume uid node (entry.Held request))) × (ticket ≡ next_ticket book.old))
        (λ why. (refusal book.old (step.Assume uid node (entry.Held request)) ≡ Some why) × (book.new ≡ book.old)) }
{
    book.assume(uid, node, Entry::Held(request))
}

/// Takes a pod's place away, if it has one.
#[tactic(auto, using(crate::proofs::Places::place_gone, crate::proofs::Places::place_counted))]
pub(crate) fn take_place(book: &mut Book, uid: Name)
    requires { book.old.version < 18446744073709551615 }
    ensures places { (other : List ℕ) → fin.get book.new.places other
        ≡ (if bytes_eq other uid then None else fin.get book.old.places other) }
    ensures rows { book.new.nodes ≡ book.old.nodes }
    ensures limits { book.new.limits ≡ book.old.limits }
    ensures ticket { book.new.ticket ≡ book.old.ticket }
    ensures version { book.new.version ≤ book.old.version + 1 }
    ensures counted { book.new.version + fin.len book.new.places ≡ book.old.version + fin.len book.old.places }
{
    let version = next_version(book);
    take(book, Event::PodGone { version, uid });
}

/// Takes a node's row away, if it is there.
#[tactic(auto, using(crate::proofs::Places::row_gone, crate::proofs::Places::row_counted))]
pub(crate) fn take_row(book: &mut Book, name: Name)
    requires { book.old.version < 18446744073709551615 }
    ensures rows { (other : List ℕ) → fin.get book.new.nodes other
        ≡ (if bytes_eq other name then None else fin.get book.old.nodes other) }
    ensures places { book.new.places ≡ book.old.places }
    ensures limits { book.new.limits ≡ book.old.limits }
    ensures ticket { book.new.ticket ≡ book.old.ticket }
    ensures version { book.new.version ≤ book.old.version + 1 }
    ensures counted { book.new.version + fin.len book.new.nodes ≡ book.old.version + fin.len book.old.nodes }
{
    let version = next_version(book);
    take(book, Event::NodeGone { version, name });
}
