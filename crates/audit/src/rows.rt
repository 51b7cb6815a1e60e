//! A look compared with a book, row by row.
ghost use Rattle.std.specs.Prelude.{◌≡◌, ◌↔◌, IfOk, All};
ghost use Rattle.std.specs.Bool.{IsTrue};
ghost use Rattle.audit.specs.Audit.{ShowsSums};
ghost use Rattle.audit.specs.inside.Audit.{total_in};

use crate::pieces::{is_used, sum_pieces};
use crate::sums::Sums;
use book::Book;
use desk::{NoMemory, Row, Snapshot};
use std::alloc::Global;
use std::thread::Threads;

// Whether each row shows as used what the pieces have for its node.
fn are_used(rows: &[Row], pieces: &[Sums]) -> bool
    ensures { IsTrue result ↔ All (λ row. row.used ≡ total_in pieces.now row.node.name) rows.now }
{
    rows.iter()
        .all(|row| is_used(&row.used, pieces, &row.node.name))
}

/// Whether each row of a look shows as used just what the places of a book on its node's name add
/// up to. What the book keeps of it isn't asked: the places are summed anew, each once, in pieces
/// of which several threads take one at a time, and then each row is compared. Its time grows with
/// the places and with the rows, and not with their product.
///
/// Errors: `NoMemory` where there is no memory for the sums.
pub fn audit<R: Threads + Sync>(
    rt: &R,
    alloc: Global,
    snapshot: &Snapshot,
    book: &Book,
) -> Result<bool, NoMemory>
    ensures { IfOk result (λ answer. IsTrue answer ↔ ShowsSums snapshot.now book.now.places) }
{
    let pieces = sum_pieces(rt, alloc, book.places())?;
    Ok(are_used(snapshot.rows(), &pieces))
}
