//! Leave to use a desk.
ghost use Rattle.std.specs.Prelude.{◌≡◌, ◌<◌, ◌≤◌, ◌+◌, ◌^◌, [], IfOk, IfSome, OnErr, fold, length, map};
ghost use Rattle.std.specs.Arc.{arc_value};
ghost use Rattle.std.specs.Bool.{IsTrue};
ghost use Rattle.desk.specs.History.{HasCallsOf};
ghost use Rattle.desk.specs.inside.Kept.{AreKept};
ghost use Rattle.desk.specs.inside.LastLook.{Changed, IsWritten, WereShown, uses_of};
ghost use Rattle.desk.specs.inside.NodeCalls.{nodes_of};
ghost use Rattle.desk.specs.inside.Board.{IsBoard, rows_shown, with_total, with_totals};
ghost use Rattle.desk.specs.Shared.{IsAhead, IsLooked};
ghost use Rattle.desk.specs.Shown.{shown};
ghost use Rattle.desk.specs.declared.limits.TheConstants.{MAX_PASSES};

use crate::board::Board;
use crate::board_rule::{BoardRule, Sees};
use crate::change::{Total, Totals};
use crate::class::{Class, renew_all};
use crate::history::{Naming, Prefix};
use crate::kept::Kept;
use crate::snapshot::{Row, Snapshot};
use book::NoMemory;
use left_right::reader::Reader;
use quant::{Request, Res};
use std::marker::Model;
use std::sync::Arc;

/// A caller's leave to use a desk, from one thread at a time: its number among the desk's passes,
/// and how many of its calls were answered. Contracts see the history that it has seen too, of
/// which memory has the length.
pub struct Pass<J: Naming> {
    number: usize,
    calls: u64,
    prefix: Prefix,
    // It is there between calls.
    reader: Option<Reader<Board, (), BoardRule<J>>>,
    last: Option<Last>,
}

// So many calls of a pass's own are noted between two looks. Where there are more, the next look
// copies what is used of all nodes.
const MAX_SINCE: usize = 64;

/// What a pass showed last: the rows of the nodes, what calls since then changed of what is used,
/// where no other were made, and the history with these.
#[derive(Drop)]
pub(crate) struct Last {
    pub(crate) prefix: Prefix,
    pub(crate) rows: Arc<Vec<Row>>,
    pub(crate) since: Vec<Totals>,
    // What these rows are worth.
    pub(crate) kept: Kept,
}

// The rows as they are now, if they needn't be made anew, and what they are worth.
struct Before {
    rows: Option<Vec<Row>>,
    kept: Kept,
}

impl<J: Naming> Model for Pass<J> {
    ghost use Rattle.std.specs.Prelude.{◌≡◌, IfSome, map};
    ghost use Rattle.std.specs.Arc.{arc_value};
    ghost use Rattle.desk.specs.Shown.{shown};
    ghost use Rattle.desk.specs.History.{HasCallsOf};
    ghost use Rattle.desk.specs.inside.Kept.{AreKept};
    ghost use Rattle.desk.specs.inside.LastLook.{WereShown};
    ghost use Rattle.desk.specs.Shared.{Pass as Seeing};
    ghost use Rattle.desk.specs.inside.SharedCodes.{pass_code};

    ghost Value = { Seeing };

    ghost coded = { pass_code };

    ghost view = { λ p. record { caller = record { number = p.number; calls = p.calls }; seen = p.prefix.list } };

    ghost invariant = { λ p. HasCallsOf (record { number = p.number; calls = p.calls }) p.prefix.list × (p.prefix.book ≡ J.book)
        × IfSome p.last (λ last. WereShown J.book J.limits last.prefix (arc_value last.rows).items last.since.items
        × AreKept (map shown (arc_value last.rows).items) last.kept.classes.items) };
}

impl<J: Naming> Pass<J> {
    // A pass that has made no call and seen nothing.
    pub(crate) fn new(
        number: usize,
        nothing: Prefix,
        reader: Reader<Board, (), BoardRule<J>>,
    ) -> Self
        requires { nothing ≡ record { book = J.book; list = [] } }
        ensures { result ≡ record { caller = record { number = number; calls = 0 }; seen = [] } }
    {
        Pass {
            number,
            calls: 0,
            prefix: nothing,
            reader: Some(reader),
            last: None,
        }
    }

    pub(crate) fn number(&self) -> usize
        ensures { result ≡ self.now.caller.number }
    {
        self.number
    }

    pub(crate) fn calls(&self) -> u64
        ensures { result ≡ self.now.caller.calls }
    {
        self.calls
    }

    /// Whether the published history begins with what the pass has seen, has just the calls that it
    /// made, and none of a pass that wasn't handed out. It is always so; but what threads share
    /// tells a proof no more than its rule.
    pub(crate) fn may_go_on(&self, board: &Board, handed: usize) -> bool
        requires stands { IsBoard J.book J.limits board.now }
        requires of { self.now.caller.number < handed }
        requires handed { handed ≤ MAX_PASSES }
        ensures { IsTrue result → IsAhead (record { limits = J.limits; handed = handed }) self.now
            board.now.prefix.list }
    {
        self.prefix.begins(&board.prefix) && board.counts_alike(self.number, self.calls, handed)
    }

    /// It has seen this history from now on.
    pub(crate) fn see(&mut self, prefix: &Prefix)
        requires own { HasCallsOf self.old.caller prefix.now.list }
        requires book { prefix.now.book ≡ J.book }
        ensures { self.new ≡ record self.old { seen = prefix.now.list } }
    {
        self.prefix = prefix.again();
    }

    /// One more of its calls was answered, which this history ends with; before it there was this
    /// one, and if that is all, it changed these totals.
    pub(crate) fn count(&mut self, before: &Prefix, prefix: Prefix, totals: Option<Totals>)
        requires calls { self.old.caller.calls < 10 ^ 18 }
        requires before { before.now.book ≡ J.book }
        requires changed { IfSome totals (λ totals. Changed J.limits before.now.list totals prefix.list) }
        requires own { HasCallsOf (record self.old.caller { calls = self.old.caller.calls + 1 }) prefix.list }
        requires book { prefix.book ≡ J.book }
        ensures { self.new ≡ record {
          caller = record self.old.caller { calls = self.old.caller.calls + 1 };
          seen = prefix.list;
        } }
    {
        self.calls += 1;
        if let Some(last) = &mut self.last {
            note::<J>(last, before, &prefix, totals);
        }
        self.prefix = prefix;
    }

    /// Shows what is published, and has then seen its history. For a request it is sought what goes
    /// first.
    pub(crate) fn look(
        &mut self,
        handed: usize,
        request: Option<Request>,
    ) -> Result<Snapshot, NoMemory>
        requires of { self.old.caller.number < handed }
        requires handed { handed ≤ MAX_PASSES }
        ensures looked { IfOk result (λ shown. IsLooked (record { limits = J.limits; handed = handed }) self.old shown
            self.new) }
        ensures err { OnErr result (self.new ≡ self.old) }
    {
        let Some(reader) = self.reader.take() else {
            return Err(NoMemory);
        };
        match reader.enter_as::<Sees<J>>() {
            Err(reader) => {
                self.reader = Some(reader);
                Err(NoMemory)
            }
            Ok(reading) => {
                let shown = self.look_at(reading.get(), handed, request);
                self.reader = Some(reading.leave());
                shown
            }
        }
    }

    // Shows this, and has then seen its history.
    fn look_at(
        &mut self,
        board: &Board,
        handed: usize,
        request: Option<Request>,
    ) -> Result<Snapshot, NoMemory>
        requires stands { IsBoard J.book J.limits board.now }
        requires of { self.old.caller.number < handed }
        requires handed { handed ≤ MAX_PASSES }
        ensures looked { IfOk result (λ shown. IsLooked (record { limits = J.limits; handed = handed }) self.old shown
            self.new) }
        ensures err { OnErr result (self.new ≡ self.old) }
    {
        if !self.may_go_on(board, handed) {
            return Err(NoMemory);
        }
        let Before { rows, kept } = rows_again::<J>(self.last.take(), board);
        let Ok(rows) = board.show(rows) else {
            return Err(NoMemory);
        };
        let Ok(same) = rows.clone() else {
            return Err(NoMemory);
        };
        let mut kept = kept;
        let sought = kept.seek(&rows, request);
        let shown = Snapshot::new(same, sought);
        self.last = Some(Last {
            prefix: board.prefix.again(),
            rows,
            since: board.no_totals(),
            kept,
        });
        self.see(&board.prefix);
        Ok(shown)
    }
}

// By hand, so that who drops a pass calls this, and its parts' drops are proved here alone.
impl<J: Naming> Drop for Pass<J> {
    fn drop(self) {
        let Self {
            number: _,
            calls: _,
            prefix: _prefix,
            reader: _reader,
            last: _last,
        } = self;
    }
}

// Notes what a call changed, which this history ends with, and before which there was the other:
// where that is the one that was shown, and there is room to note it.
fn note<J: Naming>(last: &mut Last, before: &Prefix, now: &Prefix, totals: Option<Totals>)
    requires last { WereShown J.book J.limits last.old.prefix (arc_value last.old.rows).items last.old.since.items }
    requires before { before.now.book ≡ J.book }
    requires now { now.now.book ≡ J.book }
    requires changed { IfSome totals (λ totals. Changed J.limits before.now.list totals now.now.list) }
    ensures shown { WereShown J.book J.limits last.new.prefix (arc_value last.new.rows).items last.new.since.items }
    ensures rows { last.new.rows ≡ last.old.rows }
    ensures kept { last.new.kept ≡ last.old.kept }
{
    let Some(totals) = totals else {
        return;
    };
    if last.since.len() >= MAX_SINCE || !last.prefix.is_same(before) {
        return;
    }
    if last.since.push(totals).is_ok() {
        last.prefix = now.again();
    }
}

// The rows that were shown last, as they are now, where nobody else owns them and no call since
// then tells of a node; and what they are worth, where no other pass made a call.
fn rows_again<J: Naming>(last: Option<Last>, board: &Board) -> Before
    requires last { IfSome last (λ last. WereShown J.book J.limits last.prefix (arc_value last.rows).items
        last.since.items × AreKept (map shown (arc_value last.rows).items) last.kept.classes.items) }
    requires stands { IsBoard J.book J.limits board.now }
    ensures rows { IfSome result.rows (λ rows. map shown rows.items ≡ rows_shown board.now) }
    ensures kept { AreKept (rows_shown board.now) result.kept.classes.items }
{
    let Some(
        Last {
            prefix,
            rows,
            since,
            kept,
        },
    ) = last
    else {
        return Before {
            rows: None,
            kept: board.no_kept(),
        };
    };
    if !prefix.has_same_nodes(&board.prefix) {
        return Before {
            rows: None,
            kept: kept.forget(),
        };
    }
    let Some(rows) = Arc::into_inner(rows) else {
        return Before {
            rows: None,
            kept: kept.forget(),
        };
    };
    if prefix.is_same(&board.prefix) {
        let (rows, kept) = write_since(rows, kept, since.as_slice());
        return Before {
            rows: Some(rows),
            kept,
        };
    }
    let kept = kept.if_less(prefix.calls_until(&board.prefix), rows.len());
    let (rows, kept) = write_used(rows, kept, board.used());
    Before {
        rows: Some(rows),
        kept,
    }
}

// These rows, with what is used of each now, and what they are worth then.
fn write_used(rows: Vec<Row>, kept: Kept, used: &[Res]) -> (Vec<Row>, Kept)
    requires { length used.now ≡ length rows.items }
    ensures nodes { nodes_of result.0.items ≡ nodes_of rows.items }
    ensures used { uses_of result.0.items ≡ used.now }
    ensures kept { AreKept (map shown rows.items) kept.classes.items →
        AreKept (map shown result.0.items) result.1.classes.items }
{
    let mut rows = rows;
    let mut kept = kept;
    write_each(rows.as_mut_slice(), kept.classes.as_mut_slice(), used);
    (rows, kept)
}

// So much is used of each row's node. Those of which something else is used are judged again.
fn write_each(rows: &mut [Row], classes: &mut [Class], used: &[Res])
    requires { length used.now ≡ length rows.old }
    ensures nodes { nodes_of rows.new ≡ nodes_of rows.old }
    ensures used { uses_of rows.new ≡ used.now }
    ensures kept { AreKept (map shown rows.old) classes.old → AreKept (map shown rows.new) classes.new }
{
    for at in 0..used.len() {
        let now = used[at];
        let before = rows[at].used;
        if !are_same(before, now) {
            write_total(rows, classes, Some(Total { at, used: now }));
        }
    }
}

// Whether two amounts are the same.
#[inline]
#[tactic(auto, using(crate::proofs::LastLook::amounts_same))]
fn are_same(a: Res, b: Res) -> bool
    ensures { IsTrue result → a ≡ b }
{
    if a.cpu.0 != b.cpu.0 {
        return false;
    }
    if a.mem.0 != b.mem.0 {
        return false;
    }
    a.pods == b.pods
}

// These rows, with what calls changed of what is used, and what they are worth then. Where that is
// more to do than to judge all nodes for a request, nothing is kept.
fn write_since(rows: Vec<Row>, kept: Kept, since: &[Totals]) -> (Vec<Row>, Kept)
    ensures written { IsWritten rows.items since.now result.0.items }
    ensures kept { AreKept (map shown rows.items) kept.classes.items →
        AreKept (map shown result.0.items) result.1.classes.items }
{
    let mut rows = rows;
    let mut kept = kept.if_less(since.len(), rows.len());
    write_all(rows.as_mut_slice(), kept.classes.as_mut_slice(), since);
    (rows, kept)
}

// What calls changed of what is used is written, and the rows are judged again.
fn write_all(rows: &mut [Row], classes: &mut [Class], since: &[Totals])
    ensures written { IsWritten rows.old since.now rows.new }
    ensures kept { AreKept (map shown rows.old) classes.old → AreKept (map shown rows.new) classes.new }
{
    for totals in since {
        write_both(rows, classes, *totals);
    }
}

// So much is used of two rows' nodes.
fn write_both(rows: &mut [Row], classes: &mut [Class], totals: Totals)
    ensures nodes { nodes_of rows.new ≡ nodes_of rows.old }
    ensures used { uses_of rows.new ≡ with_totals (uses_of rows.old) totals }
    ensures kept { AreKept (map shown rows.old) classes.old → AreKept (map shown rows.new) classes.new }
{
    write_total(rows, classes, totals.first);
    write_total(rows, classes, totals.second);
}

// So much is used of a row's node.
fn write_total(rows: &mut [Row], classes: &mut [Class], total: Option<Total>)
    ensures nodes { nodes_of rows.new ≡ nodes_of rows.old }
    ensures used { uses_of rows.new ≡ with_total total (uses_of rows.old) }
    ensures kept { AreKept (map shown rows.old) classes.old → AreKept (map shown rows.new) classes.new }
{
    if let Some(Total { at, used }) = total {
        if at < rows.len() {
            rows[at].used = used;
            renew_all(classes, at, &rows[at]);
        }
    }
}
