//! The node that goes first among all.
ghost use Rattle.std.specs.Prelude.{◌≡◌, ◌<◌, ◌≤◌, length, map, IfSome};
ghost use Rattle.std.specs.List.{All};
ghost use Rattle.quant.specs.Request.{greatest_by};
ghost use Rattle.desk.specs.Shown.{shown};
ghost use Rattle.choose.specs.Choice.{judged, count_of, total};
ghost use Rattle.quant.specs.Name.{is_before};
ghost use Rattle.desk.specs.Order.{name_at};
ghost use Rattle.choose.specs.inside.Finding.{worth_of, IsBounded, goes_before, after_one_more, StandsFirst};

use crate::decision::Verdict;
use desk::Row;
use taints::normalize;

/// What nodes are compared by.
#[derive(Clone, Copy)]
pub enum Worth {
    /// Only erring nodes count, all alike.
    Error,
    /// Only nodes that pass count, by their totals, where the most untolerated taints of a node
    /// that passes are these.
    Total(u8),
}

/// A node that was found, by its place, and what it is worth.
#[derive(Clone, Copy)]
pub struct Found {
    pub at: usize,
    pub worth: u32,
}

impl Worth {
    /// What a verdict is worth, if the node counts.
    fn of(self, verdict: Verdict) -> Option<u32>
        requires { IsBounded self verdict }
        ensures { result ≡ worth_of self verdict }
    {
        match (self, verdict) {
            (Worth::Error, Verdict::Errs(_, _)) => Some(0),
            (Worth::Total(most), Verdict::Passes(count, score, _)) => Some(total(
                most, count, score,
            )),
            _ => None,
        }
    }
}

/// The total of a node that passes with so many untolerated taints `PreferNoSchedule` and this
/// score, where the most that a node has which passes are these.
pub fn total(most: u8, count: u8, score: u16) -> u32
    requires { count ≤ most }
    ensures { result ≡ total most count score }
{
    u32::from(score) + u32::from(normalize(count, most))
}

/// The node that goes first: the one of the least name among those that are worth most.
pub fn first_of(rows: &[Row], verdicts: &[Verdict], by: Worth) -> Option<Found>
    requires all { length verdicts.now ≡ length rows.now }
    requires bounded { All (IsBounded by) verdicts.now }
    ensures first { let nodes = judged (map shown rows.now) verdicts.now in StandsFirst by nodes nodes result }
    ensures there { IfSome result (λ found. found.at < length rows.now) }
{
    let mut first = None;
    for at in 0..verdicts.len() {
        if let Some(worth) = by.of(verdicts[at]) {
            first = Some(first_of_two(rows, first, Found { at, worth }));
        }
    }
    first
}

// Which of two goes first: what was found so far, if anything was, or the next.
fn first_of_two(rows: &[Row], first: Option<Found>, next: Found) -> Found
    requires next { next.at < length rows.now }
    requires first { IfSome first (λ found. found.at < length rows.now) }
    ensures { result ≡ after_one_more (map shown rows.now) first next }
{
    match first {
        Some(found) if !goes_before(rows, next, found) => found,
        _ => next,
    }
}

// Whether what was found goes before what was found earlier.
fn goes_before(rows: &[Row], a: Found, b: Found) -> bool
    requires a { a.at < length rows.now }
    requires b { b.at < length rows.now }
    ensures { result ≡ goes_before (map shown rows.now) a b }
{
    a.worth > b.worth || a.worth == b.worth && comes_before(rows, a.at, b.at)
}

// Whether the name of one node comes before that of another.
fn comes_before(rows: &[Row], a: usize, b: usize) -> bool
    requires a { a < length rows.now }
    requires b { b < length rows.now }
    ensures { result ≡ is_before (name_at (map shown rows.now) a) (name_at (map shown rows.now) b) }
{
    rows[a].node.name.cmp(&rows[b].node.name).is_lt()
}

/// The most untolerated taints `PreferNoSchedule` of a node that passes, and 0 where none does.
pub fn most_taints(verdicts: &[Verdict]) -> u8
    ensures { result ≡ greatest_by count_of verdicts.now }
{
    let mut most = 0;
    for verdict in verdicts {
        most = most.max(count_of(*verdict));
    }
    most
}

// The untolerated taints of a node that passes.
fn count_of(verdict: Verdict) -> u8
    ensures { result ≡ count_of verdict }
{
    match verdict {
        Verdict::Passes(count, _, _) => count,
        _ => 0,
    }
}
