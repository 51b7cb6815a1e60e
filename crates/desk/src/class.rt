//! What nodes are worth to pods of one request.
ghost use Rattle.std.specs.Prelude.{◌≡◌, ◌<◌, ◌≤◌, ◌⊎◌, ℕ, List, length, map, slice_index, slice_index_or, slice_set, IfOk, IfSome};
ghost use Rattle.std.specs.List.{All};
ghost use Rattle.desk.specs.Shown.{Shown as Seen, shown};
ghost use Rattle.desk.specs.Worth.{IsFirstGreatest, IsSought, worth};
ghost use Rattle.desk.specs.inside.Kept.{AreKept, IsClass};

use crate::snapshot::Row;
use crate::sought::Sought;
use quant::Request;
use std::alloc::{AllocError, Global};

/// What each node is worth to pods of a request, and whether all of them were seen to be plain.
/// Most pods have the request of others.
#[derive(Drop)]
pub struct Class {
    pub(crate) request: Request,
    pub(crate) worths: Vec<u8>,
    pub(crate) all_plain: bool,
}

// What a node is worth to a request: one more than its score where it is plain and has room, and
// else 0. The node isn't looked into.
#[inline]
fn worth(row: &Row, request: Request) -> u8
    ensures { result ≡ worth request (shown row.now) }
{
    if !row.is_plain() {
        return 0;
    }
    match row.allocatable().score_from(0, row.used, request) {
        Some(score) => score + 1,
        None => 0,
    }
}

impl Class {
    /// Judges all rows for a request.
    ///
    /// Errors: where no memory is left.
    pub(crate) fn of(alloc: Global, rows: &[Row], request: Request) -> Result<Class, AllocError>
        ensures { IfOk result (IsClass (map shown rows.now)) }
    {
        let Ok(mut worths) = Vec::with_capacity(alloc, rows.len()) else {
            return Err(AllocError);
        };
        let mut all_plain = true;
        for row in rows {
            let Ok(()) = worths.push(worth(row, request)) else {
                return Err(AllocError);
            };
            all_plain = all_plain && row.is_plain();
        }
        Ok(Class {
            request,
            worths,
            all_plain,
        })
    }

    // Judges a row again, of which something else is used.
    #[inline]
    fn renew(&mut self, at: usize, row: &Row)
        ensures { (nodes : List Seen) → at < length nodes →
            row.now.node ≡ (slice_index_or nodes at (shown row.now)).node →
            IsClass nodes self.old → IsClass (slice_set nodes at (shown row.now)) self.new }
    {
        if at < self.worths.len() {
            self.worths[at] = worth(row, self.request);
        }
    }

    /// What was sought with it.
    pub(crate) fn sought(&self) -> Sought
        ensures { (nodes : List Seen) → IsClass nodes self.now → IsSought nodes result }
    {
        Sought {
            request: self.request,
            first: first_greatest(self.worths.as_slice()),
            all_plain: self.all_plain,
        }
    }
}

/// Judges a row again, of which something else is used, for all of these requests.
pub(crate) fn renew_all(classes: &mut [Class], at: usize, row: &Row)
    ensures { (nodes : List Seen) → at < length nodes →
        row.now.node ≡ (slice_index_or nodes at (shown row.now)).node →
        AreKept nodes classes.old → AreKept (slice_set nodes at (shown row.now)) classes.new }
{
    for k in 0..classes.len() {
        classes[k].renew(at, row);
    }
}

/// Where a request's class is, if there is one.
pub(crate) fn find(classes: &[Class], request: Request) -> Option<usize>
    ensures { IfSome result (λ k. k < length classes.now) }
{
    for k in 0..classes.len() {
        if classes[k].request == request {
            return Some(k);
        }
    }
    None
}

// The place of the first of the greatest of these, where that isn't 0.
fn first_greatest(worths: &[u8]) -> Option<usize>
    ensures { IsFirstGreatest worths.now result }
{
    let most = greatest(worths);
    if most == 0 {
        return None;
    }
    for at in 0..worths.len() {
        if worths[at] == most {
            return Some(at);
        }
    }
    None
}

// The greatest of these, or 0.
fn greatest(worths: &[u8]) -> u8
    ensures most { All (λ worth. worth ≤ result) worths.now }
    ensures there { (result ≡ 0) ⊎ ((k : ℕ) × (k < length worths.now) × (slice_index worths.now k ≡ result)) }
{
    let mut most = 0;
    for worth in worths {
        most = most.max(*worth);
    }
    most
}
