//! What nodes are worth to pods of the requests that came last, kept from one look of a pass to the
//! next: between two decisions few nodes change, and these alone are judged again.
ghost use Rattle.std.specs.Prelude.{◌≡◌, ◌<◌, [], List, length, map, IfSome};
ghost use Rattle.desk.specs.Shown.{Shown as Seen, shown};
ghost use Rattle.desk.specs.Worth.{IsSought};
ghost use Rattle.desk.specs.inside.Kept.{AreKept};

use crate::class::{Class, find};
use crate::snapshot::Row;
use crate::sought::Sought;
use quant::Request;
use std::alloc::Global;

// For so many requests it is kept.
const MAX_CLASSES: usize = 64;

/// What is kept, for 64 requests, each of which gives way in turn.
pub struct Kept {
    alloc: Global,
    pub(crate) classes: Vec<Class>,
    // The class that gives way next.
    next: usize,
    passed: Passed,
}

// Requests that came lately and weren't kept, each by a number, in a place of its own or instead of
// another: one that comes once alone isn't worth that all nodes are judged for it.
#[derive(Clone, Copy)]
struct Passed {
    numbers: [u32; MAX_CLASSES],
}

impl Passed {
    fn none() -> Passed {
        Passed {
            numbers: [u32::MAX; MAX_CLASSES],
        }
    }

    // Whether a request, or another of its number, came before. It has come now.
    fn comes_again(&mut self, request: Request) -> bool {
        let mixed = request.cpu.0 ^ request.mem.0 >> 16 ^ request.mem.0.wrapping_mul(31);
        let place = ((mixed ^ mixed >> 6) % MAX_CLASSES as u64) as usize;
        let number = (mixed % u64::from(u32::MAX)) as u32;
        let before = self.numbers[place];
        self.numbers[place] = number;
        before == number
    }
}

// By hand, so that who drops it calls this, and its parts' drops are proved here alone.
impl Drop for Kept {
    fn drop(self) {
        let Self {
            alloc: _,
            classes: _classes,
            next: _,
            passed: _,
        } = self;
    }
}

impl Kept {
    /// Nothing is kept yet, and no memory taken.
    pub(crate) fn new(alloc: Global) -> Kept
        ensures { result.classes.items ≡ [] }
    {
        Kept {
            alloc,
            classes: Vec::new(alloc),
            next: 0,
            passed: Passed::none(),
        }
    }

    /// Nothing is kept any more, and no request has come.
    pub(crate) fn forget(self) -> Kept
        ensures { result.classes.items ≡ [] }
    {
        let mut kept = self;
        kept.classes.clear();
        kept.passed = Passed::none();
        kept
    }

    /// The same, unless so many changes for all requests are more to do than to judge so many rows.
    pub(crate) fn if_less(self, changes: usize, rows: usize) -> Kept
        ensures { (nodes : List Seen) → AreKept nodes self.classes.items → AreKept nodes result.classes.items }
    {
        if changes.saturating_mul(self.classes.len()) > rows {
            return self.forget();
        }
        self
    }

    /// What is found among these rows for a request, by what is kept. Nothing is where the request
    /// comes for the first time, nor where memory is wanting.
    pub(crate) fn seek(&mut self, rows: &[Row], request: Option<Request>) -> Option<Sought>
        requires { AreKept (map shown rows.now) self.old.classes.items }
        ensures kept { AreKept (map shown rows.now) self.new.classes.items }
        ensures sought { IfSome result (IsSought (map shown rows.now)) }
    {
        let Some(at) = self.class_for(rows, request?) else {
            return None;
        };
        Some(self.classes[at].sought())
    }

    // Where a request's class is, if it is kept from now on.
    fn class_for(&mut self, rows: &[Row], request: Request) -> Option<usize>
        requires { AreKept (map shown rows.now) self.old.classes.items }
        ensures kept { AreKept (map shown rows.now) self.new.classes.items }
        ensures there { IfSome result (λ k. k < length self.new.classes.items) }
    {
        if let Some(at) = find(self.classes.as_slice(), request) {
            return Some(at);
        }
        if !self.passed.comes_again(request) {
            return None;
        }
        self.take_in(rows, request)
    }

    // Judges all rows for a request, and keeps that, if there is memory.
    fn take_in(&mut self, rows: &[Row], request: Request) -> Option<usize>
        requires { AreKept (map shown rows.now) self.old.classes.items }
        ensures kept { AreKept (map shown rows.now) self.new.classes.items }
        ensures there { IfSome result (λ k. k < length self.new.classes.items) }
    {
        let Ok(class) = Class::of(self.alloc, rows, request) else {
            return None;
        };
        let many = self.classes.len();
        if many < MAX_CLASSES {
            return match self.classes.push(class) {
                Ok(()) => Some(many),
                Err(_) => None,
            };
        }
        let at = self.next % many;
        self.next = at + 1;
        self.classes[at] = class;
        Some(at)
    }
}
