//! The uids of places that expire, gathered once and looked at one by one.
ghost use Rattle.std.specs.Prelude.{◌≡◌, ℕ, ◌<◌, ◌≤◌, ◌++◌, Bool, true, false, List, None, Some, IfOk, IfSome, IfNone, Contains, length, map, vec_len, vec_capacity};
ghost use Rattle.std.specs.Bool.{IsTrue};
ghost use Rattle.std.specs.Ordering.{is_lt};
ghost use Rattle.std.specs.FinMap as fin;
ghost use Rattle.name_table.specs.Slots.{name_in, map_of};
ghost use Rattle.quant.specs.declared.limits.TheConstants.{MAX_PLACED};
ghost use Rattle.book.specs.Cluster.{name_cmp};
ghost use Rattle.book.specs.inside.Finishes.{finish_in, is_finished_by, is_limit, IsGathered};
ghost use Rattle.book.specs.declared.finishes.TheConstants.{NEVER};

use crate::finishes::Finishes;
use crate::place::Place;
use name_table::NameTable;
use quant::{MAX_PLACED, Name};
use std::alloc::{AllocError, Global};

/// The uids of the places whose binds were reported done up to a limit, in the order of their
/// bytes.
///
/// A place that goes leaves its uid behind. Where one more bind is reported done, they have to be
/// gathered anew.
#[derive(Drop)]
pub(crate) struct Overdue {
    pub(crate) names: Vec<Name>,
    /// How many of the first names stand for places that are known to have gone.
    pub(crate) given: usize,
    /// The limit, where all of them are gathered.
    pub(crate) limit: Option<u64>,
}

impl Overdue {
    /// Room for as many uids.
    pub(crate) fn new(alloc: Global, room: usize) -> Result<Self, AllocError>
        ensures none { IfOk result (λ o. o.limit ≡ None) }
        ensures room { IfOk result (λ o. room ≤ vec_capacity o.names) }
    {
        let Ok(names) = Vec::with_capacity(alloc, room) else {
            return Err(AllocError);
        };
        Ok(Overdue {
            names,
            given: 0,
            limit: None,
        })
    }

    /// Gathers those up to a limit, unless they are.
    pub(crate) fn gather(&mut self, table: &NameTable<Place>, finishes: &Finishes, limit: u64)
        requires room { length table.now ≤ vec_capacity self.old.names }
        requires small { length table.now ≤ MAX_PLACED }
        requires timed { finishes.now ≡ map finish_in table.now }
        requires early { limit < NEVER }
        requires known { IfSome self.old.limit (λ known. IsGathered (map_of table.now) known self.old.names.items
            self.old.given) }
        ensures room { vec_capacity self.old.names ≤ vec_capacity self.new.names }
        ensures limit { self.new.limit ≡ Some limit }
        ensures gathered { IsGathered (map_of table.now) limit self.new.names.items self.new.given }
    {
        if self.are_gathered(limit) {
            return;
        }
        collect(&mut self.names, table, finishes, limit);
        self.names.sort_unstable();
        self.given = 0;
        self.limit = Some(limit);
    }

    // Whether they are gathered for this limit.
    fn are_gathered(&self, limit: u64) -> bool
        ensures { result ≡ is_limit limit self.now.limit }
    {
        match self.limit {
            Some(known) => known == limit,
            None => false,
        }
    }

    /// The first of them that still has its place, and had its bind reported done by the limit.
    pub(crate) fn first(&mut self, table: &NameTable<Place>, limit: u64) -> Option<Name>
        requires { IsGathered (map_of table.now) limit self.old.names.items self.old.given }
        ensures finished { IfSome result (λ uid. is_finished_by limit (fin.get (map_of table.now) uid) ≡ true) }
        ensures least { IfSome result (λ uid. (other : List ℕ) →
            is_finished_by limit (fin.get (map_of table.now) other) ≡ true → is_lt (name_cmp other uid) ≡ false) }
        ensures none { IfNone result ((uid : List ℕ) → is_finished_by limit (fin.get (map_of table.now) uid) ≡ false) }
        ensures names { self.new.names ≡ self.old.names }
        ensures limit { self.new.limit ≡ self.old.limit }
        ensures gathered { IsGathered (map_of table.now) limit self.new.names.items self.new.given }
    {
        while self.given < self.names.len() {
            let uid = &self.names[self.given];
            if has_finished(table, uid, limit) {
                return Some(uid.copied());
            }
            self.given += 1;
        }
        None
    }
}

// The uids of the places whose binds were reported done up to a limit, in the order of their slots.
fn collect(names: &mut Vec<Name>, table: &NameTable<Place>, finishes: &Finishes, limit: u64)
    requires room { length table.now ≤ vec_capacity names.old }
    requires small { length table.now ≤ MAX_PLACED }
    requires timed { finishes.now ≡ map finish_in table.now }
    requires early { limit < NEVER }
    ensures room { vec_capacity names.old ≤ vec_capacity names.new }
    ensures all { (uid : List ℕ) → is_finished_by limit (fin.get (map_of table.now) uid) ≡ true →
        Contains names.new.items uid }
{
    names.clear();
    let placed = table.len();
    prove!(placed <= table.room());
    let mut from = 0;
    while let Some(slot) = finishes.next(from, limit) {
        names.push_reserved(table.name_at(slot).copied());
        from = slot + 1;
    }
}

/// Whether some pod has a place whose bind was reported done by the limit.
pub(crate) fn any_finished(table: &NameTable<Place>, finishes: &Finishes, limit: u64) -> bool
    requires timed { finishes.now ≡ map finish_in table.now }
    requires early { limit < NEVER }
    ensures some { IsTrue result → (uid : List ℕ) × (is_finished_by limit (fin.get (map_of table.now) uid) ≡ true) }
    ensures none { result ≡ false → (uid : List ℕ) → is_finished_by limit (fin.get (map_of table.now) uid) ≡ false }
{
    let placed = table.len();
    prove!(placed <= table.room());
    match finishes.next(0, limit) {
        None => false,
        Some(slot) => has_finished(table, table.name_at(slot), limit),
    }
}

// Whether a pod has a place whose bind was reported done by the limit.
fn has_finished(table: &NameTable<Place>, uid: &Name, limit: u64) -> bool
    ensures { result ≡ is_finished_by limit (fin.get (map_of table.now) uid.now) }
{
    match table.get(uid) {
        Some(place) => place.status.finish() <= limit,
        None => false,
    }
}
