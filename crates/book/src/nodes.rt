//! The nodes of a cluster, by name, each with what the pods on it use together.
ghost use Rattle.std.specs.Prelude.{◌≡◌, ◌≤◌, [], List, ℕ, length, IfOk, IfErr, OnOk, OnErr, true, false};
ghost use Rattle.std.specs.Option.{option_copied};
ghost use Rattle.std.specs.FinMap as fin;
ghost use Rattle.quant.specs.declared.amount.Res.{Res};
ghost use Rattle.book.specs.Rows.{named, rows_in, IsRowOf, IsGapFor};
ghost use Rattle.book.specs.inside.Rows.{IsInOrder};
ghost use Rattle.book.specs.Tables.{is_full_for};
ghost use Rattle.book.specs.inside.Tables.{IsShown, IsAlikeBut};

use crate::NoMemory;
use crate::refusal::Refusal;
use quant::{Name, Res, SharedNode};
use std::alloc::Global;
use std::marker::Model;

/// The nodes that are there, in the order of their names' bytes. A look-up takes logarithmic time.
#[derive(Drop)]
pub(crate) struct Nodes {
    rows: Vec<SharedNode>,
    // What is used of each, in the same order.
    used: Vec<Res>,
    // Where the row of a node was last found, by the slot of the node's total. Each is a guess.
    guesses: Vec<usize>,
    // The row beside which an amount was written last. It is a guess too.
    last: usize,
    room: usize,
}

impl Model for Nodes {
    ghost use Rattle.book.specs.inside.Tables.{NodeTable};

    ghost Value = { NodeTable };

    ghost use Rattle.book.specs.inside.Codes.{nodes_code};

    ghost coded = { nodes_code };

    ghost use Rattle.std.specs.Prelude.{◌≤◌, vec_len, vec_capacity};
    ghost use Rattle.std.specs.FinMap.{from_sorted};
    ghost use Rattle.book.specs.Rows.{named};
    ghost use Rattle.book.specs.inside.Rows.{IsListed};

    ghost view = { λ t. record { map = from_sorted (named t.rows.items); room = t.room; used = t.used.items } };

    ghost invariant = { λ t. IsListed t.rows t.used t.room };
}

impl Nodes {
    /// No nodes, with room for as many.
    pub(crate) fn new(alloc: Global, room: usize) -> Result<Self, NoMemory>
        ensures { IfOk result (λ t. t ≡ record { map = fin.empty; room = room; used = [] }) }
    {
        let Ok(rows) = Vec::with_capacity(alloc, room) else {
            return Err(NoMemory);
        };
        let Ok(used) = Vec::with_capacity(alloc, room) else {
            return Err(NoMemory);
        };
        let Ok(guesses) = Vec::from_elem(alloc, 0, room) else {
            return Err(NoMemory);
        };
        Ok(Nodes {
            rows,
            used,
            guesses,
            last: 0,
            room,
        })
    }

    /// The rows, in the order of their names' bytes.
    pub(crate) fn rows(&self) -> &[SharedNode]
        ensures { named result.now ≡ fin.entries self.now.map }
    {
        &self.rows
    }

    /// What is used of each, in the same order.
    pub(crate) fn used(&self) -> &[Res]
        ensures { result.now ≡ self.now.used }
    {
        &self.used
    }

    /// The node's row.
    pub(crate) fn get(&self, name: &Name) -> Option<&SharedNode>
        ensures { option_copied result ≡ fin.get self.now.map name.now }
    {
        match place_of(&self.rows, name) {
            Ok(at) => Some(&self.rows[at]),
            Err(_) => None,
        }
    }

    /// Whether the row beside which `keep` wrote an amount last has this name, so that `find` finds
    /// it at once without a slot.
    pub(crate) fn is_last(&self, name: &Name) -> bool {
        match self.rows.get(self.last) {
            Some(row) => row.name == *name,
            None => false,
        }
    }

    /// Where the row of this name is, or where it would go. The slot tells names apart as in
    /// `keep`, if it is known.
    pub(crate) fn find(&self, name: &Name, slot: Option<usize>) -> Result<usize, usize>
        ensures found { IfOk result (IsRowOf (rows_in self.now.map) name.now) }
        ensures absent { IfErr result (IsGapFor (rows_in self.now.map) name.now) }
        ensures in_range { IfErr result (λ at. at ≤ length (rows_in self.now.map)) }
        ensures listed { named (rows_in self.now.map) ≡ fin.entries self.now.map }
    {
        let guess = match slot {
            Some(slot) => self.guess_for(slot),
            None => self.last,
        };
        place_near(&self.rows, name, guess)
    }

    // Where the row of a node may be, by the slot of the node's total.
    fn guess_for(&self, slot: usize) -> usize {
        self.guesses.get(slot).copied().unwrap_or(0)
    }

    /// Puts a row, in place of one with its name. So much is used of the node.
    ///
    /// Errors: `Full` where no row has the name and there is no room for one more; nothing changes.
    pub(crate) fn set(&mut self, node: SharedNode, used: Res) -> Result<(), Refusal>
        ensures set { OnOk result (self.new.map ≡ fin.insert self.old.map node.name node) }
        ensures shown { OnOk result ((f : List ℕ → Res) → IsShown f self.old → used ≡ f node.name →
            IsShown f self.new) }
        ensures same { self.new.room ≡ self.old.room }
        ensures room { OnOk result (is_full_for self.old.map self.old.room node.name ≡ false) }
        ensures full { OnErr result (is_full_for self.old.map self.old.room node.name ≡ true) }
        ensures why { IfErr result (λ why. why ≡ Refusal.Full) }
        ensures unchanged { OnErr result (self.new ≡ self.old) }
    {
        match place_of(&self.rows, &node.name) {
            Ok(at) => self.rows[at] = node,
            Err(at) => {
                if self.rows.len() >= self.room {
                    return Err(Refusal::Full);
                }
                self.rows.insert(at, node).unwrap();
                self.used.insert(at, used).unwrap();
            }
        }
        Ok(())
    }

    /// Takes the row of this name out.
    ///
    /// Errors: `NoNode` where no row has the name; nothing changes.
    pub(crate) fn remove(&mut self, name: &Name) -> Result<(), Refusal>
        ensures gone { OnOk result (self.new.map ≡ fin.remove self.old.map name.now) }
        ensures shown { OnOk result ((f : List ℕ → Res) → IsShown f self.old → IsShown f self.new) }
        ensures same { self.new.room ≡ self.old.room }
        ensures there { OnOk result (fin.contains_key self.old.map name.now ≡ true) }
        ensures missing { OnErr result (fin.contains_key self.old.map name.now ≡ false) }
        ensures why { IfErr result (λ why. why ≡ Refusal.NoNode) }
        ensures unchanged { OnErr result (self.new ≡ self.old) }
    {
        match place_of(&self.rows, name) {
            Ok(at) => {
                self.rows.remove(at);
                self.used.remove(at);
                Ok(())
            }
            Err(_) => Err(Refusal::NoNode),
        }
    }

    /// So much is used of a node from now on, if it is there. The slot tells names apart, as far as
    /// it can: where it had this name at the last call and no rows came or went since, the row is
    /// found at once.
    pub(crate) fn keep(&mut self, name: &Name, used: Res, slot: usize)
        ensures map { self.new.map ≡ self.old.map }
        ensures room { self.new.room ≡ self.old.room }
        ensures shown { (f g : List ℕ → Res) → IsShown f self.old → used ≡ g name.now → IsAlikeBut name.now f g →
            IsShown g self.new }
    {
        let guess = self.guess_for(slot);
        let Ok(at) = place_near(&self.rows, name, guess) else {
            return;
        };
        self.used[at] = used;
        self.last = at;
        if slot < self.guesses.len() {
            self.guesses[slot] = at;
        }
    }
}

// Where the row of this name is, or where it would go. The guess is tried first.
fn place_near(rows: &[SharedNode], name: &Name, guess: usize) -> Result<usize, usize>
    requires { IsInOrder rows.now }
    ensures found { IfOk result (IsRowOf rows.now name.now) }
    ensures absent { IfErr result (IsGapFor rows.now name.now) }
    ensures in_range { IfErr result (λ at. at ≤ length rows.now) }
{
    if guess < rows.len() && &rows[guess].name == name {
        return Ok(guess);
    }
    place_of(rows, name)
}

// Where the row of this name is, or where it would go.
fn place_of(rows: &[SharedNode], name: &Name) -> Result<usize, usize>
    requires { IsInOrder rows.now }
    ensures found { IfOk result (IsRowOf rows.now name.now) }
    ensures absent { IfErr result (IsGapFor rows.now name.now) }
    ensures in_range { IfErr result (λ at. at ≤ length rows.now) }
{
    rows.binary_search_by(|row| row.name.cmp(name))
}
