//! What rules said of nodes, kept for classes of pods.
//!
//! Pods of one class have one record of version 3. What a rule said of one of them by that record,
//! and by a node's row, it says of each; where it read what is used of the node too, it does as
//! long as that stays.
ghost use Rattle.std.specs.Prelude.{◌≡◌, ℕ, ◌<◌, List, length, IfSome, slice_get};
ghost use Rattle.std.specs.Bool.{IsTrue};
ghost use Rattle.std.specs.List.{AllByRecursion};
ghost use Rattle.plugin.specs.Kit.{Ready};
ghost use Rattle.plugin.specs.inside.Answers.{AnswersHold};
ghost use Rattle.plugin.specs.inside.Kept.{ClassHolds, HearOfAll, Holds, KeptHolds, LineHolds, NewlyHeard};

use crate::answers::{Answers, Heard, Known, no_answers, nothing};
use crate::asked::Reach;
use quant::{Res, SharedNode};
use std::alloc::Global;
use whost::Record;

// Of so many classes of pods it is kept what was said.
const MAX_CLASSES: usize = 64;

// Of so many nodes for each class.
const MAX_NODES: usize = 8_192;

// Of so many nodes of all classes together, and those of one class more, no new class comes but in
// the place of another. A line takes some hundred bytes.
const MAX_LINES: usize = 131_072;

// A class that isn't asked for while so many rows have changed lets go of its rows, each of which
// may be kilobytes large and nobody else's by then.
const MAX_CHANGES: u64 = 4_096;

// Besides twice the nodes that were shown a class keeps lines of so many, be they gone or too full
// for its pods.
const SPARE_LINES: usize = 64;

/// What was said of a node.
#[derive(Drop)]
pub struct Line {
    node: SharedNode,
    used: Res,
    known: Known,
}

/// What was said, for the pods whose record of version 3 this is, of all nodes, and of each in the
/// order in which they are shown.
#[derive(Drop)]
pub struct Class {
    pod: Vec<u8>,
    of_all: Answers,
    lines: Vec<Line>,
    // How many nodes were shown for its last pod.
    shown: usize,
    // How many rows had changed when that one came.
    changes: u64,
}

/// What is kept: for 64 classes, each of which gives way in turn.
#[derive(Drop)]
pub struct Kept {
    alloc: Global,
    classes: Vec<Class>,
    // The class that gives way next, and the one whose age is looked at next.
    next: usize,
    turn: usize,
    // How many rows have changed, as far as that was seen.
    changes: u64,
}

/// Where a node stands for a class, and from where on the next one is looked for.
#[derive(Clone, Copy)]
pub struct Spot {
    pub class: usize,
    pub line: usize,
    pub next: usize,
}

/// Where a node stands for a class, and what is known of all nodes, and of it.
#[derive(Clone, Copy)]
pub struct Sighted {
    pub line: usize,
    pub of_all: Answers,
    pub known: Known,
    /// Whether another row stood there.
    pub is_changed: bool,
}

/// Whether two amounts are the same.
#[tactic(auto, using(crate::proofs::KeptLemmas::amounts_are))]
pub fn same_amounts(a: &Res, b: &Res) -> bool
    ensures { IsTrue result → a.now ≡ b.now }
{
    if a.cpu.0 != b.cpu.0 {
        return false;
    }
    if a.mem.0 != b.mem.0 {
        return false;
    }
    a.pods == b.pods
}

impl Line {
    // A node of which nothing was said.
    fn new(node: SharedNode, used: Res) -> Line
        ensures { (plugins : List Ready) (pod : List ℕ) → LineHolds plugins pod result }
    {
        Line {
            node,
            used,
            known: nothing(),
        }
    }

    // What is known of this row with so much used, and whether another one stood there. What was
    // said of another row of its name, or where something else was used, is forgotten.
    fn show(&mut self, node: &SharedNode, used: &Res) -> (Known, bool)
        ensures keeps { (plugins : List Ready) (pod : List ℕ) → LineHolds plugins pod self.old →
            LineHolds plugins pod self.new }
        ensures known { (plugins : List Ready) (pod : List ℕ) → LineHolds plugins pod self.old →
            Holds plugins pod node.now used.now result.0 }
    {
        if !self.is_of(node) {
            return (self.begin_anew(node, used), true);
        }
        (self.known_by(used), false)
    }

    // What is known of its row with so much used. Where something else was used, what was said by
    // that is forgotten.
    fn known_by(&mut self, used: &Res) -> Known
        ensures row { self.new.node ≡ self.old.node }
        ensures keeps { (plugins : List Ready) (pod : List ℕ) → LineHolds plugins pod self.old →
            LineHolds plugins pod self.new }
        ensures known { (plugins : List Ready) (pod : List ℕ) → LineHolds plugins pod self.old →
            Holds plugins pod self.old.node used.now result }
    {
        if same_amounts(&self.used, used) {
            return self.known;
        }
        self.used = *used;
        self.known = self.known.whatever_is_used();
        self.known
    }

    // Whether it is of this row.
    fn is_of(&self, node: &SharedNode) -> bool
        ensures { IsTrue result → self.now.node ≡ node.now }
    {
        self.node.is_same(node)
    }

    // Nothing is known of this row, which takes the place of another.
    fn begin_anew(&mut self, node: &SharedNode, used: &Res) -> Known
        ensures keeps { (plugins : List Ready) (pod : List ℕ) → LineHolds plugins pod self.old →
            LineHolds plugins pod self.new }
        ensures known { (plugins : List Ready) (pod : List ℕ) → Holds plugins pod node.now used.now result }
    {
        match node.share() {
            Ok(own) => {
                *self = Line::new(own, *used);
                nothing()
            }
            Err(_) => nothing(),
        }
    }

    // Notes what a rule said, where the line is of this row with so much used.
    fn note(&mut self, node: &SharedNode, used: &Res, place: usize, heard: Heard, reach: Reach)
        requires { place < 16 }
        ensures { (plugins : List Ready) (pod : List ℕ) → LineHolds plugins pod self.old →
            NewlyHeard plugins pod node.now used.now place heard reach → LineHolds plugins pod self.new }
    {
        if !self.is_of(node) {
            return;
        }
        if !same_amounts(&self.used, used) {
            return;
        }
        self.known.note(place, heard, reach);
    }
}

// A line of a node of which nothing was said comes in front of those from a place on, and stands
// there.
fn insert_line(lines: &mut Vec<Line>, from: usize, node: &SharedNode, used: &Res) -> usize
    ensures { (plugins : List Ready) (pod : List ℕ) → AllByRecursion (LineHolds plugins pod) lines.old.items →
        AllByRecursion (LineHolds plugins pod) lines.new.items }
{
    if lines.len() >= MAX_NODES {
        lines.clear();
    }
    let line = from.min(lines.len());
    if let Ok(own) = node.share() {
        let _full = lines.insert(line, Line::new(own, *used));
    }
    line
}

impl Class {
    // One more pod of it comes, when so many rows have changed. Where it has many lines of nodes
    // that weren't shown for the last pod, it begins anew.
    fn come(&mut self, changes: u64)
        ensures pod { self.new.pod ≡ self.old.pod }
        ensures keeps { (plugins : List Ready) → ClassHolds plugins self.old → ClassHolds plugins self.new }
    {
        let most = self.shown.saturating_mul(2).saturating_add(SPARE_LINES);
        if self.lines.len() > most {
            self.lines.clear();
        }
        self.shown = 0;
        self.changes = changes;
    }

    // Lets go of its rows where many rows have changed since its last pod.
    fn grow_old(&mut self, changes: u64)
        ensures pod { self.new.pod ≡ self.old.pod }
        ensures keeps { (plugins : List Ready) → ClassHolds plugins self.old → ClassHolds plugins self.new }
    {
        if changes.wrapping_sub(self.changes) > MAX_CHANGES {
            self.lines.clear();
        }
    }

    // The first line from a place on that is of a node of this name. Most often it is the one there,
    // and of this row.
    fn find(&self, from: usize, node: &SharedNode) -> Option<usize>
        ensures { IfSome result (λ at. at < length self.now.lines.items) }
    {
        if from < self.lines.len() && self.lines[from].is_of(node) {
            return Some(from);
        }
        for at in from..self.lines.len() {
            if self.lines[at].node.name == node.name {
                return Some(at);
            }
        }
        None
    }

    // What is known of a node, which is looked for from a line on.
    fn show(&mut self, from: usize, node: &SharedNode, used: &Res) -> Sighted
        ensures pod { self.new.pod ≡ self.old.pod }
        ensures keeps { (plugins : List Ready) → ClassHolds plugins self.old → ClassHolds plugins self.new }
        ensures known { (plugins : List Ready) → ClassHolds plugins self.old →
            Holds plugins self.old.pod.items node.now used.now result.known }
        ensures of_all { result.of_all ≡ self.old.of_all }
    {
        self.shown = self.shown.saturating_add(1);
        match self.find(from, node) {
            Some(line) => {
                let (known, is_changed) = self.lines[line].show(node, used);
                Sighted {
                    line,
                    of_all: self.of_all,
                    known,
                    is_changed,
                }
            }
            None => self.take_in(from, node, used),
        }
    }

    // A node comes, and stands in front of those from a line on.
    fn take_in(&mut self, from: usize, node: &SharedNode, used: &Res) -> Sighted
        ensures pod { self.new.pod ≡ self.old.pod }
        ensures keeps { (plugins : List Ready) → ClassHolds plugins self.old → ClassHolds plugins self.new }
        ensures known { (plugins : List Ready) (pod : List ℕ) → Holds plugins pod node.now used.now result.known }
        ensures of_all { result.of_all ≡ self.old.of_all }
    {
        let line = insert_line(&mut self.lines, from, node, used);
        Sighted {
            line,
            of_all: self.of_all,
            known: nothing(),
            is_changed: false,
        }
    }

    // Notes what a rule said of a node.
    fn note(
        &mut self,
        line: usize,
        node: &SharedNode,
        used: &Res,
        place: usize,
        heard: Heard,
        reach: Reach,
    )
        requires { place < 16 }
        ensures pod { self.new.pod ≡ self.old.pod }
        ensures keeps { (plugins : List Ready) → ClassHolds plugins self.old →
            NewlyHeard plugins self.old.pod.items node.now used.now place heard reach → ClassHolds plugins self.new }
    {
        match reach {
            Reach::Class => self.of_all.note(place, heard),
            _ => self.note_line(line, node, used, place, heard, reach),
        }
    }

    // Notes what a rule said of this node alone.
    fn note_line(
        &mut self,
        line: usize,
        node: &SharedNode,
        used: &Res,
        place: usize,
        heard: Heard,
        reach: Reach,
    )
        requires { place < 16 }
        ensures pod { self.new.pod ≡ self.old.pod }
        ensures of_all { self.new.of_all ≡ self.old.of_all }
        ensures keeps { (plugins : List Ready) → AllByRecursion (LineHolds plugins self.old.pod.items) self.old.lines.items →
            NewlyHeard plugins self.old.pod.items node.now used.now place heard reach →
            AllByRecursion (LineHolds plugins self.old.pod.items) self.new.lines.items }
    {
        if line >= self.lines.len() {
            return;
        }
        self.lines[line].note(node, used, place, heard, reach);
    }
}

impl Kept {
    /// Nothing.
    pub fn new(alloc: Global) -> Kept
        ensures { (plugins : List Ready) → KeptHolds plugins result }
    {
        Kept {
            alloc,
            classes: Vec::new(alloc),
            next: 0,
            turn: 0,
            changes: 0,
        }
    }

    /// Where the class of the pods stands whose record of version 3 this is, if there is memory for
    /// it.
    pub fn class_of(&mut self, pod: &Record) -> usize
        ensures { (plugins : List Ready) → KeptHolds plugins self.old → KeptHolds plugins self.new }
    {
        self.let_one_grow_old();
        match self.find(pod) {
            Some(at) => {
                self.have_come(at);
                at
            }
            None => self.take_in(pod),
        }
    }

    // One more pod of a class comes.
    fn have_come(&mut self, at: usize)
        requires { at < length self.old.classes.items }
        ensures { (plugins : List Ready) → KeptHolds plugins self.old → KeptHolds plugins self.new }
    {
        self.classes[at].come(self.changes);
    }

    // Where the class of this record stands, if it is there.
    fn find(&self, pod: &Record) -> Option<usize>
        ensures { IfSome result (λ at. at < length self.now.classes.items) }
    {
        for at in 0..self.classes.len() {
            if self.classes[at].pod.as_slice() == pod.as_bytes() {
                return Some(at);
            }
        }
        None
    }

    // Looks at the age of the next class in turn.
    fn let_one_grow_old(&mut self)
        ensures { (plugins : List Ready) → KeptHolds plugins self.old → KeptHolds plugins self.new }
    {
        let count = self.classes.len();
        if count == 0 {
            return;
        }
        let at = self.turn % count;
        self.turn = at + 1;
        self.classes[at].grow_old(self.changes);
    }

    // How many lines all classes have.
    fn count_lines(&self) -> usize {
        let mut count = 0usize;
        for class in &self.classes {
            count = count.saturating_add(class.lines.len());
        }
        count
    }

    // A class comes, and takes the place of one that came before where there are 64, or many lines.
    fn take_in(&mut self, pod: &Record) -> usize
        ensures { (plugins : List Ready) → KeptHolds plugins self.old → KeptHolds plugins self.new }
    {
        let mut own = Vec::new(self.alloc);
        let count = self.classes.len();
        if own.extend_from_slice(pod.as_bytes()).is_err() {
            return count;
        }
        let class = Class {
            pod: own,
            of_all: no_answers(),
            lines: Vec::new(self.alloc),
            shown: 0,
            changes: self.changes,
        };
        if count == 0 || count < MAX_CLASSES && self.count_lines() < MAX_LINES {
            let _full = self.classes.push(class);
            return count;
        }
        let at = self.next % count;
        self.classes[at] = class;
        self.next = at + 1;
        at
    }

    /// What is known of a node with so much used, for the class of the pods whose record of version
    /// 3 this is.
    pub fn show(&mut self, spot: Spot, pod: &Record, node: &SharedNode, used: &Res) -> Sighted
        ensures keeps { (plugins : List Ready) → KeptHolds plugins self.old → KeptHolds plugins self.new }
        ensures known { (plugins : List Ready) → KeptHolds plugins self.old →
            Holds plugins pod.now node.now used.now result.known }
        ensures of_all { (plugins : List Ready) → KeptHolds plugins self.old →
            AnswersHold (HearOfAll plugins pod.now) result.of_all }
    {
        let sighted = self.look_up(spot, pod, node, used);
        self.count(sighted.is_changed);
        sighted
    }

    // Counts a row that has changed.
    fn count(&mut self, is_changed: bool)
        ensures { self.new.classes ≡ self.old.classes }
    {
        if is_changed {
            self.changes = self.changes.wrapping_add(1);
        }
    }

    // What is known of a node, as it was kept.
    fn look_up(&mut self, spot: Spot, pod: &Record, node: &SharedNode, used: &Res) -> Sighted
        ensures keeps { (plugins : List Ready) → KeptHolds plugins self.old → KeptHolds plugins self.new }
        ensures known { (plugins : List Ready) → KeptHolds plugins self.old →
            Holds plugins pod.now node.now used.now result.known }
        ensures of_all { (plugins : List Ready) → KeptHolds plugins self.old →
            AnswersHold (HearOfAll plugins pod.now) result.of_all }
    {
        if !self.is_of(spot.class, pod) {
            return Sighted {
                line: spot.line,
                of_all: no_answers(),
                known: nothing(),
                is_changed: false,
            };
        }
        self.classes[spot.class].show(spot.next, node, used)
    }

    /// Notes what a rule said of a node with so much used, for the class of the pods whose record
    /// of version 3 this is.
    pub fn note(
        &mut self,
        spot: Spot,
        pod: &Record,
        node: &SharedNode,
        used: &Res,
        place: usize,
        heard: Heard,
        reach: Reach,
    )
        requires { place < 16 }
        ensures { (plugins : List Ready) → KeptHolds plugins self.old →
            NewlyHeard plugins pod.now node.now used.now place heard reach → KeptHolds plugins self.new }
    {
        if !self.is_of(spot.class, pod) {
            return;
        }
        self.classes[spot.class].note(spot.line, node, used, place, heard, reach);
    }

    // Whether a class is there and has this record.
    fn is_of(&self, class: usize, pod: &Record) -> bool
        ensures there { IsTrue result → class < length self.now.classes.items }
        ensures pod { IsTrue result → IfSome (slice_get self.now.classes.items class) (λ c. c.pod.items ≡ pod.now) }
    {
        class < self.classes.len() && self.classes[class].pod.as_slice() == pod.as_bytes()
    }
}
