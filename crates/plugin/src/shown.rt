//! What a kit notes of a pod and a node that it is shown.
ghost use Rattle.std.specs.Prelude.{◌≡◌, ◌<◌, List, Some, length, slice_get};
ghost use Rattle.whost.specs.Handed.{told_of};
ghost use Rattle.row_record.specs.Record.{pod_bytes3};
ghost use Rattle.rules.specs.Verdict.{IsWithin};
ghost use Rattle.plugin.specs.Kit.{Ready, ready_parts, FilterSays, ScoreSays};
ghost use Rattle.plugin.specs.inside.Kept.{KeptHolds, NewlyHeard};
ghost use Rattle.plugin.specs.inside.Shown.{IsOfNode};

use crate::answers::{Answers, Heard, Known, no_answers, nothing};
use crate::asked::{Asked, Reach};
use crate::instances::Instances;
use crate::kept::{Kept, Spot};
use quant::{Pod, Res, SharedNode};
use rules::{FilterVerdict, ScoreVerdict};
use whost::{Record, pod_record3};
use wmach::Export;

/// The class of a pod, which is its record of version 3, and what is known of all nodes, and of the
/// node that was shown last.
#[derive(Drop)]
pub struct Shown {
    class: Record,
    spot: Spot,
    of_all: Answers,
    known: Known,
}

impl Shown {
    /// A pod, and no node yet.
    pub fn of_pod(kept: &mut Kept, pod: &Pod) -> Shown
        ensures pod { result.class ≡ pod_bytes3 pod.now }
        ensures kept { (plugins : List Ready) → KeptHolds plugins kept.old → KeptHolds plugins kept.new }
    {
        let mut shown = Shown {
            class: Record::new(),
            spot: Spot {
                class: 0,
                line: 0,
                next: 0,
            },
            of_all: no_answers(),
            known: nothing(),
        };
        pod_record3(pod, &mut shown.class);
        shown.spot.class = kept.class_of(&shown.class);
        shown
    }

    /// Shows a node on which pods use so much: looks up what is known of it. The pod stays.
    pub fn show_node(&mut self, kept: &mut Kept, node: &SharedNode, used: &Res)
        ensures pod { self.new.class ≡ self.old.class }
        ensures node { (plugins : List Ready) → KeptHolds plugins kept.old →
            IsOfNode plugins self.new node.now used.now }
        ensures kept { (plugins : List Ready) → KeptHolds plugins kept.old → KeptHolds plugins kept.new }
    {
        let sighted = kept.show(self.spot, &self.class, node, used);
        self.spot.line = sighted.line;
        self.spot.next = sighted.line.saturating_add(1);
        self.of_all = sighted.of_all;
        self.known = sighted.known;
    }

    // Keeps what a plugin said of the node.
    fn note(
        &self,
        kept: &mut Kept,
        node: &SharedNode,
        used: &Res,
        place: usize,
        heard: Heard,
        reach: Reach,
    )
        requires { place < 16 }
        ensures { (plugins : List Ready) → KeptHolds plugins kept.old →
            NewlyHeard plugins self.now.class node.now used.now place heard reach → KeptHolds plugins kept.new }
    {
        if reach == Reach::Here {
            return;
        }
        kept.note(self.spot, &self.class, node, used, place, heard, reach);
    }

    /// What the filter of a kit's plugin says of the pod and the node that were shown: what is
    /// known of it, or what it says now.
    pub fn ask_filter(
        &self,
        kit: &mut Instances,
        kept: &mut Kept,
        place: usize,
        pod: &Pod,
        node: &SharedNode,
        used: &Res,
    ) -> FilterVerdict
        requires there { place < length kit.old }
        requires pod { self.now.class ≡ pod_bytes3 pod.now }
        requires node { IsOfNode (ready_parts kit.old) self.now node.now used.now }
        ensures says { (p : Ready) × (slice_get (ready_parts kit.old) place ≡ Some p)
            × FilterSays p (told_of pod.now node.now used.now) result }
        ensures kit { ready_parts kit.new ≡ ready_parts kit.old }
        ensures kept { KeptHolds (ready_parts kit.old) kept.old → KeptHolds (ready_parts kit.old) kept.new }
    {
        if !kit.has(place, Export::Filter) {
            return FilterVerdict::Passes;
        }
        if let Some(said) = self.of_all.filter(place) {
            return said;
        }
        if let Some(said) = self.known.filter(place) {
            return said;
        }
        let Asked { said, reach } = kit.ask_filter(place, pod, &self.class, node, used);
        self.note(kept, node, used, place, Heard::Filter(said), reach);
        said
    }

    /// What the score of a kit's plugin says of the pod and the node that were shown, likewise.
    pub fn ask_score(
        &self,
        kit: &mut Instances,
        kept: &mut Kept,
        place: usize,
        pod: &Pod,
        node: &SharedNode,
        used: &Res,
    ) -> ScoreVerdict
        requires there { place < length kit.old }
        requires pod { self.now.class ≡ pod_bytes3 pod.now }
        requires node { IsOfNode (ready_parts kit.old) self.now node.now used.now }
        ensures says { (p : Ready) × (slice_get (ready_parts kit.old) place ≡ Some p)
            × ScoreSays p (told_of pod.now node.now used.now) result }
        ensures within { IsWithin result }
        ensures kit { ready_parts kit.new ≡ ready_parts kit.old }
        ensures kept { KeptHolds (ready_parts kit.old) kept.old → KeptHolds (ready_parts kit.old) kept.new }
    {
        if !kit.has(place, Export::Score) {
            return ScoreVerdict::Good(0);
        }
        if let Some(said) = self.of_all.score(place) {
            return said;
        }
        if let Some(said) = self.known.score(place) {
            return said;
        }
        let Asked { said, reach } = kit.ask_score(place, pod, &self.class, node, used);
        self.note(kept, node, used, place, Heard::Score(said), reach);
        said
    }
}
