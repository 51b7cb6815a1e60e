//! One instance of each plugin of a site.
ghost use Rattle.std.specs.Prelude.{◌≡◌, ◌<◌, ◌≤◌, ◌↔◌, length, IfErr, IfOk, IfSome, IsSome, IsTrue, slice_get};
ghost use Rattle.std.specs.List.{All};
ghost use Rattle.plugin.specs.Plugins.{IsWeight};
ghost use Rattle.rules.specs.Verdict.{IsWithin};
ghost use Rattle.plugin.specs.Kit.{IsKitOf, ready_parts, IsAtImage, FilterSays, ScoreSays, OnlyItsStore, called};
ghost use Rattle.plugin.specs.Refused.{WhyNoKit};
ghost use Rattle.whost.specs.declared.records.Records.{Records as Handed};
ghost use Rattle.whost.specs.Handed.{told_of};
ghost use Rattle.row_record.specs.Record.{pod_bytes3};
ghost use Rattle.plugin.specs.inside.Asked.{Reaches};

use crate::asked::Asked;
use crate::fault::KitFault;
use crate::member::{Member, Spent};
use crate::plugins::Plugins;
use crate::told::Told;
use quant::{Pod, Res, SharedNode};
use rules::{FilterVerdict, ScoreVerdict};
use std::alloc::Global;
use std::marker::Model;
use whost::{Record, Records};
use wmach::Export;

/// One instance of each plugin, in the order in which they are configured: what a `Kit` and its
/// rules have. They take all their room when they are made.
///
/// All of it is for this crate alone: whoever names rules names these too, and then all that their
/// public calls name. So the table in `Plugins` stays out of the libraries above.
pub struct Instances {
    alloc: Global,
    members: Vec<Member>,
    // By what its plugins are told, where it has one.
    told: Option<Box<Told>>,
}

impl Model for Instances {
    ghost use Rattle.std.specs.Prelude.{List, ◌<◌, length, IsSome};
    ghost use Rattle.std.specs.Coded.{codes};
    ghost use Rattle.plugin.specs.Kit.{InstanceState};
    ghost use Rattle.plugin.specs.inside.Kit.{AreInstances};

    ghost Value = { List InstanceState };

    ghost coded = { Prim.hlevel codes };

    ghost view = { λ instances. instances.members.items };

    ghost invariant = { λ instances. AreInstances instances.members.items
        × (0 < length instances.members.items → IsSome instances.told) };
}

// By hand, so that who drops them calls this, and its parts' drops are proved here alone.
impl Drop for Instances {
    fn drop(self) {
        let Self {
            alloc: _,
            members: _members,
            told: _told,
        } = self;
    }
}

impl Instances {
    /// An instance of each of these plugins, at its image.
    ///
    /// # Errors
    ///
    /// The first plugin of which no instance can be made, and why.
    pub(crate) fn new(alloc: Global, plugins: &Plugins) -> Result<Instances, KitFault>
        ensures made { IfOk result (λ kit. IsKitOf plugins.now (ready_parts kit)) }
        ensures at_image { IfOk result (All IsAtImage) }
        ensures refused { IfErr result (WhyNoKit plugins.now) }
    {
        let mut members = Vec::new(alloc);
        for place in 0..plugins.count() {
            match plugins.make_ready(alloc, place, &mut members) {
                Ok(()) => {}
                Err(fault) => return Err(fault),
            }
        }
        match plugins.room_to_tell(alloc) {
            Ok(told) => Ok(Instances {
                alloc,
                members,
                told,
            }),
            Err(fault) => Err(fault),
        }
    }

    /// How many plugins there are: at most 16.
    pub(crate) fn count(&self) -> usize
        ensures value { result ≡ length self.now }
        ensures most { result ≤ 16 }
    {
        self.members.len()
    }

    /// How much the score of the plugin at a place counts: 1 to 10.
    pub(crate) fn weight(&self, place: usize) -> u8
        requires { place < length self.now }
        ensures value { IfSome (slice_get self.now place) (λ i. result ≡ i.ready.weight) }
        ensures within { IsWeight result }
    {
        self.members[place].weight()
    }

    /// Whether the plugin at a place has this to be called.
    pub(crate) fn has(&self, place: usize, export: Export) -> bool
        requires { place < length self.now }
        ensures { IfSome (slice_get self.now place) (λ i. IsTrue result ↔ IsSome (called i.ready export)) }
    {
        self.members[place].has(export)
    }

    /// Where its memory is from.
    pub(crate) fn alloc(&self) -> Global {
        self.alloc
    }

    /// How much fuel its calls have used so far.
    pub(crate) fn spent(&self) -> Spent {
        let mut spent = Spent::nothing();
        for member in &self.members {
            spent.add(member.spent());
        }
        spent
    }

    /// What the filter of the plugin at a place says of a pod, whose record of version 3 is
    /// `class`, and of a node, and how far that reaches. Only its store may change.
    pub(crate) fn ask_filter(
        &mut self,
        place: usize,
        pod: &Pod,
        class: &Record,
        node: &SharedNode,
        used: &Res,
    ) -> Asked<FilterVerdict>
        requires there { place < length self.old }
        requires class { class.now ≡ pod_bytes3 pod.now }
        ensures says { IfSome (slice_get self.old place) (λ i. (other : Handed) →
            Reaches result.reach (told_of pod.now node.now used.now) other → FilterSays i.ready other result.said) }
        ensures few { place < 16 }
        ensures others { OnlyItsStore place self.old self.new }
    {
        let told = self.told.as_mut().unwrap();
        told.tell(pod, class, node, used);
        self.members[place].ask_filter(told.records())
    }

    /// Asks the filter of the plugin at a place, from its image. A plugin without one lets the node
    /// pass. No other instance changes, and of this one only the store, also where the call is cut
    /// off.
    pub(crate) fn filter(&mut self, place: usize, records: &Records) -> FilterVerdict
        requires { place < length self.old }
        ensures says { IfSome (slice_get self.old place) (λ i. FilterSays i.ready records.now result) }
        ensures others { OnlyItsStore place self.old self.new }
    {
        self.members[place].filter(records)
    }

    /// What the score of the plugin at a place says likewise, and how far that reaches. Only its
    /// store may change.
    pub(crate) fn ask_score(
        &mut self,
        place: usize,
        pod: &Pod,
        class: &Record,
        node: &SharedNode,
        used: &Res,
    ) -> Asked<ScoreVerdict>
        requires there { place < length self.old }
        requires class { class.now ≡ pod_bytes3 pod.now }
        ensures says { IfSome (slice_get self.old place) (λ i. (other : Handed) →
            Reaches result.reach (told_of pod.now node.now used.now) other → ScoreSays i.ready other result.said) }
        ensures few { place < 16 }
        ensures within { IsWithin result.said }
        ensures others { OnlyItsStore place self.old self.new }
    {
        let told = self.told.as_mut().unwrap();
        told.tell(pod, class, node, used);
        self.members[place].ask_score(told.records())
    }

    /// Asks the score of the plugin at a place, from its image. A plugin without one gives 0. No
    /// other instance changes, and of this one only the store, also where the call is cut off.
    pub(crate) fn score(&mut self, place: usize, records: &Records) -> ScoreVerdict
        requires { place < length self.old }
        ensures says { IfSome (slice_get self.old place) (λ i. ScoreSays i.ready records.now result) }
        ensures within { IsWithin result }
        ensures others { OnlyItsStore place self.old self.new }
    {
        self.members[place].score(records)
    }
}
