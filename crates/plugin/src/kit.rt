//! A kit: one instance of each plugin.
ghost use Rattle.std.specs.Prelude.{◌≡◌, ◌<◌, ◌≤◌, length, IfErr, IfOk, IfSome, slice_get};
ghost use Rattle.std.specs.List.{All};
ghost use Rattle.plugin.specs.Plugins.{IsWeight};
ghost use Rattle.rules.specs.Verdict.{IsWithin};
ghost use Rattle.plugin.specs.Kit.{IsKitOf, ready_parts, IsAtImage, FilterSays, ScoreSays, OnlyItsStore};
ghost use Rattle.plugin.specs.Refused.{WhyNoKit};

use crate::fault::KitFault;
use crate::instances::Instances;
use crate::kit_rules::KitRules;
use crate::plugins::Plugins;
use rules::{FilterVerdict, ScoreVerdict};
use std::alloc::Global;
use std::marker::Model;
use whost::Records;

/// One instance of each plugin, in the order in which they are configured. It takes all its room
/// when it is made. A thread needs a kit of its own, which can be moved to another thread; all kits
/// of the same plugins say the same.
#[derive(Drop)]
pub struct Kit {
    instances: Instances,
}

impl Model for Kit {
    ghost use Rattle.std.specs.Prelude.{List};
    ghost use Rattle.std.specs.Coded.{codes};
    ghost use Rattle.plugin.specs.Kit.{InstanceState};

    ghost Value = { List InstanceState };

    ghost coded = { Prim.hlevel codes };

    ghost view = { λ kit. kit.instances };
}

impl Kit {
    /// A kit of these plugins, each of whose instances is at its image.
    ///
    /// # Errors
    ///
    /// The first plugin of which no instance can be made, and why.
    pub fn new(alloc: Global, plugins: &Plugins) -> Result<Kit, KitFault>
        ensures made { IfOk result (λ kit. IsKitOf plugins.now (ready_parts kit)) }
        ensures at_image { IfOk result (All IsAtImage) }
        ensures refused { IfErr result (WhyNoKit plugins.now) }
    {
        match Instances::new(alloc, plugins) {
            Ok(instances) => Ok(Kit { instances }),
            Err(fault) => Err(fault),
        }
    }

    /// The kit as a set of rules.
    pub fn rules(self) -> KitRules
        ensures { result ≡ ready_parts self }
    {
        let Kit { instances } = self;
        KitRules::new(instances)
    }

    /// How many plugins there are: at most 16.
    pub fn count(&self) -> usize
        ensures value { result ≡ length self.now }
        ensures most { result ≤ 16 }
    {
        self.instances.count()
    }

    /// How much the score of the plugin at a place counts: 1 to 10.
    pub fn weight(&self, place: usize) -> u8
        requires { place < length self.now }
        ensures value { IfSome (slice_get self.now place) (λ i. result ≡ i.ready.weight) }
        ensures within { IsWeight result }
    {
        self.instances.weight(place)
    }

    /// Asks the filter of the plugin at a place, from its image. A plugin without one lets the node
    /// pass. No other instance changes, and of this one only the store, also where the call is cut
    /// off.
    pub fn filter(&mut self, place: usize, records: &Records) -> FilterVerdict
        requires { place < length self.old }
        ensures says { IfSome (slice_get self.old place) (λ i. FilterSays i.ready records.now result) }
        ensures others { OnlyItsStore place self.old self.new }
    {
        self.instances.filter(place, records)
    }

    /// Asks the score of the plugin at a place, from its image. A plugin without one gives 0. No
    /// other instance changes, and of this one only the store, also where the call is cut off.
    pub fn score(&mut self, place: usize, records: &Records) -> ScoreVerdict
        requires { place < length self.old }
        ensures says { IfSome (slice_get self.old place) (λ i. ScoreSays i.ready records.now result) }
        ensures within { IsWithin result }
        ensures others { OnlyItsStore place self.old self.new }
    {
        self.instances.score(place, records)
    }
}
