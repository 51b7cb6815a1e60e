//! A plugin of a kit: its instance, and how it is asked.
ghost use Rattle.std.specs.Prelude.{◌≡◌, ◌↔◌, IfErr, IfOk, IfSome, IsSome, IsTrue};
ghost use Rattle.std.specs.Arc.{arc_value};
ghost use Rattle.wmodule.specs.Syntax.{module_of};
ghost use Rattle.whost.specs.Image.{IsImage};
ghost use Rattle.whost.specs.declared.records.Records.{Records as Told};
ghost use Rattle.whost.specs.declared.records.Versions.{Versions};
ghost use Rattle.whost.specs.Handed.{LookAlike};
ghost use Rattle.plugin.specs.inside.Asked.{Reaches};
ghost use Rattle.whost.specs.Refused.{WhyRefused};
ghost use Rattle.rules.specs.Verdict.{IsWithin};
ghost use Rattle.plugin.specs.Kit.{FilterSays, ScoreSays, IsAtImage, called};

use crate::asked::{Asked, Habit, Reach};
use crate::said::Said;
use crate::verdict::{filter_verdict, fuel_used, score_verdict};
use rules::{FilterVerdict, ScoreVerdict};
use std::alloc::Global;
use std::marker::Model;
use std::sync::Arc;
use whost::{Instance, InstanceFault, Records, Shows};
use wmach::{Export, Outcome};
use wtype::Checked;

/// How much fuel calls have used, from 2^64 on from 0 again.
#[derive(Clone, Copy)]
pub struct Spent {
    pub all: u64,
    /// As much of that as calls have used that were shown no node.
    pub once: u64,
}

/// An instance of a plugin's module, how much the plugin's score counts, the fuel of each of its
/// calls, and how much these have used so far, which contracts don't see.
#[derive(Drop)]
pub struct Member {
    weight: u8,
    fuel: u64,
    spent: Spent,
    instance: Instance,
    // What its filter and its score said of all nodes.
    filter: Said<FilterVerdict>,
    score: Said<ScoreVerdict>,
    // How much they asked for lately.
    filter_habit: Habit,
    score_habit: Habit,
}

impl Model for Member {
    ghost use Rattle.std.specs.Coded.{codes};
    ghost use Rattle.plugin.specs.Kit.{InstanceState};

    ghost Value = { InstanceState };

    ghost coded = { Prim.hlevel codes };

    ghost view = { λ m. record {
      ready = record { weight = m.weight; fuel = m.fuel; content = m.instance.content; image = m.instance.image };
      store = m.instance.store;
    } };

    ghost use Rattle.plugin.specs.inside.Member.{IsSound};

    ghost invariant = { IsSound };
}

impl Spent {
    /// None.
    pub fn nothing() -> Spent {
        Spent { all: 0, once: 0 }
    }

    /// Counts what other calls have used.
    pub fn add(&mut self, other: Spent) {
        self.all = self.all.wrapping_add(other.all);
        self.once = self.once.wrapping_add(other.once);
    }

    // Counts the fuel of a call, and apart that of one that was shown no node.
    fn count(&mut self, outcome: Outcome, shows: Shows) {
        let fuel = fuel_used(outcome);
        self.all = self.all.wrapping_add(fuel);
        if shows == Shows::Class || shows == Shows::ThisPod {
            self.once = self.once.wrapping_add(fuel);
        }
    }
}

impl Member {
    /// Makes an instance of the module. Its start function has the fuel of a call.
    pub fn new(
        alloc: Global,
        weight: u8,
        fuel: u64,
        checked: Arc<Checked>,
    ) -> Result<Member, InstanceFault>
        ensures weight { IfOk result (λ m. m.ready.weight ≡ weight) }
        ensures fuel { IfOk result (λ m. m.ready.fuel ≡ fuel) }
        ensures content { IfOk result (λ m. m.ready.content ≡ (arc_value checked).content) }
        ensures image { IfOk result (λ m. IsImage (module_of (arc_value checked).content) fuel m.ready.image) }
        ensures at_image { IfOk result IsAtImage }
        ensures refused { IfErr result (WhyRefused (module_of (arc_value checked).content) fuel) }
    {
        let Ok(filter) = Said::new(alloc) else {
            return Err(InstanceFault::NoMemory);
        };
        let Ok(score) = Said::new(alloc) else {
            return Err(InstanceFault::NoMemory);
        };
        match Instance::new(alloc, checked, fuel) {
            Ok(instance) => Ok(Member {
                weight,
                fuel,
                spent: Spent::nothing(),
                instance,
                filter,
                score,
                filter_habit: Habit::new(),
                score_habit: Habit::new(),
            }),
            Err(fault) => Err(fault),
        }
    }

    /// How much its score counts.
    pub fn weight(&self) -> u8
        ensures { result ≡ self.now.ready.weight }
    {
        self.weight
    }

    /// Whether it has this to be called.
    pub fn has(&self, export: Export) -> bool
        ensures { IsTrue result ↔ IsSome (called self.now.ready export) }
    {
        self.instance.has(export)
    }

    /// How much fuel its calls have used so far.
    pub fn spent(&self) -> Spent {
        self.spent
    }

    /// What its filter says, and how far that reaches: it is shown as little of the records as it
    /// was content with lately, and then more.
    pub fn ask_filter(&mut self, records: &Records) -> Asked<FilterVerdict>
        ensures says { (told : Told) → Reaches result.reach records.now told → FilterSays self.old.ready told result.said }
        ensures stays { self.new ≡ record self.old { store = self.new.store } }
    {
        let next = self.filter_habit.next();
        if let Some(said) = self.filter_within(records, next, Reach::Class, Shows::Class) {
            return Asked {
                said,
                reach: Reach::Class,
            };
        }
        if let Some(said) = self.filter_within(records, next, Reach::Row, Shows::ClassAndRow) {
            return Asked {
                said,
                reach: Reach::Row,
            };
        }
        if let Some(said) = self.filter_of_all(records) {
            return Asked {
                said,
                reach: Reach::Here,
            };
        }
        if let Some(said) = self.filter_within(records, next, Reach::Node, Shows::ClassAndNode) {
            return Asked {
                said,
                reach: Reach::Node,
            };
        }
        Asked {
            said: self.filter(records),
            reach: Reach::Here,
        }
    }

    // What its filter says where it asks for no more than is shown, which lets that reach as far as
    // this, if it may.
    fn filter_within(
        &mut self,
        records: &Records,
        next: Reach,
        far: Reach,
        shows: Shows,
    ) -> Option<FilterVerdict>
        ensures says { IfSome result (λ said. (told : Told) → LookAlike shows records.now told →
            FilterSays self.old.ready told said) }
        ensures stays { self.new ≡ record self.old { store = self.new.store } }
    {
        if !next.allows(far) {
            return None;
        }
        let said = self.filter_shown(records, shows);
        self.filter_habit.note(said.is_some(), far);
        said
    }

    // What its filter says where it asks for no more than is shown.
    fn filter_shown(&mut self, records: &Records, shows: Shows) -> Option<FilterVerdict>
        ensures says { IfSome result (λ said. (told : Told) → LookAlike shows records.now told →
            FilterSays self.old.ready told said) }
        ensures stays { self.new ≡ record self.old { store = self.new.store } }
    {
        if !self.instance.has(Export::Filter) {
            return Some(FilterVerdict::Passes);
        }
        match self
            .instance
            .call_shown(records, shows, Export::Filter, self.fuel)
        {
            Some(outcome) => {
                self.spent.count(outcome, shows);
                Some(filter_verdict(outcome))
            }
            None => None,
        }
    }

    /// What its filter says of this pod and all nodes, where it doesn't ask for the node, and where
    /// that is known or is found out now: by a call that isn't shown a node.
    fn filter_of_all(&mut self, records: &Records) -> Option<FilterVerdict>
        ensures says { IfSome result (λ said. (node : Versions) →
            FilterSays self.old.ready (record records.now { node = node }) said) }
        ensures stays { self.new ≡ record self.old { store = self.new.store } }
    {
        if let Some(said) = self.filter.of(records) {
            return Some(said);
        }
        if self.filter.waits() {
            return None;
        }
        let said = self.filter_shown(records, Shows::ThisPod);
        self.filter.note(records, said);
        said
    }

    /// Asks its filter, from the image. A module without one lets the node pass. Of the instance
    /// only the store may change.
    pub fn filter(&mut self, records: &Records) -> FilterVerdict
        ensures says { FilterSays self.old.ready records.now result }
        ensures stays { self.new ≡ record self.old { store = self.new.store } }
    {
        if !self.instance.has(Export::Filter) {
            return FilterVerdict::Passes;
        }
        let outcome = self.instance.call(records, Export::Filter, self.fuel);
        self.spent.count(outcome, Shows::All);
        filter_verdict(outcome)
    }

    /// What its score says, and how far that reaches: it is shown as little of the records as it
    /// was content with lately, and then more.
    pub fn ask_score(&mut self, records: &Records) -> Asked<ScoreVerdict>
        ensures says { (told : Told) → Reaches result.reach records.now told → ScoreSays self.old.ready told result.said }
        ensures within { IsWithin result.said }
        ensures stays { self.new ≡ record self.old { store = self.new.store } }
    {
        let next = self.score_habit.next();
        if let Some(said) = self.score_within(records, next, Reach::Class, Shows::Class) {
            return Asked {
                said,
                reach: Reach::Class,
            };
        }
        if let Some(said) = self.score_within(records, next, Reach::Row, Shows::ClassAndRow) {
            return Asked {
                said,
                reach: Reach::Row,
            };
        }
        if let Some(said) = self.score_of_all(records) {
            return Asked {
                said,
                reach: Reach::Here,
            };
        }
        if let Some(said) = self.score_within(records, next, Reach::Node, Shows::ClassAndNode) {
            return Asked {
                said,
                reach: Reach::Node,
            };
        }
        Asked {
            said: self.score(records),
            reach: Reach::Here,
        }
    }

    // What its score says where it asks for no more than is shown, which lets that reach as far as
    // this, if it may.
    fn score_within(
        &mut self,
        records: &Records,
        next: Reach,
        far: Reach,
        shows: Shows,
    ) -> Option<ScoreVerdict>
        ensures says { IfSome result (λ said. (told : Told) → LookAlike shows records.now told →
            ScoreSays self.old.ready told said) }
        ensures within { IfSome result IsWithin }
        ensures stays { self.new ≡ record self.old { store = self.new.store } }
    {
        if !next.allows(far) {
            return None;
        }
        let said = self.score_shown(records, shows);
        self.score_habit.note(said.is_some(), far);
        said
    }

    // What its score says where it asks for no more than is shown.
    fn score_shown(&mut self, records: &Records, shows: Shows) -> Option<ScoreVerdict>
        ensures says { IfSome result (λ said. (told : Told) → LookAlike shows records.now told →
            ScoreSays self.old.ready told said) }
        ensures within { IfSome result IsWithin }
        ensures stays { self.new ≡ record self.old { store = self.new.store } }
    {
        if !self.instance.has(Export::Score) {
            return Some(ScoreVerdict::Good(0));
        }
        match self
            .instance
            .call_shown(records, shows, Export::Score, self.fuel)
        {
            Some(outcome) => {
                self.spent.count(outcome, shows);
                Some(score_verdict(outcome))
            }
            None => None,
        }
    }

    /// What its score says of this pod and all nodes, where it doesn't ask for the node, and where
    /// that is known or is found out now: by a call that isn't shown a node.
    fn score_of_all(&mut self, records: &Records) -> Option<ScoreVerdict>
        ensures says { IfSome result (λ said. (node : Versions) →
            ScoreSays self.old.ready (record records.now { node = node }) said) }
        ensures within { IfSome result IsWithin }
        ensures stays { self.new ≡ record self.old { store = self.new.store } }
    {
        if let Some(said) = self.score.of(records) {
            return Some(said);
        }
        if self.score.waits() {
            return None;
        }
        let said = self.score_shown(records, Shows::ThisPod);
        self.score.note(records, said);
        said
    }

    /// Asks its score, from the image. A module without one gives 0. Of the instance only the store
    /// may change.
    pub fn score(&mut self, records: &Records) -> ScoreVerdict
        ensures says { ScoreSays self.old.ready records.now result }
        ensures within { IsWithin result }
        ensures stays { self.new ≡ record self.old { store = self.new.store } }
    {
        if !self.instance.has(Export::Score) {
            return ScoreVerdict::Good(0);
        }
        let outcome = self.instance.call(records, Export::Score, self.fuel);
        self.spent.count(outcome, Shows::All);
        score_verdict(outcome)
    }
}
