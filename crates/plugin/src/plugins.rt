//! The plugins that a site configures.
ghost use Rattle.std.specs.Prelude.{◌≡◌, ℕ, ◌≤◌, ◌<◌, List, ◌∷◌, ◌++◌, [], length, IfErr, IfOk, IfSome, OnErr, OnOk, Some, slice_get, IsSome, IsTrue, ◌↔◌};
ghost use Rattle.std.specs.Arc.{arc_value};
ghost use Rattle.wmodule.specs.Syntax.{module_of};
ghost use Rattle.whost.specs.Refused.{WhyRefused};
ghost use Rattle.plugin.specs.Plugins.{IsTaken, IsWeight, IsFuel};
ghost use Rattle.plugin.specs.Entries.{configured_as};
ghost use Rattle.plugin.specs.inside.Entries.{configured};
ghost use Rattle.plugin.specs.Refused.{WhyNotAdded, WhyNotReady, WhyNoKit};
ghost use Rattle.plugin.specs.inside.Kit.{OneMoreReady};

use crate::fault::{AddFault, KitFault};
use crate::member::Member;
use crate::told::Told;
use indexmap::IndexMap;
use quant::Name;
use std::alloc::Global;
use std::marker::Model;
use std::sync::Arc;
use whost::InstanceFault;
use wtype::Checked;

/// The most plugins.
pub const MAX_PLUGINS: usize = quant::MAX_PLUGINS;

/// The most that a plugin's score counts. The least is 1.
pub const MAX_WEIGHT: u8 = quant::MAX_WEIGHT;

/// The most fuel of a plugin's call. The least is 1.
pub const MAX_FUEL: u64 = quant::MAX_FUEL;

/// How a plugin is configured.
#[derive(Drop)]
pub struct Plugin {
    /// Its name, which no other plugin has.
    pub name: Name,
    /// How often its score counts, 1 to 10.
    pub weight: u8,
    /// How much fuel its start function and each of its calls have, 1 to 10^9.
    pub fuel: u64,
}

/// What is configured under a name.
#[derive(Drop)]
pub struct Entry {
    pub weight: u8,
    pub fuel: u64,
    pub checked: Arc<Checked>,
}

/// The plugins of a site, at most 16, in the order in which they were added. No two have one name.
pub struct Plugins {
    entries: IndexMap<Name, Entry>,
}

impl Model for Plugins {
    ghost use Rattle.std.specs.Prelude.{List};
    ghost use Rattle.std.specs.Coded.{codes};
    ghost use Rattle.plugin.specs.Plugins.{Configured};

    ghost Value = { List Configured };

    ghost coded = { Prim.hlevel codes };

    ghost use Rattle.plugin.specs.inside.Entries.{plugins_of, AreEntries};

    ghost view = { plugins_of };

    ghost invariant = { AreEntries };
}

// By hand, so that who drops them calls this, and their parts' drops are proved here alone.
impl Drop for Plugins {
    fn drop(self) {
        let Self { entries } = self;
        drop(entries);
    }
}

impl Plugins {
    /// No plugins.
    pub fn new(alloc: Global) -> Plugins
        ensures { result ≡ [] }
    {
        Plugins {
            entries: IndexMap::new(alloc),
        }
    }

    /// How many there are: at most 16.
    pub fn count(&self) -> usize
        ensures value { result ≡ length self.now }
        ensures most { result ≤ 16 }
    {
        self.entries.len()
    }

    /// One of them has this name.
    pub fn has(&self, name: &Name) -> bool
        ensures { IsTrue result ↔ IsTaken self.now name.now }
    {
        self.entries.contains_key(name)
    }

    /// Adds a plugin behind the others, with its module.
    ///
    /// # Errors
    ///
    /// `Twice` where one of this name is there; `Full` where none is and there are 16; `NoMemory`
    /// where there is none for one more. The plugins stay as they were then.
    pub fn add(&mut self, plugin: Plugin, checked: Arc<Checked>) -> Result<(), AddFault>
        requires weight { IsWeight plugin.weight }
        requires fuel { IsFuel plugin.fuel }
        ensures added { OnOk result (self.new ≡ self.old ++ configured_as plugin (arc_value checked).content ∷ []) }
        ensures alone { OnOk result (¬ (IsTaken self.old plugin.name)) }
        ensures room { OnOk result (length self.old < 16) }
        ensures refused { IfErr result (WhyNotAdded self.old plugin.name) }
        ensures unchanged { OnErr result (self.new ≡ self.old) }
    {
        if self.has(&plugin.name) {
            return Err(AddFault::Twice);
        }
        if self.count() == MAX_PLUGINS {
            return Err(AddFault::Full);
        }
        let entry = Entry {
            weight: plugin.weight,
            fuel: plugin.fuel,
            checked,
        };
        self.put(plugin.name, entry)
    }

    // Puts an entry behind the others, where none has its name and there is a place for it.
    fn put(&mut self, name: Name, entry: Entry) -> Result<(), AddFault>
        requires alone { ¬ (IsTaken self.old name) }
        requires room { length self.old < 16 }
        requires weight { IsWeight entry.weight }
        requires fuel { IsFuel entry.fuel }
        ensures added { OnOk result (self.new ≡ self.old ++ configured (name, entry) ∷ []) }
        ensures refused { IfErr result (λ fault. fault ≡ AddFault.NoMemory) }
        ensures unchanged { OnErr result (self.new ≡ self.old) }
    {
        if self.entries.insert(name, entry).is_err() {
            return Err(AddFault::NoMemory);
        }
        Ok(())
    }

    // The name and the entry at a place.
    fn entry(&self, place: usize) -> (&Name, &Entry)
        requires { place < length self.now }
        ensures is { slice_get self.now place ≡ Some (configured (result.0.now, result.1.now)) }
        ensures weight { IsWeight result.1.now.weight }
    {
        self.entries.get_index(place).unwrap()
    }

    /// The records by which the plugins of a kit are told, where there is a plugin.
    ///
    /// Errors: where no memory is left for them, as of the first plugin.
    pub(crate) fn room_to_tell(&self, alloc: Global) -> Result<Option<Box<Told>>, KitFault>
        ensures room { IfOk result (λ told. 0 < length self.now → IsSome told) }
        ensures refused { IfErr result (WhyNoKit self.now) }
    {
        if self.count() == 0 {
            return Ok(None);
        }
        match Box::new(alloc, Told::new()) {
            Ok(told) => Ok(Some(told)),
            Err(_) => Err(KitFault {
                plugin: self.entry(0).0.copied(),
                fault: InstanceFault::NoMemory,
            }),
        }
    }

    /// Makes the plugin at a place ready, as one more of these members.
    pub(crate) fn make_ready(
        &self,
        alloc: Global,
        place: usize,
        members: &mut Vec<Member>,
    ) -> Result<(), KitFault>
        requires { place < length self.now }
        ensures joined { OnOk result (IfSome (slice_get self.now place)
            (λ p. OneMoreReady p members.old.items members.new.items)) }
        ensures refused { IfErr result (λ fault. IfSome (slice_get self.now place) (λ p. WhyNotReady p fault)) }
    {
        let (name, entry) = self.entry(place);
        match made(alloc, entry, members) {
            Ok(()) => Ok(()),
            Err(fault) => Err(KitFault {
                plugin: name.copied(),
                fault,
            }),
        }
    }
}

// Makes an instance of an entry's module, as one more of these members.
fn made(alloc: Global, entry: &Entry, members: &mut Vec<Member>) -> Result<(), InstanceFault>
    requires { IsWeight entry.now.weight }
    ensures joined { OnOk result ((name : List ℕ) → OneMoreReady (configured (name, entry.now)) members.old.items
        members.new.items) }
    ensures refused { IfErr result (WhyRefused (module_of (arc_value entry.now.checked).content) entry.now.fuel) }
{
    // Room comes first: so a member that was made needn't be dropped.
    if members.reserve(1).is_err() {
        return Err(InstanceFault::NoMemory);
    }
    let Ok(checked) = entry.checked.clone() else {
        return Err(InstanceFault::NoMemory);
    };
    match Member::new(alloc, entry.weight, entry.fuel, checked) {
        Ok(member) => {
            members.push_reserved(member);
            Ok(())
        }
        Err(fault) => Err(fault),
    }
}
