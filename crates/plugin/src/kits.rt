//! All kits of a site's plugins. They are made here, so that no crate above names `Plugins`: its
//! library would carry all that is stated of the table in them.
ghost use Rattle.std.specs.Prelude.{◌≡◌, ◌<◌, ◌∷◌, ◌++◌, [], length, vec_len, IfErr, IfOk, OnOk};
ghost use Rattle.std.specs.List.{All};
ghost use Rattle.plugin.specs.Plugins.{AreWithinLimits, IsFuel, IsTaken, IsWeight};
ghost use Rattle.plugin.specs.Entries.{configuration_of, configurations_of};
ghost use Rattle.plugin.specs.Kit.{IsKitOf};
ghost use Rattle.plugin.specs.Refused.{WhyNoKits};

use crate::fault::{AddFault, NoKits};
use crate::instances::Instances;
use crate::kit_rules::KitRules;
use crate::plugins::{Plugin, Plugins};
use std::alloc::Global;
use std::sync::Arc;
use wtype::Checked;

/// A plugin and its module, as a site configures them.
pub struct Configuration {
    /// How the plugin is configured.
    pub plugin: Plugin,
    /// Its module.
    pub checked: Arc<Checked>,
}

// By hand, so that who drops one calls this, and its parts' drops are proved here alone.
impl Drop for Configuration {
    fn drop(self) {
        let Self {
            plugin: _plugin,
            checked: _checked,
        } = self;
    }
}

/// The rules of so many kits of these plugins, each of which has an instance of each.
///
/// Errors: `NotReady` with the first plugin of which no instance can be made, and why. `NoMemory`
/// says nothing of them.
pub fn kits_of(alloc: Global, site: &[Configuration], many: usize) -> Result<Vec<KitRules>, NoKits>
    requires { AreWithinLimits (configurations_of site.now) }
    ensures count { IfOk result (λ kits. vec_len kits ≡ many) }
    ensures all { IfOk result (λ kits. All (IsKitOf (configurations_of site.now)) kits.items) }
    ensures refused { IfErr result (WhyNoKits (configurations_of site.now)) }
{
    let Ok(plugins) = plugins_of(alloc, site) else {
        return Err(NoKits::NoMemory);
    };
    let mut kits = Vec::new(alloc);
    while kits.len() < many {
        let kit = match Instances::new(alloc, &plugins) {
            Ok(kit) => kit,
            Err(fault) => return Err(NoKits::NotReady(fault)),
        };
        if kits.push(KitRules::new(kit)).is_err() {
            return Err(NoKits::NoMemory);
        }
    }
    Ok(kits)
}

// The plugins of a site.
fn plugins_of(alloc: Global, site: &[Configuration]) -> Result<Plugins, NoKits>
    requires { AreWithinLimits (configurations_of site.now) }
    ensures made { IfOk result (λ plugins. plugins ≡ configurations_of site.now) }
    ensures refused { IfErr result (λ why. why ≡ NoKits.NoMemory) }
{
    let mut plugins = Plugins::new(alloc);
    for place in 0..site.len() {
        let Ok(()) = put(&site[place], &mut plugins) else {
            return Err(NoKits::NoMemory);
        };
    }
    Ok(plugins)
}

// Puts a plugin behind the others.
fn put(configuration: &Configuration, plugins: &mut Plugins) -> Result<(), NoKits>
    requires weight { IsWeight configuration.now.plugin.weight }
    requires fuel { IsFuel configuration.now.plugin.fuel }
    requires alone { ¬ (IsTaken plugins.old configuration.now.plugin.name) }
    requires room { length plugins.old < 16 }
    ensures added { OnOk result (plugins.new ≡ plugins.old ++ configuration_of configuration.now ∷ []) }
    ensures refused { IfErr result (λ why. why ≡ NoKits.NoMemory) }
{
    let Ok(checked) = configuration.checked.clone() else {
        return Err(NoKits::NoMemory);
    };
    let plugin = Plugin {
        name: configuration.plugin.name.copied(),
        weight: configuration.plugin.weight,
        fuel: configuration.plugin.fuel,
    };
    match plugins.add(plugin, checked) {
        Ok(()) => Ok(()),
        Err(AddFault::NoMemory) => Err(NoKits::NoMemory),
        Err(AddFault::Twice) => unreachable!(),
        Err(AddFault::Full) => unreachable!(),
    }
}
