//! A site's plugins: from what the words configure and what the files have to kits.
ghost use Rattle.std.specs.Prelude.{◌≡◌, ◌<◌, ◌^◌, length, map, IfErr, IfOk, IfSome, OnOk};
ghost use Rattle.wmodule.specs.Syntax.{module_of};
ghost use Rattle.wmodule.specs.Grammar.{Spells};
ghost use Rattle.wtype.specs.Accepted.{Accepted};
ghost use Rattle.plugin.specs.Entries.{configuration_of, configurations_of};
ghost use Rattle.plugin.specs.Kit.{rules_of};
ghost use Rattle.choose.specs.Kits.{JudgeAlike};
ghost use Rattle.command.specs.Within.{AreWithinLimits};
ghost use Rattle.command.specs.Words.{syntax_of};
ghost use Rattle.fault_line.specs.Excerpt.{excerpt_of};
ghost use Rattle.site_modules.specs.Modules.{IsToldAs, AreFromFiles, ArePlugins, AreSiteKits, IsPlugin, ModuleRefused, WhyNoModules, WhyNoPlugin, WhyNoSite, named_of};
ghost use Rattle.site_modules.specs.inside.Modules.{WhyNoModule};
ghost use Rattle.site_modules.specs.Verdict.{front_of};

use crate::folder::Files;
use crate::verdict::{Unaccepted, accepted_in};
use command::Spec;
use fault_line::{Cause, Fault, FileFault, PluginUnread, Refusal, excerpt_of};
use output_lines::NamedRule;
use plugin::{Configuration, KitFault, KitRules, NoKits, Plugin, kits_are_alike, kits_of};
use quant::Name;
use std::alloc::{AllocError, Global};
use std::sync::Arc;
use streams::RunFault;
use wbin::LONGEST;
use whost::InstanceFault;
use wtype::Checked;

// Want of memory.
const NO_MEMORY: Fault = Fault::Run(RunFault::NoMemory);

/// So many kits of the plugins that are configured, each with the module in its file's bytes.
///
/// Errors: `Plugin` with the first plugin whose module is refused. All modules are read before an
/// instance of any is made. `NoMemory` says nothing of them.
pub fn site_kits(
    alloc: Global,
    specs: &[Spec<'_>],
    modules: &[Vec<u8>],
    many: usize,
) -> Result<Vec<KitRules>, Fault>
    requires specs { AreWithinLimits specs.now }
    requires modules { length modules.now ≡ length specs.now }
    ensures made { IfOk result (λ kits. AreSiteKits (map syntax_of specs.now) (map (λ m. m.items) modules.now) many
        kits.items) }
    ensures alike { IfOk result (λ kits. JudgeAlike rules_of kits.items) }
    ensures refused { IfErr result (WhyNoSite (map syntax_of specs.now) (map (λ m. m.items) modules.now)) }
{
    let site = match configured(alloc, specs, modules) {
        Ok(site) => site,
        Err(fault) => return Err(fault),
    };
    match kits_of(alloc, site.as_slice(), many) {
        Ok(kits) => {
            kits_are_alike();
            Ok(kits)
        }
        Err(NoKits::NotReady(fault)) => Err(not_ready(fault)),
        Err(NoKits::NoMemory) => Err(NO_MEMORY),
    }
}

// The plugins that are configured, each with its module.
fn configured(
    alloc: Global,
    specs: &[Spec<'_>],
    modules: &[Vec<u8>],
) -> Result<Vec<Configuration>, Fault>
    requires { length modules.now ≡ length specs.now }
    ensures made { IfOk result (λ site. ArePlugins (map syntax_of specs.now) (map (λ m. m.items) modules.now)
        (configurations_of site.items)) }
    ensures refused { IfErr result (ModuleRefused (map syntax_of specs.now) (map (λ m. m.items) modules.now)) }
{
    let mut site = Vec::new(alloc);
    for place in 0..specs.len() {
        let configuration = match configured_by(alloc, &specs[place], modules[place].as_slice()) {
            Ok(configuration) => configuration,
            Err(fault) => return Err(fault),
        };
        if site.push(configuration).is_err() {
            return Err(NO_MEMORY);
        }
    }
    Ok(site)
}

// A plugin with the module in these bytes.
fn configured_by(alloc: Global, spec: &Spec<'_>, bytes: &[u8]) -> Result<Configuration, Fault>
    ensures made { IfOk result (λ it. IsPlugin (syntax_of spec.now) bytes.now (configuration_of it)) }
    ensures refused { IfErr result (WhyNoPlugin spec.now.name bytes.now) }
{
    let checked = match checked_from(alloc, &spec.name, bytes) {
        Ok(checked) => checked,
        Err(fault) => return Err(fault),
    };
    let Ok(checked) = Arc::new(alloc, checked) else {
        return Err(NO_MEMORY);
    };
    Ok(Configuration {
        plugin: Plugin {
            name: spec.name.copied(),
            weight: spec.weight,
            fuel: spec.fuel,
        },
        checked,
    })
}

// The accepted module in the bytes that a plugin of this name has.
fn checked_from(alloc: Global, name: &Name, bytes: &[u8]) -> Result<Checked, Fault>
    ensures spells { IfOk result (λ checked. Spells bytes.now (module_of checked.content)) }
    ensures accepted { IfOk result (λ checked. Accepted (module_of checked.content)) }
    ensures refused { IfErr result (WhyNoPlugin name.now bytes.now) }
{
    match accepted_in(alloc, bytes) {
        Ok(checked) => Ok(checked),
        Err(Unaccepted::Refused(why)) => Err(Fault::Plugin(name.copied(), why)),
        Err(Unaccepted::NoMemory) => Err(NO_MEMORY),
    }
}

// What is told where there is no kit.
fn not_ready(fault: KitFault) -> Fault
    ensures { IsToldAs fault result }
{
    match fault.fault {
        InstanceFault::NoMemory => NO_MEMORY,
        why => Fault::Plugin(fault.plugin, Refusal::NotReady(why)),
    }
}

/// The modules of plugins, each as its file has it, in the plugins' order. Of a file no more is
/// read than tells that it is longer than a module may be.
///
/// Errors: `Unread` with the first plugin whose file can't be opened or read, and `NoMemory`.
pub fn modules_in<F: Files>(
    alloc: Global,
    specs: &[Spec<'_>],
    files: &mut F,
) -> Result<Vec<Vec<u8>>, Fault>
    requires { F.failure_count files.old < 10 ^ 18 }
    ensures modules { IfOk result (λ modules. AreFromFiles (F.contents files.old) (map syntax_of specs.now)
        (map (λ m. m.items) modules.items)) }
    ensures failed { IfErr result (WhyNoModules (map syntax_of specs.now) (F.failure_count files.old)
        (F.failure_count files.new)) }
    ensures read { OnOk result (F.failure_count files.new ≡ F.failure_count files.old) }
{
    let mut modules = Vec::new(alloc);
    for place in 0..specs.len() {
        let module = match module_in(alloc, &specs[place], files) {
            Ok(module) => module,
            Err(fault) => return Err(fault),
        };
        if modules.push(module).is_err() {
            return Err(NO_MEMORY);
        }
    }
    Ok(modules)
}

// The module of a plugin, as its file has it.
fn module_in<F: Files>(alloc: Global, spec: &Spec<'_>, files: &mut F) -> Result<Vec<u8>, Fault>
    requires { F.failure_count files.old < 10 ^ 18 }
    ensures front { IfOk result (λ bytes. IfSome (F.contents files.old spec.now.file.now) (λ whole. bytes.items
        ≡ front_of whole)) }
    ensures failed { IfErr result (WhyNoModule (syntax_of spec.now) (F.failure_count files.old)
        (F.failure_count files.new)) }
    ensures read { OnOk result (F.failure_count files.new ≡ F.failure_count files.old) }
    ensures same { F.contents files.new ≡ F.contents files.old }
{
    match files.read_front(alloc, spec.file, LONGEST + 1) {
        Ok(bytes) => Ok(bytes),
        Err(RunFault::NoMemory) => Err(NO_MEMORY),
        Err(_) => Err(Fault::Unread(PluginUnread {
            plugin: spec.name.copied(),
            fault: file_fault(spec.file, files.cause()),
        })),
    }
}

/// The plugins' names and weights, in order.
///
/// Errors: `AllocError`, where no memory is left.
pub fn named_in(alloc: Global, specs: &[Spec<'_>]) -> Result<Vec<NamedRule>, AllocError>
    ensures { IfOk result (λ named. named.items ≡ named_of (map syntax_of specs.now)) }
{
    let mut named = Vec::new(alloc);
    for place in 0..specs.len() {
        let spec = &specs[place];
        let rule = NamedRule {
            name: spec.name.copied(),
            weight: spec.weight,
        };
        if named.push(rule).is_err() {
            return Err(AllocError);
        }
    }
    Ok(named)
}

/// That the file of this name couldn't be opened or read.
pub(crate) fn file_fault(name: &str, cause: Cause) -> FileFault
    ensures { result.file.items ≡ excerpt_of name.now }
{
    FileFault {
        file: excerpt_of(name.as_bytes()),
        cause,
    }
}
