//! A module that was found acceptable, and the test that finds it so.

ghost use Rattle.std.specs.Prelude.{◌≡◌, IfOk, IfErr};
ghost use Rattle.wmodule.specs.Syntax.{module_of};
ghost use Rattle.wtype.specs.Accepted.{Accepted, filter_name, score_name};
ghost use Rattle.wtype.specs.CheckedModule.{NotesAgree, index_named};
ghost use Rattle.wtype.specs.Refused.{WhyRefused};

use crate::bodies::type_bodies;
use crate::called::{Called, find_called};
use crate::imports::imports_right;
use crate::rules::are_kept;
use crate::sizes::is_small;
use std::alloc::Global;
use std::marker::Model;
use wbody::{Notes, TypeFault};
use wmodule::Module;

/// A module that is accepted, with the notes of its bodies and the functions that are called. Only
/// `validate` makes one.
pub struct Checked {
    module: Module,
    notes: Vec<Notes>,
    called: Called,
}

impl Model for Checked {
    ghost use Rattle.wcode.specs.contracts.instruction.Instr as instr;
    ghost use Rattle.std.specs.Coded.{codes};
    ghost use Rattle.wtype.specs.CheckedModule.{CheckedModule, NotesAgree, index_named};
    ghost use Rattle.wmodule.specs.Syntax.{module_of};
    ghost use Rattle.wtype.specs.Accepted.{Accepted, filter_name, score_name};
    ghost use Rattle.std.specs.Prelude.{◌≡◌};

    ghost Value = { CheckedModule };

    ghost coded = { Prim.hlevel codes };

    ghost view = { λ c. record { content = c.module; notes = c.notes.items } };

    ghost invariant = { λ c. Accepted (module_of c.module) × NotesAgree c.module c.notes.items
        × (c.called.filter ≡ index_named filter_name (module_of c.module))
        × (c.called.score ≡ index_named score_name (module_of c.module)) };
}

// By hand, so that who drops one calls this, and its parts' drops are proved here alone.
impl Drop for Checked {
    fn drop(self) {
        let Self {
            module: _module,
            notes: _notes,
            called: _,
        } = self;
    }
}

impl Checked {
    /// The module.
    pub fn module(&self) -> &Module
        ensures value { result.now ≡ self.now.content }
        ensures accepted { Accepted (module_of self.now.content) }
    {
        &self.module
    }

    /// The notes of the bodies, in the order of the functions.
    pub fn notes(&self) -> &[Notes]
        ensures value { result.now ≡ self.now.notes }
        ensures agree { NotesAgree self.now.content result.now }
    {
        self.notes.as_slice()
    }

    /// The index of the function `filter`, the imported ones counted first, if there is one.
    pub fn filter(&self) -> Option<u32>
        ensures { result ≡ index_named filter_name (module_of self.now.content) }
    {
        self.called.filter
    }

    /// The index of the function `score`, the imported ones counted first, if there is one.
    pub fn score(&self) -> Option<u32>
        ensures { result ≡ index_named score_name (module_of self.now.content) }
    {
        self.called.score
    }
}

/// Finds a module acceptable, or why it isn't: an import, then whatever breaks a rule or has no
/// typing, then the exports that are called, then the sizes. At a fault the module is given up.
pub fn validate(alloc: Global, decoded: Module) -> Result<Checked, TypeFault>
    ensures ok { IfOk result (λ checked. checked.content ≡ decoded) }
    ensures accepted { IfOk result (λ checked. Accepted (module_of decoded)) }
    ensures notes { IfOk result (λ checked. NotesAgree decoded checked.notes) }
    ensures refused { IfErr result (WhyRefused (module_of decoded)) }
    ensures whole { Accepted (module_of decoded) → IfErr result (λ fault. fault ≡ TypeFault.NoMemory) }
{
    let (notes, called) = accept(alloc, &decoded)?;
    Ok(Checked {
        module: decoded,
        notes,
        called,
    })
}

// What is kept of an acceptable module, or why it isn't one. It borrows the module, which is given
// up at a fault, so that its drop is proved once.
fn accept(alloc: Global, decoded: &Module) -> Result<(Vec<Notes>, Called), TypeFault>
    ensures accepted { IfOk result (λ kept. Accepted (module_of decoded.now)) }
    ensures notes { IfOk result (λ kept. NotesAgree decoded.now kept.0.items) }
    ensures filter { IfOk result (λ kept. kept.1.filter ≡ index_named filter_name (module_of decoded.now)) }
    ensures score { IfOk result (λ kept. kept.1.score ≡ index_named score_name (module_of decoded.now)) }
    ensures refused { IfErr result (WhyRefused (module_of decoded.now)) }
    ensures whole { Accepted (module_of decoded.now) → IfErr result (λ fault. fault ≡ TypeFault.NoMemory) }
{
    if !imports_right(decoded) {
        return Err(TypeFault::BadImport);
    }
    match are_kept(alloc, decoded) {
        Ok(true) => {}
        Ok(false) => {
            return Err(TypeFault::Untyped {
                function: None,
                place: 0,
            });
        }
        Err(_) => return Err(TypeFault::NoMemory),
    }
    let notes = type_bodies(alloc, decoded)?;
    let Some(called) = find_called(decoded) else {
        return Err(TypeFault::BadExport);
    };
    if !is_small(decoded, notes.as_slice()) {
        return Err(TypeFault::OverLimit);
    }
    Ok((notes, called))
}
