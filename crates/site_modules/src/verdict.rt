//! What is found of a module, and the line that tells it.
ghost use Rattle.std.specs.Prelude.{◌≡◌, ◌≢◌, ◌⊎◌, IfErr, IfOk};
ghost use Rattle.wmodule.specs.Grammar.{Spells};
ghost use Rattle.wmodule.specs.Syntax.{module_of};
ghost use Rattle.wtype.specs.Accepted as accepted;
ghost use Rattle.fault_line.specs.declared.refusal.Refusal.TheVariants.{Undecoded, Untyped};
ghost use Rattle.site_modules.specs.Verdict.{IsUnaccepted, IsVerdictOn, status_for, verdict_line};

use fault_line::{Message, Refusal, push, push_refusal};
use std::alloc::{AllocError, Global};
use wbin::decode;
use wcode::BinFault;
use wmodule::Module;
use wtype::{Checked, TypeFault, validate};

/// What is found of a module.
#[derive(Clone, Copy)]
pub enum Verdict {
    /// The module is accepted.
    Accepted,
    /// It is refused, or the bytes spell none.
    Refused(Refusal),
}

impl Verdict {
    /// The exit status that tells it.
    pub fn status(self) -> u8
        ensures { result ≡ status_for self }
    {
        match self {
            Verdict::Accepted => 0,
            Verdict::Refused(_) => 1,
        }
    }
}

/// Why no accepted module was had from bytes.
#[derive(Clone, Copy)]
pub enum Unaccepted {
    /// They deserve none.
    Refused(Refusal),
    /// No memory was left, which says nothing of them.
    NoMemory,
}

/// The accepted module that the bytes spell: it is decoded and validated.
pub fn accepted_in(alloc: Global, bytes: &[u8]) -> Result<Checked, Unaccepted>
    ensures spells { IfOk result (λ checked. Spells bytes.now (module_of checked.content)) }
    ensures accepted { IfOk result (λ checked. accepted.Accepted (module_of checked.content)) }
    ensures refused { IfErr result (IsUnaccepted bytes.now) }
{
    match decode(alloc, bytes) {
        Ok(decoded) => validated(alloc, decoded),
        Err(fault) => Err(undecoded(fault)),
    }
}

// The module, where it is accepted.
fn validated(alloc: Global, decoded: Module) -> Result<Checked, Unaccepted>
    ensures content { IfOk result (λ checked. checked.content ≡ decoded) }
    ensures accepted { IfOk result (λ checked. accepted.Accepted (module_of decoded)) }
    ensures refused { (bytes : _) → Spells bytes (module_of decoded) → IfErr result (IsUnaccepted bytes) }
{
    match validate(alloc, decoded) {
        Ok(checked) => Ok(checked),
        Err(fault) => Err(untyped(fault)),
    }
}

// What a decoder's fault says of the bytes.
#[tactic(auto, using(crate::proofs::Verdicts::malformed_says, crate::proofs::Verdicts::float_says))]
fn undecoded(fault: BinFault) -> Unaccepted
    ensures { ((fault ≡ BinFault.NoMemory) × (result ≡ Unaccepted.NoMemory))
        ⊎ ((fault ≢ BinFault.NoMemory) × (result ≡ Unaccepted.Refused (Undecoded fault))) }
{
    match fault {
        BinFault::Malformed { .. } | BinFault::Float => {
            Unaccepted::Refused(Refusal::Undecoded(fault))
        }
        BinFault::NoMemory => Unaccepted::NoMemory,
    }
}

// What a fault of typing says of the module.
#[tactic(auto, using(crate::proofs::Verdicts::untyped_says, crate::proofs::Verdicts::import_says, crate::proofs::Verdicts::export_says, crate::proofs::Verdicts::limit_says))]
fn untyped(fault: TypeFault) -> Unaccepted
    ensures { ((fault ≡ TypeFault.NoMemory) × (result ≡ Unaccepted.NoMemory))
        ⊎ ((fault ≢ TypeFault.NoMemory) × (result ≡ Unaccepted.Refused (Untyped fault))) }
{
    match fault {
        TypeFault::Untyped { .. }
        | TypeFault::BadImport
        | TypeFault::BadExport
        | TypeFault::OverLimit => Unaccepted::Refused(Refusal::Untyped(fault)),
        TypeFault::NoMemory => Unaccepted::NoMemory,
    }
}

/// Whether the bytes are an accepted module.
///
/// Errors: want of memory alone.
pub fn verdict_on(alloc: Global, bytes: &[u8]) -> Result<Verdict, AllocError>
    ensures { IfOk result (IsVerdictOn bytes.now) }
{
    match accepted_in(alloc, bytes) {
        Ok(_) => Ok(Verdict::Accepted),
        Err(Unaccepted::Refused(why)) => Ok(Verdict::Refused(why)),
        Err(Unaccepted::NoMemory) => Err(AllocError),
    }
}

/// The line that tells a verdict.
#[tactic(auto, unfolding(crate::specs::Verdict::verdict_line))]
pub fn line_of(verdict: Verdict) -> Message
    ensures { result.items ≡ verdict_line verdict }
{
    let mut message = Message::new();
    match verdict {
        Verdict::Accepted => push(&mut message, b"accepted"),
        Verdict::Refused(why) => push_refusal(&mut message, why),
    }
    push(&mut message, b"\n");
    message
}
