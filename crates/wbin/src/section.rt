//! Where the sections of a module stand (WebAssembly Core 1.0, 5.5.2).
#![tactic(auto, unfolding(crate::specs::inside::Reading::Reads, crate::specs::inside::Outline::ReadsStretch))]

ghost use Rattle.std.specs.Prelude.{◌≡◌, ◌≢◌, ℕ, ◌+◌, ◌-◌, ◌<◌, ◌≤◌, ◌⊎◌, ◌↔◌, List, [], length, take, drop, map, IsTrue, IfOk, IfErr, OnErr};
ghost use Rattle.wcode.specs.declared.fault.BinFault.TheVariants.{NoMemory};
ghost use Rattle.wmodule.specs.Grammar.{Section, SpellsName, SpellsSection};
ghost use Rattle.wbin.specs.inside.Outline.{Within, ReadsStretch, Outlines};
ghost use Rattle.wbin.specs.inside.Ids.{id_of};
ghost use Rattle.wbin.specs.inside.Reading.{Nothing};

use crate::placeless::{malformed, read_bytes, read_name, truncated};
use std::alloc::{AllocError, Global};
use wcode::{BinFault, Kind};

/// The sections that a module may have once, in their order.
#[derive(Clone, Copy)]
pub enum SectionId {
    Type,
    Import,
    Function,
    Table,
    Memory,
    Global,
    Export,
    Start,
    Element,
    Code,
    Data,
}

impl SectionId {
    /// The section's number in the bytes.
    pub fn number(self) -> u8
        ensures { result ≡ id_of self }
    {
        match self {
            SectionId::Type => 1,
            SectionId::Import => 2,
            SectionId::Function => 3,
            SectionId::Table => 4,
            SectionId::Memory => 5,
            SectionId::Global => 6,
            SectionId::Export => 7,
            SectionId::Start => 8,
            SectionId::Element => 9,
            SectionId::Code => 10,
            SectionId::Data => 11,
        }
    }
}

/// A section: its number, the place of its number's byte, and the places where its contents begin
/// and end.
#[derive(Clone, Copy)]
pub struct Stretch {
    pub id: u8,
    pub at: usize,
    pub start: usize,
    pub end: usize,
}

/// The sections of a module in their order, up to the first that can't stand where it does, if
/// there is one.
#[derive(Drop)]
pub struct Outline {
    pub sections: Vec<Stretch>,
    pub fault: Option<BinFault>,
}

/// Finds the sections from `at` on.
pub fn find_sections(alloc: Global, bytes: &[u8], at: usize) -> Result<Outline, AllocError>
    requires { at ≤ length bytes.now }
    ensures { IfOk result (λ o. Outlines bytes.now at o) }
{
    let mut sections = Vec::new(alloc);
    let mut place = at;
    let mut above = 0;
    while place < bytes.len() {
        match read_stretch(bytes, place, above) {
            Ok(section) => {
                above = above.max(section.id);
                place = section.end;
                sections.push(section)?;
            }
            Err(fault) => {
                let fault = Some(fault);
                return Ok(Outline { sections, fault });
            }
        }
    }
    let fault = None;
    Ok(Outline { sections, fault })
}

// The section at `at`, before which the greatest number is `above`.
fn read_stretch(bytes: &[u8], at: usize, above: u8) -> Result<Stretch, BinFault>
    requires { at < length bytes.now }
    ensures { ReadsStretch bytes.now at above result }
{
    let id = bytes[at];
    if !may_follow(above, id) {
        return Err(malformed(Kind::BadSection, at));
    }
    let (contents, end) = read_bytes(bytes, at + 1)?;
    let start = end - contents.len();
    match check_name(&bytes[..end], start, id) {
        Ok(()) => Ok(Stretch { id, at, start, end }),
        Err(fault) => Err(fenced(fault, bytes, at)),
    }
}

// Whether a section of this number can come next, where the greatest number before it is `above`.
fn may_follow(above: u8, id: u8) -> bool
    ensures { IsTrue result ↔ (id ≡ 0 ⊎ ((above < id) × (id ≤ 11))) }
{
    id == 0 || above < id && id <= 11
}

// A custom section begins with a name.
fn check_name(bytes: &[u8], at: usize, id: u8) -> Result<(), BinFault>
    requires { at ≤ length bytes.now }
    ensures named { IfOk result (λ u. id ≡ 0 → (name rest : List ℕ) × SpellsName (drop at bytes.now) name rest) }
    ensures custom { OnErr result (id ≡ 0) }
    ensures none { OnErr result (Nothing SpellsName (drop at bytes.now)) }
    ensures memory { IfErr result (λ e. e ≢ NoMemory) }
{
    if id != 0 {
        return Ok(());
    }
    match read_name(bytes, at) {
        Ok(_) => Ok(()),
        Err(fault) => Err(fault),
    }
}

/// A fault in a section at `at`. Bytes that are wanted beyond its size are its fault, but for those
/// of a size that passes the module's end.
#[cold]
pub fn fenced(fault: BinFault, bytes: &[u8], at: usize) -> BinFault
    ensures memory { fault ≡ NoMemory → result ≡ NoMemory }
    ensures other { fault ≢ NoMemory → result ≢ NoMemory }
{
    match fault {
        BinFault::Malformed {
            kind: Kind::Truncated,
            place,
        } => {
            if place > bytes.len() {
                truncated(bytes)
            } else {
                malformed(Kind::BadSection, at)
            }
        }
        other => other,
    }
}
