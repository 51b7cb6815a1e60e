//! A module from bytes (WebAssembly Core 1.0, 5.5.15).
#![tactic(auto, unfolding(crate::specs::inside::Reading::Reads, crate::specs::inside::Decoded::ReadsWhole, crate::specs::inside::Decoded::AssemblesTo))]

ghost use Rattle.std.specs.Prelude.{◌≡◌, ◌≢◌, ℕ, ◌<◌, ◌≤◌, List, [], ◌∷◌, ◌++◌, All, length, take, drop, map, find, ◌==◌, Option, Some, None, IfOk, IfErr, OnErr};
ghost use Rattle.wcode.specs.declared.fault.BinFault.TheVariants.{NoMemory};
ghost use Rattle.wmodule.specs.Syntax.{ModuleSyntax, module_of};
ghost use Rattle.wmodule.specs.Grammar.{Lists, Starts, contents_of, header, Spells};
ghost use Rattle.wmodule.specs.Placed.{Stands};
ghost use Rattle.wbin.specs.inside.Ids.{id_of};
ghost use Rattle.wbin.specs.inside.Outline.{section_of, Within};
ghost use Rattle.wbin.specs.inside.Decoded.{ReadsWhole, AssemblesTo};

use crate::placed::{Part, Plain, Vector};
use crate::placeless::{malformed, truncated};
use crate::section::{SectionId, Stretch, fenced, find_sections};
use crate::types::TableType;
use std::alloc::Global;
use wcode::{BinFault, Kind};
use wmodule::{
    DataSegment, ElementSegment, Export, FunctionCode, FunctionType, GlobalVariable, Import,
    Limits, Module, Tables,
};

/// How many bytes a module has at most.
pub const LONGEST: usize = 1_048_576;

/// Reads a module: one of the first edition, with the integer types and instructions alone, of at
/// most `LONGEST` bytes, which it copies once. It takes time and memory in proportion to the bytes,
/// whatever counts they tell.
///
/// Bytes that spell no module are refused by their first fault, with its place in them. A section's
/// size that passes their end is told before what is wrong inside the section; that the functions
/// and the bodies aren't as many is told last, at the end. Floats are refused as `Float`.
pub fn decode(alloc: Global, bytes: &[u8]) -> Result<Module, BinFault>
    ensures module { IfOk result (λ m. Spells bytes.now (module_of m)) }
    ensures bytes { IfOk result (λ m. m.bytes ≡ bytes.now) }
    ensures none { IfErr result (λ e. e ≢ NoMemory → (m : ModuleSyntax) → Spells bytes.now m → ⊥) }
{
    let tables = read_tables(alloc, bytes)?;
    let Ok(copy) = Vec::from_slice(alloc, bytes) else {
        return Err(BinFault::NoMemory);
    };
    Ok(Module::new(copy, tables))
}

// What the module has, and where it is in the bytes.
fn read_tables(alloc: Global, bytes: &[u8]) -> Result<Tables, BinFault>
    ensures tables { IfOk result (λ t. Stands bytes.now t) }
    ensures none { IfErr result (λ e. e ≢ NoMemory → (m : ModuleSyntax) → Spells bytes.now m → ⊥) }
{
    check_header(bytes)?;
    let Ok(found) = find_sections(alloc, bytes, 8) else {
        return Err(BinFault::NoMemory);
    };
    assemble(alloc, bytes, found.sections.as_slice(), found.fault)
}

// The length of the bytes, and their first eight.
fn check_header(bytes: &[u8]) -> Result<(), BinFault>
    ensures short { IfOk result (λ u. length bytes.now ≤ 1048576) }
    ensures whole { IfOk result (λ u. 8 ≤ length bytes.now) }
    ensures headed { IfOk result (λ u. bytes.now ≡ header ++ drop 8 bytes.now) }
    ensures none { OnErr result (length bytes.now ≤ 1048576 → (rest : List ℕ) → bytes.now ≡ header ++ rest → ⊥) }
{
    if bytes.len() > LONGEST {
        return Err(malformed(Kind::TooLong, 0));
    }
    if bytes.len() < 4 {
        return Err(truncated(bytes));
    }
    if !(bytes[0] == 0x00 && bytes[1] == 0x61 && bytes[2] == 0x73 && bytes[3] == 0x6D) {
        return Err(malformed(Kind::BadMagic, 0));
    }
    if bytes.len() < 8 {
        return Err(truncated(bytes));
    }
    if !(bytes[4] == 0x01 && bytes[5] == 0x00 && bytes[6] == 0x00 && bytes[7] == 0x00) {
        return Err(malformed(Kind::BadVersion, 4));
    }
    Ok(())
}

// What the module of the sections has, which a fault may follow.
fn assemble(
    alloc: Global,
    bytes: &[u8],
    sections: &[Stretch],
    fault: Option<BinFault>,
) -> Result<Tables, BinFault>
    requires { All (Within bytes.now) sections.now }
    ensures { AssemblesTo bytes.now (map (section_of bytes.now) sections.now) fault result }
{
    let types = read_list::<Plain<FunctionType>>(alloc, bytes, sections, SectionId::Type)?;
    let imports = read_list::<Plain<Import>>(alloc, bytes, sections, SectionId::Import)?;
    let signatures = read_list::<Plain<u32>>(alloc, bytes, sections, SectionId::Function)?;
    let tables = read_list::<Plain<TableType>>(alloc, bytes, sections, SectionId::Table)?;
    let memories = read_list::<Plain<Limits>>(alloc, bytes, sections, SectionId::Memory)?;
    let globals = read_list::<GlobalVariable>(alloc, bytes, sections, SectionId::Global)?;
    let exports = read_list::<Plain<Export>>(alloc, bytes, sections, SectionId::Export)?;
    let start = read_start(alloc, bytes, sections)?;
    let element_segments = read_list::<ElementSegment>(alloc, bytes, sections, SectionId::Element)?;
    let codes = read_list::<FunctionCode>(alloc, bytes, sections, SectionId::Code)?;
    let data_segments = read_list::<DataSegment>(alloc, bytes, sections, SectionId::Data)?;
    match fault {
        Some(fault) => return Err(fault),
        None => {}
    }
    if signatures.len() != codes.len() {
        return Err(malformed(Kind::CountMismatch, bytes.len()));
    }
    Ok(Tables {
        types,
        imports,
        signatures,
        tables,
        memories,
        globals,
        exports,
        start,
        element_segments,
        codes,
        data_segments,
    })
}

// What the section of this number lists; nothing where there is none.
fn read_list<P: Part>(
    alloc: Global,
    bytes: &[u8],
    sections: &[Stretch],
    id: SectionId,
) -> Result<Vec<P::Out>, BinFault>
    requires { All (Within bytes.now) sections.now }
    ensures read { ReadsWhole (Lists P.spells (contents_of (id_of id) (map (section_of bytes.now) sections.now)))
        (λ v. map (P.seen bytes.now) v.items) result }
    ensures placed { IfOk result (λ v. All (P.placed bytes.now) v.items) }
{
    match find_section(sections, id) {
        Some(section) => read_filling::<Vector<P>>(alloc, bytes, section),
        None => Ok(Vec::new(alloc)),
    }
}

// The index of the function that runs first, if there is one.
fn read_start(alloc: Global, bytes: &[u8], sections: &[Stretch]) -> Result<Option<u32>, BinFault>
    requires { All (Within bytes.now) sections.now }
    ensures { ReadsWhole (Starts (contents_of 8 (map (section_of bytes.now) sections.now))) (λ s. s) result }
{
    match find_section(sections, SectionId::Start) {
        Some(section) => {
            let index = read_filling::<Plain<u32>>(alloc, bytes, section)?;
            Ok(Some(index))
        }
        None => Ok(None),
    }
}

// The section of this number.
fn find_section(sections: &[Stretch], id: SectionId) -> Option<Stretch>
    ensures { result ≡ find (λ s. s.id == id_of id) sections.now }
{
    let number = id.number();
    sections.iter().copied().find(|s| s.id == number)
}

// What fills a section.
fn read_filling<P: Part>(alloc: Global, bytes: &[u8], section: Stretch) -> Result<P::Out, BinFault>
    requires { Within bytes.now section }
    ensures read { ReadsWhole (λ x. P.spells (drop section.start (take section.end bytes.now)) x []) (P.seen bytes.now)
        result }
    ensures placed { IfOk result (P.placed bytes.now) }
{
    match P::read(alloc, &bytes[..section.end], section.start) {
        Ok((found, end)) => {
            if end != section.end {
                return Err(malformed(Kind::BadSection, section.at));
            }
            Ok(found)
        }
        Err(fault) => Err(fenced(fault, bytes, section.at)),
    }
}
