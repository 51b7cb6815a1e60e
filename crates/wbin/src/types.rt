//! Types from bytes (WebAssembly Core 1.0, 5.3).
#![tactic(auto, unfolding(crate::specs::inside::Reading::Reads))]

ghost use Rattle.std.specs.Prelude.{◌≡◌, ◌≢◌, ℕ, ◌+◌, ◌<◌, ◌≤◌, Bool, List, [], ◌∷◌, length, take, drop, map, Option, MatchOption};
ghost use Rattle.wcode.specs.declared.value.ValueType.{ValueType};
ghost use Rattle.wmodule.specs.declared.module.Limits.{Limits};
ghost use Rattle.wmodule.specs.declared.module.GlobalType.{GlobalType};
ghost use Rattle.wmodule.specs.declared.module.ImportKind.{ImportKind};
ghost use Rattle.wmodule.specs.declared.module.ExportKind.{ExportKind};
ghost use Rattle.wmodule.specs.Syntax.{Signature, signature_of};
ghost use Rattle.wmodule.specs.Grammar.{Byte, value_type_byte, SpellsValueType, SpellsResults, SpellsFunctionType, SpellsLimits, SpellsTableType, mutable_byte, SpellsMutable, SpellsGlobalType, SpellsImportKind, export_byte, SpellsExportKind};
ghost use Rattle.wbin.specs.inside.Reading.{Nothing, Once, Reads};
ghost use Rattle.wbin.specs.inside.Unique.{value_type_once, results_once, function_type_once, limits_once, table_type_once, mutable_once, global_type_once, import_kind_once, export_kind_once};

use crate::placeless::{Both, Entry, Many, byte_at, expect_byte, malformed, read_index};
use std::alloc::Global;
use wcode::{BinFault, Kind, ValueType};
use wmodule::{ExportKind, FunctionType, GlobalType, ImportKind, Limits};

/// A value type. Those of floats are refused as `Float`.
impl Entry for ValueType {
    type Out = ValueType;

    ghost Syntax = { ValueType };

    ghost seen = { λ t. t };

    ghost spells = { SpellsValueType };

    fn read(_alloc: Global, bytes: &[u8], at: usize) -> Result<(ValueType, usize), BinFault> {
        let byte = byte_at(bytes, at)?;
        match value_type_of(byte) {
            Some(t) => Ok((t, at + 1)),
            None => Err(no_value_type(byte, at)),
        }
    }

    ghost once = { value_type_once };
}

fn value_type_of(byte: u8) -> Option<ValueType>
    ensures { MatchOption result ((t : ValueType) → value_type_byte t ≡ byte → ⊥) (λ t. value_type_byte t ≡ byte) }
{
    match byte {
        0x7F => Some(ValueType::I32),
        0x7E => Some(ValueType::I64),
        _ => None,
    }
}

// What is wrong with a byte that is no value type.
#[cold]
fn no_value_type(byte: u8, at: usize) -> BinFault {
    match byte {
        0x7D | 0x7C => BinFault::Float,
        _ => malformed(Kind::BadType, at),
    }
}

/// What a function gives: a vector of at most one value type.
pub struct Results;

impl Entry for Results {
    type Out = Option<ValueType>;

    ghost Syntax = { Option ValueType };

    ghost seen = { λ t. t };

    ghost spells = { SpellsResults };

    fn read(
        alloc: Global,
        bytes: &[u8],
        at: usize,
    ) -> Result<(Option<ValueType>, usize), BinFault> {
        let (count, next) = read_index(bytes, at)?;
        if count == 0 {
            Ok((None, next))
        } else if count == 1 {
            let (t, end) = ValueType::read(alloc, bytes, next)?;
            Ok((Some(t), end))
        } else {
            Err(malformed(Kind::BadType, at))
        }
    }

    ghost once = { results_once };
}

impl Entry for FunctionType {
    type Out = FunctionType;

    ghost Syntax = { Signature };

    ghost seen = { signature_of };

    ghost spells = { SpellsFunctionType };

    fn read(alloc: Global, bytes: &[u8], at: usize) -> Result<(FunctionType, usize), BinFault> {
        expect_byte(bytes, at, 0x60)?;
        let (found, end) = <Both<Many<ValueType>, Results>>::read(alloc, bytes, at + 1)?;
        let (parameters, result) = found;
        Ok((FunctionType { parameters, result }, end))
    }

    ghost once = { function_type_once };
}

impl Entry for Limits {
    type Out = Limits;

    ghost Syntax = { Limits };

    ghost seen = { λ l. l };

    ghost spells = { SpellsLimits };

    fn read(alloc: Global, bytes: &[u8], at: usize) -> Result<(Limits, usize), BinFault> {
        let byte = byte_at(bytes, at)?;
        if byte == 0 {
            let (least, end) = read_index(bytes, at + 1)?;
            Ok((Limits { least, most: None }, end))
        } else if byte == 1 {
            let ((least, most), end) = <Both<u32, u32>>::read(alloc, bytes, at + 1)?;
            let most = Some(most);
            Ok((Limits { least, most }, end))
        } else {
            Err(malformed(Kind::BadType, at))
        }
    }

    ghost once = { limits_once };
}

/// A table of functions: its limits.
pub struct TableType;

impl Entry for TableType {
    type Out = Limits;

    ghost Syntax = { Limits };

    ghost seen = { λ l. l };

    ghost spells = { SpellsTableType };

    fn read(alloc: Global, bytes: &[u8], at: usize) -> Result<(Limits, usize), BinFault> {
        expect_byte(bytes, at, 0x70)?;
        Limits::read(alloc, bytes, at + 1)
    }

    ghost once = { table_type_once };
}

/// Whether a global can be written.
pub struct Mutability;

impl Entry for Mutability {
    type Out = bool;

    ghost Syntax = { Bool };

    ghost seen = { λ m. m };

    ghost spells = { SpellsMutable };

    fn read(_alloc: Global, bytes: &[u8], at: usize) -> Result<(bool, usize), BinFault> {
        match mutability_of(byte_at(bytes, at)?) {
            Some(mutable) => Ok((mutable, at + 1)),
            None => Err(malformed(Kind::BadType, at)),
        }
    }

    ghost once = { mutable_once };
}

fn mutability_of(byte: u8) -> Option<bool>
    ensures { MatchOption result ((m : Bool) → mutable_byte m ≡ byte → ⊥) (λ m. mutable_byte m ≡ byte) }
{
    match byte {
        0 => Some(false),
        1 => Some(true),
        _ => None,
    }
}

impl Entry for GlobalType {
    type Out = GlobalType;

    ghost Syntax = { GlobalType };

    ghost seen = { λ g. g };

    ghost spells = { SpellsGlobalType };

    fn read(alloc: Global, bytes: &[u8], at: usize) -> Result<(GlobalType, usize), BinFault> {
        let ((value, mutable), end) = <Both<ValueType, Mutability>>::read(alloc, bytes, at)?;
        Ok((GlobalType { value, mutable }, end))
    }

    ghost once = { global_type_once };
}

impl Entry for ImportKind {
    type Out = ImportKind;

    ghost Syntax = { ImportKind };

    ghost seen = { λ k. k };

    ghost spells = { SpellsImportKind };

    fn read(alloc: Global, bytes: &[u8], at: usize) -> Result<(ImportKind, usize), BinFault> {
        let byte = byte_at(bytes, at)?;
        read_imported(alloc, bytes, at, byte)
    }

    ghost once = { import_kind_once };
}

// What is imported, behind the byte of its kind at `at`.
fn read_imported(
    alloc: Global,
    bytes: &[u8],
    at: usize,
    byte: u8,
) -> Result<(ImportKind, usize), BinFault>
    requires within { at < length bytes.now }
    requires byte { drop at bytes.now ≡ byte ∷ drop (at + 1) bytes.now }
    ensures { Reads SpellsImportKind (λ k. k) bytes.now at result }
{
    let next = at + 1;
    if byte == 0 {
        let (signature, end) = read_index(bytes, next)?;
        Ok((ImportKind::Function(signature), end))
    } else if byte == 1 {
        let (limits, end) = TableType::read(alloc, bytes, next)?;
        Ok((ImportKind::Table(limits), end))
    } else if byte == 2 {
        let (limits, end) = Limits::read(alloc, bytes, next)?;
        Ok((ImportKind::Memory(limits), end))
    } else if byte == 3 {
        let (global, end) = GlobalType::read(alloc, bytes, next)?;
        Ok((ImportKind::Global(global), end))
    } else {
        Err(malformed(Kind::BadType, at))
    }
}

impl Entry for ExportKind {
    type Out = ExportKind;

    ghost Syntax = { ExportKind };

    ghost seen = { λ k. k };

    ghost spells = { SpellsExportKind };

    fn read(_alloc: Global, bytes: &[u8], at: usize) -> Result<(ExportKind, usize), BinFault> {
        match export_kind_of(byte_at(bytes, at)?) {
            Some(kind) => Ok((kind, at + 1)),
            None => Err(malformed(Kind::BadType, at)),
        }
    }

    ghost once = { export_kind_once };
}

fn export_kind_of(byte: u8) -> Option<ExportKind>
    ensures { MatchOption result ((k : ExportKind) → export_byte k ≡ byte → ⊥) (λ k. export_byte k ≡ byte) }
{
    match byte {
        0 => Some(ExportKind::Function),
        1 => Some(ExportKind::Table),
        2 => Some(ExportKind::Memory),
        3 => Some(ExportKind::Global),
        _ => None,
    }
}
