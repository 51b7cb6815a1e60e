//! The entries of sections that have names, bytes or expressions in them (WebAssembly Core 1.0,
//! 5.5).
#![tactic(auto, unfolding(crate::specs::inside::Reading::Reads))]

ghost use Rattle.std.specs.Prelude.{◌≡◌, ◌≢◌, ℕ, ◌+◌, ◌<◌, ◌≤◌, List, [], ◌∷◌, length, take, drop, map, IfOk};
ghost use Rattle.wcode.specs.declared.value.ValueType.{ValueType};
ghost use Rattle.wcode.specs.declared.fault.BinFault.TheVariants.{NoMemory};
ghost use Rattle.wmodule.specs.Syntax.{ImportSyntax, GlobalSyntax, ExportSyntax, ElementSyntax, DataSyntax, import_of, export_of, global_in, element_in, data_in};
ghost use Rattle.wmodule.specs.Grammar.{SpellsName, SpellsImport, SpellsGlobal, SpellsExport, SpellsElement, SpellsData, SpellsRun};
ghost use Rattle.wmodule.specs.Placed.{IsGlobal, IsElement, IsData};
ghost use Rattle.wbin.specs.inside.Reading.{Nothing, Once, Keeps, Reads, SpellsBoth};
ghost use Rattle.wbin.specs.inside.Unique.{name_once, import_once, global_once, export_once, element_once, data_once, run_once};
ghost use Rattle.wbin.specs.inside.Kept.{global_kept, element_kept, data_kept};

use crate::placed::{Contents, Expression, Part, Plain, Then};
use crate::placeless::{Both, Entry, Many, read_name};
use std::alloc::Global;
use wcode::{BinFault, ValueType};
use wmodule::{
    DataSegment, ElementSegment, Export, ExportKind, GlobalType, GlobalVariable, Import,
    ImportKind, LocalRun,
};

/// A name, in UTF-8.
pub struct Name;

impl Entry for Name {
    type Out = Vec<u8>;

    ghost Syntax = { List ℕ };

    ghost seen = { λ v. v.items };

    ghost spells = { SpellsName };

    fn read(alloc: Global, bytes: &[u8], at: usize) -> Result<(Vec<u8>, usize), BinFault> {
        let (name, end) = read_name(bytes, at)?;
        let Ok(copy) = Vec::from_slice(alloc, name) else {
            return Err(BinFault::NoMemory);
        };
        Ok((copy, end))
    }

    ghost once = { name_once };
}

impl Entry for Import {
    type Out = Import;

    ghost Syntax = { ImportSyntax };

    ghost seen = { import_of };

    ghost spells = { SpellsImport };

    fn read(alloc: Global, bytes: &[u8], at: usize) -> Result<(Import, usize), BinFault> {
        let (found, end) = <Both<Name, Both<Name, ImportKind>>>::read(alloc, bytes, at)?;
        let (module, (name, kind)) = found;
        Ok((Import { module, name, kind }, end))
    }

    ghost once = { import_once };
}

impl Part for GlobalVariable {
    type Out = GlobalVariable;

    ghost Syntax = { GlobalSyntax };

    ghost seen = { global_in };

    ghost spells = { SpellsGlobal };

    ghost placed = { IsGlobal };

    fn read(alloc: Global, bytes: &[u8], at: usize) -> Result<(GlobalVariable, usize), BinFault> {
        let ((kind, first), end) = <Then<Plain<GlobalType>, Expression>>::read(alloc, bytes, at)?;
        Ok((GlobalVariable { kind, first }, end))
    }

    ghost once = { global_once };

    ghost kept = { global_kept };
}

impl Entry for Export {
    type Out = Export;

    ghost Syntax = { ExportSyntax };

    ghost seen = { export_of };

    ghost spells = { SpellsExport };

    fn read(alloc: Global, bytes: &[u8], at: usize) -> Result<(Export, usize), BinFault> {
        let (found, end) = <Both<Name, Both<ExportKind, u32>>>::read(alloc, bytes, at)?;
        let (name, (kind, index)) = found;
        Ok((Export { name, kind, index }, end))
    }

    ghost once = { export_once };
}

impl Part for ElementSegment {
    type Out = ElementSegment;

    ghost Syntax = { ElementSyntax };

    ghost seen = { element_in };

    ghost spells = { SpellsElement };

    ghost placed = { IsElement };

    fn read(alloc: Global, bytes: &[u8], at: usize) -> Result<(ElementSegment, usize), BinFault> {
        let ((table, offset), next) = <Then<Plain<u32>, Expression>>::read(alloc, bytes, at)?;
        let (functions, end) = <Many<u32>>::read(alloc, bytes, next)?;
        let segment = ElementSegment {
            table,
            offset,
            functions,
        };
        Ok((segment, end))
    }

    ghost once = { element_once };

    ghost kept = { element_kept };
}

impl Part for DataSegment {
    type Out = DataSegment;

    ghost Syntax = { DataSyntax };

    ghost seen = { data_in };

    ghost spells = { SpellsData };

    ghost placed = { IsData };

    fn read(alloc: Global, bytes: &[u8], at: usize) -> Result<(DataSegment, usize), BinFault> {
        let (found, end) = <Then<Plain<u32>, Then<Expression, Contents>>>::read(alloc, bytes, at)?;
        let (memory, (offset, contents)) = found;
        let segment = DataSegment {
            memory,
            offset,
            contents,
        };
        Ok((segment, end))
    }

    ghost once = { data_once };

    ghost kept = { data_kept };
}

impl Entry for LocalRun {
    type Out = LocalRun;

    ghost Syntax = { ℕ × ValueType };

    ghost seen = { λ r. (r.count, r.value) };

    ghost spells = { SpellsRun };

    fn read(alloc: Global, bytes: &[u8], at: usize) -> Result<(LocalRun, usize), BinFault> {
        let ((count, value), end) = <Both<u32, ValueType>>::read(alloc, bytes, at)?;
        Ok((LocalRun { count, value }, end))
    }

    ghost once = { run_once };
}
