//! The parts of a module (WebAssembly Core 1.0, 2.5).

ghost use Rattle.std.specs.Prelude.{◌≡◌};
ghost use Rattle.wmodule.specs.Placed.{Stands};

use std::marker::Model;
use wcode::{Block, ValueType};

/// What a function takes, and what it gives, if anything.
#[derive(Drop)]
pub struct FunctionType {
    pub parameters: Vec<ValueType>,
    pub result: Option<ValueType>,
}

/// The size at first, and the greatest one, if there is one: in pages of 65,536 bytes for a memory,
/// in elements for a table.
#[derive(Clone, Copy)]
pub struct Limits {
    pub least: u32,
    pub most: Option<u32>,
}

/// What a global holds, and whether it can be written.
#[derive(Clone, Copy)]
pub struct GlobalType {
    pub value: ValueType,
    pub mutable: bool,
}

/// What kind of thing is imported: a function with the index of its type, or another with its type.
#[derive(Clone, Copy)]
pub enum ImportKind {
    Function(u32),
    Table(Limits),
    Memory(Limits),
    Global(GlobalType),
}

/// An import: the names, in UTF-8, of a module and of a thing in it.
#[derive(Drop)]
pub struct Import {
    pub module: Vec<u8>,
    pub name: Vec<u8>,
    pub kind: ImportKind,
}

/// As many locals of one type. Runs of one function may have more than 2^32 locals in all.
#[derive(Clone, Copy)]
pub struct LocalRun {
    pub count: u32,
    pub value: ValueType,
}

/// An expression in the module's bytes: the place of its first opcode, and the place behind the
/// `end` that closes it.
#[derive(Clone, Copy)]
pub struct Place {
    pub begin: usize,
    pub end: usize,
}

/// A function without its type: its locals behind the parameters, where its body is, and the blocks
/// of the body in the order of the opcodes that open them.
#[derive(Drop)]
pub struct FunctionCode {
    pub locals: Vec<LocalRun>,
    pub body: Place,
    pub blocks: Vec<Block>,
}

/// A global of the module, and where the expression of its first value is.
#[derive(Clone, Copy)]
pub struct GlobalVariable {
    pub kind: GlobalType,
    pub first: Place,
}

/// What kind of thing is exported.
#[derive(Clone, Copy)]
pub enum ExportKind {
    Function,
    Table,
    Memory,
    Global,
}

/// An export: its name, in UTF-8, and the index of the thing. Functions count the imported ones
/// first.
#[derive(Drop)]
pub struct Export {
    pub name: Vec<u8>,
    pub kind: ExportKind,
    pub index: u32,
}

/// Indices of functions that are written into a table, from the offset that an expression gives.
#[derive(Drop)]
pub struct ElementSegment {
    pub table: u32,
    pub offset: Place,
    pub functions: Vec<u32>,
}

/// Bytes that are written into a memory, from the offset that an expression gives: those of the
/// module from `contents.begin` to `contents.end`.
#[derive(Clone, Copy)]
pub struct DataSegment {
    pub memory: u32,
    pub offset: Place,
    pub contents: Place,
}

/// What a module has, section by section. There are as many signatures, the indices of the
/// functions' types, as codes. `start` is the index of the function that runs first, if there is
/// one.
pub struct Tables {
    pub types: Vec<FunctionType>,
    pub imports: Vec<Import>,
    pub signatures: Vec<u32>,
    pub tables: Vec<Limits>,
    pub memories: Vec<Limits>,
    pub globals: Vec<GlobalVariable>,
    pub exports: Vec<Export>,
    pub start: Option<u32>,
    pub element_segments: Vec<ElementSegment>,
    pub codes: Vec<FunctionCode>,
    pub data_segments: Vec<DataSegment>,
}

// By hand, so that who drops tables calls this, and their parts' drops are proved here alone.
impl Drop for Tables {
    fn drop(self) {
        let Self {
            types: _types,
            imports: _imports,
            signatures: _signatures,
            tables: _tables,
            memories: _memories,
            globals: _globals,
            exports: _exports,
            start: _,
            element_segments: _element_segments,
            codes: _codes,
            data_segments: _data_segments,
        } = self;
    }
}

/// A module: its bytes, and tables that say where things are in them, rightly in every module.
pub struct Module {
    bytes: Vec<u8>,
    tables: Tables,
}

impl Model for Module {
    ghost use Rattle.std.specs.Coded.{codes};
    ghost use Rattle.wmodule.specs.Syntax.{ModuleParts};
    ghost use Rattle.wmodule.specs.Placed.{Stands};

    ghost Value = { ModuleParts };

    ghost coded = { Prim.hlevel codes };

    ghost view = { λ m. record { bytes = m.bytes.items; tables = m.tables } };

    ghost invariant = { λ m. Stands m.bytes.items m.tables };
}

// By hand, so that who drops a module calls this, and its parts' drops are proved here alone.
impl Drop for Module {
    fn drop(self) {
        let Self {
            bytes: _bytes,
            tables: _tables,
        } = self;
    }
}

impl Module {
    /// The module of bytes, and of tables that say what is where in them. It is for a decoder, which
    /// has to prove that they do.
    pub fn new(bytes: Vec<u8>, tables: Tables) -> Module
        requires { Stands bytes.items tables }
        ensures value { result.bytes ≡ bytes.items }
        ensures tables { result.tables ≡ tables }
    {
        Module { bytes, tables }
    }

    /// The module's bytes.
    pub fn bytes(&self) -> &[u8]
        ensures { result.now ≡ self.now.bytes }
    {
        self.bytes.as_slice()
    }

    /// What the module has, and where it is in the bytes.
    pub fn tables(&self) -> &Tables
        ensures tables { result.now ≡ self.now.tables }
        ensures stands { Stands self.now.bytes result.now }
    {
        &self.tables
    }
}
