//! What a WebAssembly module is (WebAssembly Core 1.0, 2.5 and 5.5): its bytes, and tables of what it
//! has and where that is in them; and which bytes spell one. No tree of instructions is made: what
//! the places spell is said by contract.
#![tactic(auto)]

mod module;

pub use module::{
    DataSegment, ElementSegment, Export, ExportKind, FunctionCode, FunctionType, GlobalType,
    GlobalVariable, Import, ImportKind, Limits, LocalRun, Module, Place, Tables,
};
