//! The decoder of WebAssembly modules (WebAssembly Core 1.0, 5.5), which finds a module in bytes or
//! tells why they spell none, and the law that they spell one at most. `wmodule` says what a module
//! is.
//!
//! - `section` finds where each section stands, before any is read.
//! - `placeless` reads things that the bytes alone tell, as a name; `placed` things that tell where
//!   they stand, as an expression; both have vectors of them.
//! - `types`, `section_entries` and `code` are made of these: the entries of each section.
//! - `decoder` reads section by section, and gives the module or the first fault.
#![tactic(auto)]

mod code;
mod decoder;
mod laws;
mod placed;
mod placeless;
mod section;
mod section_entries;
mod types;

pub use decoder::{LONGEST, decode};
pub use laws::{function_at_index, one_module};
pub use wmodule::{
    DataSegment, ElementSegment, Export, ExportKind, FunctionCode, FunctionType, GlobalType,
    GlobalVariable, Import, ImportKind, Limits, LocalRun, Module, Place, Tables,
};
