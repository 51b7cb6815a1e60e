//! What stays as it is while code runs.

use crate::code::Code;
use wcode::ValueType;
use wmodule::{FunctionType, Import, Limits};

/// A function of a module: the index of its type, its locals behind the parameters, and its body.
#[derive(Drop)]
pub struct Function {
    pub signature: u32,
    pub locals: Vec<ValueType>,
    pub body: Code,
}

/// A module's parts that a call can reach.
#[derive(Drop)]
pub struct Program {
    pub types: Vec<FunctionType>,
    pub imports: Vec<Import>,
    pub functions: Vec<Function>,
    pub tables: Vec<Limits>,
    pub memories: Vec<Limits>,
}

/// The bytes that the host functions hand over, or none: the records of version 1, and those of
/// version 2.
#[derive(Drop)]
pub struct Records {
    pub pod: Option<Vec<u8>>,
    pub node: Option<Vec<u8>>,
    pub second_pod: Option<Vec<u8>>,
    pub second_node: Option<Vec<u8>>,
}

/// A module, and what is handed over.
#[derive(Drop)]
pub struct Setting {
    pub program: Program,
    pub records: Records,
}
