//! Instructions, one by one and as a tree (WebAssembly Core 1.0, 2.4).

use crate::operator::{BinOp, CvtOp, LoadOp, RelOp, StoreOp, TestOp, UnOp};
use crate::value::{BlockType, Value, ValueType};

/// What a load or store adds to its operand: 2 to the power `align` is the alignment that it hints
/// at, and `offset` is added to the address.
#[derive(Clone, Copy)]
pub struct MemArg {
    pub align: u32,
    pub offset: u32,
}

/// An instruction with no instructions and no list of labels in it. A label counts the blocks
/// outwards, from 0.
#[derive(Clone, Copy)]
pub enum Plain {
    Unreachable,
    Nop,
    /// To a label.
    Br(u32),
    /// To a label, where the operand isn't 0.
    BrIf(u32),
    Return,
    /// A function by its index.
    Call(u32),
    /// A function of the table, of the type with this index.
    CallIndirect(u32),
    Drop,
    Select,
    LocalGet(u32),
    LocalSet(u32),
    LocalTee(u32),
    GlobalGet(u32),
    GlobalSet(u32),
    Load(LoadOp, MemArg),
    Store(StoreOp, MemArg),
    MemorySize,
    MemoryGrow,
    Const(Value),
    Unary(ValueType, UnOp),
    Binary(ValueType, BinOp),
    Test(ValueType, TestOp),
    Relation(ValueType, RelOp),
    Convert(CvtOp),
}

/// One instruction as it stands in the bytes, without its nested body, or what ends a body.
#[derive(Clone, Copy)]
pub enum Op {
    Plain(Plain),
    Block(BlockType),
    Loop(BlockType),
    If(BlockType),
    Else,
    End,
    /// `count` labels stand in the bytes from `labels_at` on, and behind them the default label.
    BrTable { count: u32, labels_at: usize },
}

/// An instruction with its nested bodies. An `if` without `else` has an empty second body.
#[derive(Drop)]
pub enum Instr {
    Plain(Plain),
    Block(BlockType, Vec<Instr>),
    Loop(BlockType, Vec<Instr>),
    If(BlockType, Vec<Instr>, Vec<Instr>),
    /// The labels, and the default label.
    BrTable(Vec<u32>, u32),
}
