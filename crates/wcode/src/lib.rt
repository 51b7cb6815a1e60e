//! WebAssembly's instructions in the integer part of the standard (WebAssembly Core 1.0, 2.4 and
//! 5.4): one by one and as a tree, what each opcode stands for, readers of both from bytes, a
//! reader that passes an expression and tells where its blocks go on, why bytes are refused, and
//! the laws that they spell one instruction and one expression at most.
//!
//! - `value` and `operator` are what instructions name; `instruction` has them as they stand in the
//!   bytes (`Op`, `Plain`) and as a tree (`Instr`).
//! - `opcode` has the table of all opcodes: what each stands for, and what follows it (`Form`).
//! - `reading` reads one instruction from any bytes, or tells why none stands there: `fault`.
//! - `short` passes an instruction without others inside it, where its numbers are short.
//! - `expression` reads all up to an `end` as a tree. `skipping` passes it without one, and gives
//!   where its blocks go on: `blocks`.
//! - `known` reads instructions of which it is known that they stand there, and which they are,
//!   without a test; `several_bytes` has their longer numbers, and `ten_bytes` those of 64 bits.
//! - `laws`: at most one instruction, and one expression, is spelled.
#![tactic(auto)]

mod blocks;
mod expression;
mod fault;
mod instruction;
mod known;
mod laws;
mod opcode;
mod operator;
mod reading;
mod several_bytes;
mod short;
mod skipping;
mod ten_bytes;
mod value;

pub use blocks::Block;
pub use expression::{NESTING, read_expr};
pub use fault::{BinFault, Kind, OpFault};
pub use instruction::{Instr, MemArg, Op, Plain};
pub use known::{
    i32_at, i64_at, index_at, load_at, opening_at, plain_at, store_at, table_at, word_at,
};
pub use laws::{
    blocks_are_spelled, blocks_stay, marks_are_one_byte, one_body_at, one_expression, one_word,
};
pub use opcode::{Form, Indexed, Opening};
pub use operator::{BinOp, CvtOp, LoadOp, RelOp, Sign, StoreOp, TestOp, UnOp};
pub use reading::{read_label, read_op};
pub use skipping::{read_constant, skip_expr};
pub use value::{BlockType, Value, ValueType};
