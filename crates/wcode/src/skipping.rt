//! An expression in bytes, passed without a tree of its instructions.

ghost use Rattle.std.specs.Prelude.{◌≡◌, ◌≢◌, ℕ, ◌+◌, ◌-◌, ◌<◌, ◌≤◌, List, [], ◌∷◌, ◌++◌, length, drop, slice_set, vec_len, IfOk, IfErr};
ghost use Rattle.wcode.specs.declared.fault.BinFault.TheVariants.{NoMemory};
ghost use Rattle.wcode.specs.Syntax.{Body, constant_of};
ghost use Rattle.wcode.specs.Grammar.{SpellsExpr};
ghost use Rattle.wcode.specs.Blocks.{HasBlocks};
ghost use Rattle.wcode.specs.inside.Skipped.{SkipsBody, SkipsItem, SkipsNested, SkipsArms, op_constant, op_ends};

use crate::blocks::Block;
use crate::expression::{NESTING, bad_opcode, too_deep};
use crate::fault::BinFault;
use crate::instruction::{Op, Plain};
use crate::reading::read_op;
use crate::short::{pass_short, stands_end};
use crate::value::Value;
use std::alloc::{AllocError, Global};

/// Passes the instructions from `at` on, with the bodies in them, up to the `end` that closes them
/// (WebAssembly Core 1.0, 5.4.6). Gives their blocks, in the order of the opcodes that open them,
/// and the place after that `end`.
///
/// The faults are those of `read_expr`. Memory is taken for the blocks alone.
#[tactic(auto, unfolding(crate::specs::inside::Skipped::SkipsBody))]
pub fn skip_expr(alloc: Global, bytes: &[u8], at: usize) -> Result<(Vec<Block>, usize), BinFault>
    requires { at ≤ length bytes.now }
    ensures found { IfOk result (λ x. (body : Body) × HasBlocks bytes.now at body x.1 x.0.items) }
    ensures end { IfOk result (λ x. (at < x.1) × (x.1 ≤ length bytes.now)) }
    ensures none { IfErr result (λ e. e ≢ NoMemory → (body : Body) (rest : List ℕ) →
        SpellsExpr (drop at bytes.now) body rest → ⊥) }
{
    let mut blocks = Vec::new(alloc);
    let skipped = skip_body(bytes, at, NESTING, &mut blocks)?;
    if skipped.by_else {
        return Err(bad_opcode(skipped.last));
    }
    Ok((blocks, skipped.next))
}

/// The value of an expression from `at` on, where it is one constant and no more.
pub fn read_constant(bytes: &[u8], at: usize) -> Option<Value>
    requires { at ≤ length bytes.now }
    ensures { (body : Body) (rest : List ℕ) → SpellsExpr (drop at bytes.now) body rest → result ≡ constant_of body }
{
    let Ok((op, next)) = read_op(bytes, at) else {
        return None;
    };
    let Some(value) = constant(op) else {
        return None;
    };
    let Ok((last, _)) = read_op(bytes, next) else {
        return None;
    };
    if ends(last) { Some(value) } else { None }
}

// The value of an instruction that is a constant.
fn constant(op: Op) -> Option<Value>
    ensures { result ≡ op_constant op }
{
    match op {
        Op::Plain(Plain::Const(value)) => Some(value),
        _ => None,
    }
}

// Whether this is an `end`.
fn ends(op: Op) -> bool
    ensures { result ≡ op_ends op }
{
    matches!(op, Op::End)
}

// The end of a body: whether an `else` ends it, the place of that or of its `end`, and the place
// after.
#[derive(Clone, Copy)]
struct BodyEnd {
    by_else: bool,
    last: usize,
    next: usize,
}

// The place after one instruction of a body, or after what ends it, and whether that is an `else`.
#[derive(Clone, Copy)]
enum Step {
    Passes(usize),
    Ends(bool, usize),
}

// Instructions from `at` on, in which blocks nest as deep as there is room.
#[cycle(skipped)]
#[tactic(auto, unfolding(crate::specs::inside::Skipped::SkipsBody, crate::specs::inside::Skipped::SkipsItem))]
fn skip_body(
    bytes: &[u8],
    at: usize,
    room: u32,
    blocks: &mut Vec<Block>,
) -> Result<BodyEnd, BinFault>
    requires { at ≤ length bytes.now }
    ensures { SkipsBody bytes.now room at blocks.old.items blocks.new.items result }
{
    let mut place = at;
    'items: loop {
        match skip_item(bytes, place, room, blocks)? {
            Step::Passes(next) => place = next,
            Step::Ends(by_else, next) => {
                return Ok(BodyEnd {
                    by_else,
                    last: place,
                    next,
                });
            }
        }
    }
}

// The instruction at `at`, with the bodies in it, or the word that ends a body.
#[cycle(skipped)]
#[tactic(auto, unfolding(crate::specs::inside::Skipped::SkipsItem))]
fn skip_item(bytes: &[u8], at: usize, room: u32, blocks: &mut Vec<Block>) -> Result<Step, BinFault>
    requires { at ≤ length bytes.now }
    ensures { SkipsItem bytes.now room at blocks.old.items blocks.new.items result }
{
    if let Some(next) = pass_short(bytes, at) {
        return Ok(Step::Passes(next));
    }
    if stands_end(bytes, at) {
        return Ok(Step::Ends(false, at + 1));
    }
    let (op, next) = read_op(bytes, at)?;
    match op {
        Op::Plain(_) => Ok(Step::Passes(next)),
        Op::BrTable { .. } => Ok(Step::Passes(next)),
        Op::Else => Ok(Step::Ends(true, next)),
        Op::End => Ok(Step::Ends(false, next)),
        Op::Block(_) => {
            let end = skip_nested(bytes, at, next, room, blocks)?;
            Ok(Step::Passes(end))
        }
        Op::Loop(_) => {
            let end = skip_nested(bytes, at, next, room, blocks)?;
            Ok(Step::Passes(end))
        }
        Op::If(_) => {
            let end = skip_arms(bytes, at, next, room, blocks)?;
            Ok(Step::Passes(end))
        }
    }
}

// The body inside the block or loop at `at`, from `next` on, and the place after it.
#[cycle(skipped)]
#[tactic(auto, unfolding(crate::specs::inside::Skipped::SkipsBody, crate::specs::inside::Skipped::SkipsNested))]
fn skip_nested(
    bytes: &[u8],
    at: usize,
    next: usize,
    room: u32,
    blocks: &mut Vec<Block>,
) -> Result<usize, BinFault>
    requires { next ≤ length bytes.now }
    ensures { SkipsNested bytes.now room next blocks.old.items blocks.new.items result }
{
    if room == 0 {
        return Err(too_deep(at));
    }
    let Ok(index) = open(blocks) else {
        return Err(BinFault::NoMemory);
    };
    let inner = skip_body(bytes, next, room - 1, blocks)?;
    if inner.by_else {
        return Err(bad_opcode(inner.last));
    }
    let block = Block {
        else_arm: None,
        after: inner.next,
    };
    close(blocks, index, block);
    Ok(inner.next)
}

// The bodies of the `if` at `at`, from `next` on, and the place after them.
#[cycle(skipped)]
#[tactic(auto, unfolding(crate::specs::inside::Skipped::SkipsBody, crate::specs::inside::Skipped::SkipsArms))]
fn skip_arms(
    bytes: &[u8],
    at: usize,
    next: usize,
    room: u32,
    blocks: &mut Vec<Block>,
) -> Result<usize, BinFault>
    requires { next ≤ length bytes.now }
    ensures { SkipsArms bytes.now room next blocks.old.items blocks.new.items result }
{
    if room == 0 {
        return Err(too_deep(at));
    }
    let Ok(index) = open(blocks) else {
        return Err(BinFault::NoMemory);
    };
    let first = skip_body(bytes, next, room - 1, blocks)?;
    if !first.by_else {
        let block = Block {
            else_arm: None,
            after: first.next,
        };
        close(blocks, index, block);
        return Ok(first.next);
    }
    let second = skip_body(bytes, first.next, room - 1, blocks)?;
    if second.by_else {
        return Err(bad_opcode(second.last));
    }
    let block = Block {
        else_arm: Some(first.next),
        after: second.next,
    };
    close(blocks, index, block);
    Ok(second.next)
}

// Room for a block whose end isn't known yet, and its index.
fn open(blocks: &mut Vec<Block>) -> Result<usize, AllocError>
    ensures index { IfOk result (λ index. index ≡ length blocks.old.items) }
    ensures more { IfOk result (λ index. (unset : Block) × (blocks.new.items ≡ blocks.old.items ++ unset ∷ [])) }
{
    let index = blocks.len();
    let unset = Block {
        else_arm: None,
        after: 0,
    };
    blocks.push(unset)?;
    Ok(index)
}

// Writes what is known of a block.
fn close(blocks: &mut Vec<Block>, index: usize, block: Block)
    requires { index < length blocks.old.items }
    ensures { blocks.new.items ≡ slice_set blocks.old.items index block }
{
    blocks[index] = block;
}
