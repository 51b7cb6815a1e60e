//! A list of instructions from bytes, up to its `end`.

ghost use Rattle.std.specs.Prelude.{◌≡◌, ◌≢◌, ℕ, ◌+◌, ◌-◌, ◌<◌, ◌≤◌, List, [], ◌∷◌, ◌++◌, length, drop, IsTrue, IfOk, IfErr};
ghost use Rattle.wcode.specs.declared.fault.BinFault.TheVariants.{NoMemory};
ghost use Rattle.wcode.specs.Syntax.{Body, plain, block, loop, if_else, br_table, with_instr, body_of};
ghost use Rattle.wcode.specs.Grammar.{SpellsIndex, SpellsIndices, SpellsBody, SpellsExpr, end};
ghost use Rattle.wcode.specs.inside.Ended.{closing, SpellsArms, GivesBody, GivesItem};

use crate::fault::{BinFault, Kind};
use crate::instruction::{Instr, Op, Plain};
use crate::reading::{read_label, read_op};
use crate::value::BlockType;
use std::alloc::{AllocError, Global};

/// How deep blocks nest at most in an expression, which isn't counted itself.
pub const NESTING: u32 = 256;

/// Reads instructions from `at` on, with the bodies in them, up to the `end` that closes them
/// (WebAssembly Core 1.0, 5.4.6). Gives them, and the place after that `end`.
///
/// The faults are those of `read_op`, and TooDeep at the opcode of a block with more than 255
/// around it, BadOpcode at an `else` that no open `if` takes, and NoMemory. Memory is taken in
/// proportion to the bytes that have been read.
#[tactic(auto, unfolding(crate::specs::inside::Ended::GivesBody))]
pub fn read_expr(alloc: Global, bytes: &[u8], at: usize) -> Result<(Vec<Instr>, usize), BinFault>
    requires { at ≤ length bytes.now }
    ensures found { IfOk result (λ x. SpellsExpr (drop at bytes.now) (body_of x.0.items) (drop x.1 bytes.now)) }
    ensures end { IfOk result (λ x. x.1 ≤ length bytes.now) }
    ensures none { IfErr result (λ e. e ≢ NoMemory → (body : Body) (rest : List ℕ) →
        SpellsExpr (drop at bytes.now) body rest → ⊥) }
{
    let ended = read_body(alloc, bytes, at, NESTING)?;
    if ended.by_else {
        return Err(bad_opcode(ended.last));
    }
    Ok((ended.body, ended.next))
}

// Instructions up to the `else` or `end` at `last`.
#[derive(Drop)]
struct Ended {
    body: Vec<Instr>,
    by_else: bool,
    last: usize,
    next: usize,
}

// One instruction of a body, or what ends it, and the place after it.
#[derive(Drop)]
enum Item {
    One(Instr, usize),
    Ends(bool, usize),
}

// Instructions from `at` on, in which blocks nest as deep as there is room.
#[cycle(body)]
#[tactic(auto, unfolding(crate::specs::inside::Ended::GivesBody, crate::specs::inside::Ended::GivesItem))]
fn read_body(alloc: Global, bytes: &[u8], at: usize, room: u32) -> Result<Ended, BinFault>
    requires { at ≤ length bytes.now }
    ensures { GivesBody bytes.now room at result }
{
    let mut body = Vec::new(alloc);
    let mut place = at;
    'items: loop {
        match read_item(alloc, bytes, place, room)? {
            Item::One(instr, next) => {
                let Ok(()) = add(&mut body, instr) else {
                    return Err(BinFault::NoMemory);
                };
                place = next;
            }
            Item::Ends(by_else, next) => {
                return Ok(Ended {
                    body,
                    by_else,
                    last: place,
                    next,
                });
            }
        }
    }
}

// The instruction at `at`, with the bodies in it, or the word that ends a body.
#[cycle(body)]
#[tactic(auto, unfolding(crate::specs::inside::Ended::GivesItem))]
fn read_item(alloc: Global, bytes: &[u8], at: usize, room: u32) -> Result<Item, BinFault>
    requires { at ≤ length bytes.now }
    ensures { GivesItem bytes.now room at result }
{
    let (op, next) = read_op(bytes, at)?;
    match op {
        Op::Plain(p) => Ok(Item::One(plain_of(p), next)),
        Op::Else => Ok(Item::Ends(true, next)),
        Op::End => Ok(Item::Ends(false, next)),
        Op::Block(t) => {
            let (inner, end) = read_nested(alloc, bytes, at, next, room)?;
            Ok(Item::One(block_of(t, inner), end))
        }
        Op::Loop(t) => {
            let (inner, end) = read_nested(alloc, bytes, at, next, room)?;
            Ok(Item::One(loop_of(t, inner), end))
        }
        Op::If(t) => {
            let (yes_arm, no_arm, end) = read_arms(alloc, bytes, at, next, room)?;
            Ok(Item::One(if_of(t, yes_arm, no_arm), end))
        }
        Op::BrTable { count, labels_at } => match read_labels(alloc, bytes, labels_at, count) {
            Ok((labels, default)) => Ok(Item::One(table_of(labels, default), next)),
            Err(_) => Err(BinFault::NoMemory),
        },
    }
}

// The body inside the block or loop at `at`, from `next` on, and the place after it.
#[cycle(body)]
#[tactic(auto, unfolding(crate::specs::inside::Ended::GivesBody))]
fn read_nested(
    alloc: Global,
    bytes: &[u8],
    at: usize,
    next: usize,
    room: u32,
) -> Result<(Vec<Instr>, usize), BinFault>
    requires { next ≤ length bytes.now }
    ensures found { IfOk result (λ x. (0 < room) × SpellsBody (room - 1) end (drop next bytes.now) (body_of x.0.items)
        (drop x.1 bytes.now)) }
    ensures end { IfOk result (λ x. x.1 ≤ length bytes.now) }
    ensures none { IfErr result (λ e. e ≢ NoMemory → 0 < room → (body : Body) (rest : List ℕ) →
        SpellsBody (room - 1) end (drop next bytes.now) body rest → ⊥) }
{
    if room == 0 {
        return Err(too_deep(at));
    }
    let inner = read_body(alloc, bytes, next, room - 1)?;
    if inner.by_else {
        return Err(bad_opcode(inner.last));
    }
    Ok((inner.body, inner.next))
}

// The bodies of the `if` at `at`, from `next` on, and the place after them.
#[cycle(body)]
#[tactic(auto, unfolding(crate::specs::inside::Ended::GivesBody))]
fn read_arms(
    alloc: Global,
    bytes: &[u8],
    at: usize,
    next: usize,
    room: u32,
) -> Result<(Vec<Instr>, Vec<Instr>, usize), BinFault>
    requires { next ≤ length bytes.now }
    ensures found { IfOk result (λ x. (0 < room) × SpellsArms (room - 1) (drop next bytes.now) (body_of x.0.items)
        (body_of x.1.items) (drop x.2 bytes.now)) }
    ensures end { IfOk result (λ x. x.2 ≤ length bytes.now) }
    ensures none { IfErr result (λ e. e ≢ NoMemory → 0 < room → (a b : Body) (rest : List ℕ) →
        SpellsArms (room - 1) (drop next bytes.now) a b rest → ⊥) }
{
    if room == 0 {
        return Err(too_deep(at));
    }
    let first = read_body(alloc, bytes, next, room - 1)?;
    if !first.by_else {
        return Ok((first.body, Vec::new(alloc), first.next));
    }
    let (second, end) = read_nested(alloc, bytes, at, first.next, room)?;
    Ok((first.body, second, end))
}

// So many labels that stand at `at`, and the default label behind them.
fn read_labels(
    alloc: Global,
    bytes: &[u8],
    at: usize,
    count: u32,
) -> Result<(Vec<u32>, u32), AllocError>
    requires place { at ≤ length bytes.now }
    requires stands { (labels : List ℕ) × (default : ℕ) × (last rest : List ℕ) × (count ≡ length labels)
        × SpellsIndices (drop at bytes.now) labels last × SpellsIndex last default rest }
    ensures { IfOk result (λ x. (last rest : List ℕ) × (count ≡ length x.0.items)
        × SpellsIndices (drop at bytes.now) x.0.items last × SpellsIndex last x.1 rest) }
{
    let mut labels = Vec::new(alloc);
    let mut place = at;
    for _i in 0..count {
        let (label, next) = read_label(bytes, place);
        labels.push(label)?;
        place = next;
    }
    let (default, _) = read_label(bytes, place);
    Ok((labels, default))
}

// One instruction more.
fn add(body: &mut Vec<Instr>, instr: Instr) -> Result<(), AllocError>
    ensures { IfOk result (λ u. body.new.items ≡ body.old.items ++ instr ∷ []) }
{
    body.push(instr)?;
    Ok(())
}

fn plain_of(p: Plain) -> Instr
    ensures { (next : Body) → plain p next ≡ with_instr result next }
{
    Instr::Plain(p)
}

fn block_of(t: BlockType, inner: Vec<Instr>) -> Instr
    ensures { (next : Body) → block t (body_of inner.items) next ≡ with_instr result next }
{
    Instr::Block(t, inner)
}

fn loop_of(t: BlockType, inner: Vec<Instr>) -> Instr
    ensures { (next : Body) → loop t (body_of inner.items) next ≡ with_instr result next }
{
    Instr::Loop(t, inner)
}

fn if_of(t: BlockType, yes_arm: Vec<Instr>, no_arm: Vec<Instr>) -> Instr
    ensures { (next : Body) → if_else t (body_of yes_arm.items) (body_of no_arm.items) next ≡ with_instr result next }
{
    Instr::If(t, yes_arm, no_arm)
}

fn table_of(labels: Vec<u32>, default: u32) -> Instr
    ensures { (next : Body) → br_table labels.items default next ≡ with_instr result next }
{
    Instr::BrTable(labels, default)
}

/// An opcode that can't stand there.
#[cold]
pub fn bad_opcode(place: usize) -> BinFault
    ensures { result ≢ NoMemory }
{
    BinFault::Malformed {
        kind: Kind::BadOpcode,
        place,
    }
}

/// A block with more around it than there may be.
#[cold]
pub fn too_deep(place: usize) -> BinFault
    ensures { result ≢ NoMemory }
{
    BinFault::Malformed {
        kind: Kind::TooDeep,
        place,
    }
}
