//! One instruction from bytes, without the bodies in it.

ghost use Rattle.std.specs.Prelude.{◌≡◌, ℕ, ◌+◌, ◌<◌, ◌≤◌, List, length, drop, IfOk, OnErr};
ghost use Rattle.wcode.specs.declared.opcode.Form.TheVariants as forms;
ghost use Rattle.wcode.specs.Opcodes.{form};
ghost use Rattle.wcode.specs.Grammar.{Word, SpellsIndex, SpellsIndices, SpellsBlockType, SpellsMemArg, SpellsWord};
ghost use Rattle.wcode.specs.Shown.{Shows};
ghost use Rattle.wcode.specs.inside.Shown.{Reads};

use crate::fault::{Kind, OpFault};
use crate::instruction::{MemArg, Op, Plain};
use crate::opcode::{Form, Opening, form_of};
use crate::value::{BlockType, Value, ValueType};
use leb::{LebFault, read_i32, read_i64, read_u32};

/// Reads one instruction from `at` on, without the bodies in it, or an `else` or `end` (WebAssembly
/// Core 1.0, 5.4). Gives it, and the place after it: at a block, that is where its body begins.
/// Takes no memory.
///
/// A fault tells what is wrong and where: Truncated at the end of the bytes, BadOpcode at the
/// opcode (also where the byte 0 is wanted behind its operands), BadType at a block's type,
/// BadNumber where the number begins. Float comes at an instruction or a block type on floats.
#[inline]
pub fn read_op(bytes: &[u8], at: usize) -> Result<(Op, usize), OpFault>
    requires { at ≤ length bytes.now }
    ensures found { IfOk result (λ x. (w : Word) × Shows bytes.now x.0 w ×
        SpellsWord (drop at bytes.now) w (drop x.1 bytes.now)) }
    ensures end { IfOk result (λ x. (at < x.1) × (x.1 ≤ length bytes.now)) }
    ensures none { OnErr result ((w : Word) (rest : List ℕ) → SpellsWord (drop at bytes.now) w rest → ⊥) }
{
    if at == bytes.len() {
        return Err(truncated(bytes));
    }
    read_form(bytes, at, form_of(bytes[at]))
}

/// Reads a label of a list, where one stands. Gives the label, and the place after it.
#[inline]
pub fn read_label(bytes: &[u8], at: usize) -> (u32, usize)
    requires place { at ≤ length bytes.now }
    requires stands { (n : ℕ) × (rest : List ℕ) × SpellsIndex (drop at bytes.now) n rest }
    ensures label { SpellsIndex (drop at bytes.now) result.0 (drop result.1 bytes.now) }
    ensures end { result.1 ≤ length bytes.now }
{
    match read_u32(bytes, at) {
        Ok(found) => found,
        Err(_) => unreachable!(),
    }
}

// What stands behind an opcode of the form, which stands at `at`.
#[inline]
#[tactic(auto, unfolding(crate::specs::inside::Shown::Reads))]
fn read_form(bytes: &[u8], at: usize, f: Form) -> Result<(Op, usize), OpFault>
    requires { at < length bytes.now }
    ensures { Reads bytes.now f (at + 1) result }
{
    let next = at + 1;
    match f {
        Form::Plain(p) => Ok((Op::Plain(p), next)),
        Form::Opens(opening) => read_opening(bytes, next, opening),
        Form::Else => Ok((Op::Else, next)),
        Form::End => Ok((Op::End, next)),
        Form::Indexed(i) => {
            let (n, end) = read_index(bytes, next)?;
            Ok((Op::Plain(i.plain(n)), end))
        }
        Form::BrTable => read_table(bytes, next),
        Form::CallIndirect => {
            let (n, zero) = read_index(bytes, next)?;
            read_zero(bytes, at, zero, Plain::CallIndirect(n))
        }
        Form::Load(o) => {
            let (arg, end) = read_mem_arg(bytes, next)?;
            Ok((Op::Plain(Plain::Load(o, arg)), end))
        }
        Form::Store(o) => {
            let (arg, end) = read_mem_arg(bytes, next)?;
            Ok((Op::Plain(Plain::Store(o, arg)), end))
        }
        Form::ZeroByte(p) => read_zero(bytes, at, next, p),
        Form::Const(t) => read_const(bytes, next, t),
        Form::Float => Err(OpFault::Float),
        Form::Bad => Err(malformed(Kind::BadOpcode, at)),
    }
}

// An index, an alignment or an offset.
#[inline]
fn read_index(bytes: &[u8], at: usize) -> Result<(u32, usize), OpFault>
    requires { at ≤ length bytes.now }
    ensures found { IfOk result (λ x. SpellsIndex (drop at bytes.now) x.0 (drop x.1 bytes.now)) }
    ensures end { IfOk result (λ x. x.1 ≤ length bytes.now) }
    ensures none { OnErr result ((n : ℕ) (rest : List ℕ) → SpellsIndex (drop at bytes.now) n rest → ⊥) }
{
    read_u32(bytes, at).map_err(|fault| bad_number(bytes, at, fault))
}

// An alignment, and an offset.
#[inline]
fn read_mem_arg(bytes: &[u8], at: usize) -> Result<(MemArg, usize), OpFault>
    requires { at ≤ length bytes.now }
    ensures found { IfOk result (λ x. SpellsMemArg (drop at bytes.now) x.0 (drop x.1 bytes.now)) }
    ensures end { IfOk result (λ x. x.1 ≤ length bytes.now) }
    ensures none { OnErr result ((arg : MemArg) (rest : List ℕ) → SpellsMemArg (drop at bytes.now) arg rest → ⊥) }
{
    let (align, next) = read_index(bytes, at)?;
    let (offset, end) = read_index(bytes, next)?;
    Ok((MemArg { align, offset }, end))
}

// The type of a block.
#[inline]
fn read_block_type(bytes: &[u8], at: usize) -> Result<BlockType, OpFault>
    requires { at ≤ length bytes.now }
    ensures end { IfOk result (λ t. at < length bytes.now) }
    ensures found { IfOk result (λ t. SpellsBlockType (drop at bytes.now) t (drop (at + 1) bytes.now)) }
    ensures none { OnErr result ((t : BlockType) (rest : List ℕ) → SpellsBlockType (drop at bytes.now) t rest → ⊥) }
{
    if at == bytes.len() {
        return Err(truncated(bytes));
    }
    match bytes[at] {
        0x40 => Ok(BlockType::Empty),
        0x7F => Ok(BlockType::Result(ValueType::I32)),
        0x7E => Ok(BlockType::Result(ValueType::I64)),
        0x7D | 0x7C => Err(OpFault::Float),
        _ => Err(malformed(Kind::BadType, at)),
    }
}

// An instruction that opens a block of the type at `at`.
#[inline]
#[tactic(auto, unfolding(crate::specs::inside::Shown::Reads))]
fn read_opening(bytes: &[u8], at: usize, opening: Opening) -> Result<(Op, usize), OpFault>
    requires { at ≤ length bytes.now }
    ensures { Reads bytes.now (forms.Opens opening) at result }
{
    let t = read_block_type(bytes, at)?;
    Ok((opening.op(t), at + 1))
}

// An instruction whose last byte, at `zero`, is 0. Its opcode is at `at`.
#[inline]
#[tactic(auto, unfolding(crate::specs::inside::Shown::Reads))]
fn read_zero(bytes: &[u8], at: usize, zero: usize, p: Plain) -> Result<(Op, usize), OpFault>
    requires { zero ≤ length bytes.now }
    ensures { Reads bytes.now (forms.ZeroByte p) zero result }
{
    if zero == bytes.len() {
        Err(truncated(bytes))
    } else if bytes[zero] == 0 {
        Ok((Op::Plain(p), zero + 1))
    } else {
        Err(malformed(Kind::BadOpcode, at))
    }
}

// A constant of the type.
#[inline]
#[tactic(auto, unfolding(crate::specs::inside::Shown::Reads))]
fn read_const(bytes: &[u8], at: usize, t: ValueType) -> Result<(Op, usize), OpFault>
    requires { at ≤ length bytes.now }
    ensures { Reads bytes.now (forms.Const t) at result }
{
    match t {
        ValueType::I32 => match read_i32(bytes, at) {
            Ok((n, end)) => Ok((Op::Plain(Plain::Const(Value::I32(n.cast_unsigned()))), end)),
            Err(fault) => Err(bad_number(bytes, at, fault)),
        },
        ValueType::I64 => match read_i64(bytes, at) {
            Ok((n, end)) => Ok((Op::Plain(Plain::Const(Value::I64(n.cast_unsigned()))), end)),
            Err(fault) => Err(bad_number(bytes, at, fault)),
        },
    }
}

// A list of labels and its default label: only where they stand.
#[tactic(auto, unfolding(crate::specs::inside::Shown::Reads))]
fn read_table(bytes: &[u8], at: usize) -> Result<(Op, usize), OpFault>
    requires { at ≤ length bytes.now }
    ensures { Reads bytes.now forms.BrTable at result }
{
    let (count, labels_at) = read_index(bytes, at)?;
    let last = skip_labels(bytes, labels_at, count)?;
    let (_, end) = read_index(bytes, last)?;
    Ok((Op::BrTable { count, labels_at }, end))
}

// The place after so many labels.
fn skip_labels(bytes: &[u8], at: usize, count: u32) -> Result<usize, OpFault>
    requires { at ≤ length bytes.now }
    ensures found { IfOk result (λ last. (labels : List ℕ) × (count ≡ length labels) ×
        SpellsIndices (drop at bytes.now) labels (drop last bytes.now)) }
    ensures end { IfOk result (λ last. last ≤ length bytes.now) }
    ensures none { OnErr result ((labels rest : List ℕ) → count ≡ length labels →
        SpellsIndices (drop at bytes.now) labels rest → ⊥) }
{
    let mut place = at;
    for _i in 0..count {
        let (_, next) = read_index(bytes, place)?;
        place = next;
    }
    Ok(place)
}

// The bytes end where more are wanted.
#[cold]
fn truncated(bytes: &[u8]) -> OpFault {
    malformed(Kind::Truncated, bytes.len())
}

// What is wrong with a number that begins at `at`.
#[cold]
fn bad_number(bytes: &[u8], at: usize, fault: LebFault) -> OpFault {
    match fault {
        LebFault::Truncated => truncated(bytes),
        LebFault::TooLong | LebFault::BadLastByte => malformed(Kind::BadNumber, at),
    }
}

fn malformed(kind: Kind, place: usize) -> OpFault {
    OpFault::Malformed { kind, place }
}
