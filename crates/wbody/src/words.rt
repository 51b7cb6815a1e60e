//! How the typing of a body goes over one word of its bytes.

ghost use Rattle.wbody.specs.declared.scope.Scope.{Scope as TheScope};
ghost use Rattle.std.specs.Prelude.{◌≡◌, ℕ, ◌≤◌, [], ◌∷◌, ◌++◌, List, MatchBool, OnOk};
ghost use Rattle.wcode.specs.Grammar.{Word};
ghost use Rattle.wcode.specs.Shown.{Shows};
ghost use Rattle.wcode.specs.declared.instruction.Op.TheVariants as ops;
ghost use Rattle.wbody.specs.inside.Steps.{Enters};
ghost use Rattle.wbody.specs.inside.Words.{OverInner};
ghost use Rattle.wbody.specs.declared.scope.Opened.TheVariants as opened;
ghost use Rattle.wcode.specs.declared.value.BlockType.TheVariants as blocks;
ghost use Rattle.wcode.specs.declared.value.ValueType.{ValueType as TheType};

use crate::effect::effect_of;
use crate::operand_stack::OperandStack;
use crate::scope::{Level, Opened, Scope};
use crate::stop::Stop;
use crate::table::table_effect;
use smallvec::SmallVec;
use wcode::{BlockType, Plain, ValueType};

// Over an instruction without others inside it.
pub fn pass_plain(
    stack: &mut OperandStack,
    levels: &[Level],
    scope: &Scope<'_>,
    plain: Plain,
) -> Result<(), Stop>
    ensures { (bytes : List ℕ) → OverInner scope.now bytes (ops.Plain plain) result levels.now stack.old levels.now
        stack.new }
{
    stack.apply(effect_of(scope, levels, plain))
}

// Over a branch by an index, so many labels of which stand there, and then its default.
pub fn pass_table(
    stack: &mut OperandStack,
    levels: &[Level],
    scope: &Scope<'_>,
    bytes: &[u8],
    count: u32,
    labels_at: usize,
) -> Result<(), Stop>
    requires { (w : Word) × Shows bytes.now (ops.BrTable count labels_at) w }
    ensures { OverInner scope.now bytes.now (ops.BrTable count labels_at) result levels.now stack.old levels.now
        stack.new }
{
    stack.apply(table_effect(scope, levels, bytes, count, labels_at))
}

// Into a block.
fn enter(
    stack: &mut OperandStack,
    levels: &mut SmallVec<Level, 16>,
    kind: Opened,
    block_type: BlockType,
) -> Result<(), Stop>
    ensures ok { OnOk result (Enters kind block_type levels.old.items stack.old levels.new.items stack.new) }
    ensures err { result ≡ Err Stop.Untyped → ⊥ }
{
    let level = Level {
        kind,
        block_type,
        floor: stack.floor(),
        reached: stack.is_reached(),
    };
    if levels.push(level).is_err() {
        return Err(Stop::NoMemory);
    }
    stack.open();
    Ok(())
}

// Over the opcode of a block or a loop.
pub fn pass_block(
    stack: &mut OperandStack,
    levels: &mut SmallVec<Level, 16>,
    block_type: BlockType,
) -> Result<(), Stop>
    ensures { (scope : TheScope) (bytes : List ℕ) → OverInner scope bytes (ops.Block block_type) result levels.old.items
        stack.old levels.new.items stack.new }
{
    enter(stack, levels, Opened::Block, block_type)
}

pub fn pass_loop(
    stack: &mut OperandStack,
    levels: &mut SmallVec<Level, 16>,
    block_type: BlockType,
) -> Result<(), Stop>
    ensures { (scope : TheScope) (bytes : List ℕ) → OverInner scope bytes (ops.Loop block_type) result levels.old.items
        stack.old levels.new.items stack.new }
{
    enter(stack, levels, Opened::Loop, block_type)
}

// Over the opcode of an `if`.
pub fn pass_if(
    stack: &mut OperandStack,
    levels: &mut SmallVec<Level, 16>,
    block_type: BlockType,
) -> Result<(), Stop>
    ensures { (scope : TheScope) (bytes : List ℕ) → OverInner scope bytes (ops.If block_type) result levels.old.items
        stack.old levels.new.items stack.new }
{
    if !stack.take(ValueType::I32) {
        return Err(Stop::Untyped);
    }
    enter(stack, levels, Opened::First, block_type)
}

// Over an `else`, inside the first arm of an `if`.
pub fn pass_else(stack: &mut OperandStack, levels: &mut SmallVec<Level, 16>) -> Result<(), Stop>
    ensures { (scope : TheScope) (bytes : List ℕ) → OverInner scope bytes ops.Else result levels.old.items stack.old
        levels.new.items stack.new }
{
    let Some(level) = levels.pop() else {
        return Err(Stop::Untyped);
    };
    if !stack.has_results(level.block_type) {
        return Err(Stop::Untyped);
    }
    stack.restart();
    let second = Level {
        kind: Opened::Second,
        block_type: level.block_type,
        floor: level.floor,
        reached: level.reached,
    };
    match levels.push(second) {
        Ok(()) => Ok(()),
        Err(_) => Err(Stop::NoMemory),
    }
}

// It is an `if` without `else` that is to leave a result.
fn lacks_else(level: Level) -> bool
    ensures { MatchBool result ((t : TheType) × (level.kind ≡ opened.First) ×
        (level.block_type ≡ blocks.Result t)) (level.kind ≡ opened.First
        → level.block_type ≡ blocks.Empty) }
{
    match level.kind {
        Opened::First => match level.block_type {
            BlockType::Result(_) => true,
            BlockType::Empty => false,
        },
        Opened::Block | Opened::Loop | Opened::Second => false,
    }
}

// Over the `end` of a block.
pub fn pass_end(stack: &mut OperandStack, level: Level) -> Result<(), Stop>
    requires { level.floor ≤ stack.old.floor }
    ensures { (scope : TheScope) (bytes : List ℕ) (levels : List Level) →
        OverInner scope bytes ops.End result (levels ++ level ∷ []) stack.old levels stack.new }
{
    if lacks_else(level) {
        return Err(Stop::Untyped);
    }
    stack.close(level.block_type, level.floor, level.reached)
}
