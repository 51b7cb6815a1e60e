//! What the instructions of a body can refer to.

ghost use Rattle.std.specs.Prelude.{◌≡◌, ◌&&◌, ℕ, ◌+◌, ◌^◌, ◌<◌, ◌≤◌, [], ◌∷◌, ◌++◌, map, option_map, option_and_then, slice_get, length, nat_le, Some, None, IfOk};
ghost use Rattle.wcode.specs.Operators.{load_bytes, store_bytes};
ghost use Rattle.wmodule.specs.Syntax.{signature_of, locals_of};
ghost use Rattle.wbody.specs.Context.{Context, at_most_one, results_of};
ghost use Rattle.wbody.specs.Typing.{PlainType, takes_gives, only_where, plain_type, function_at, is_aligned, is_in_range};
ghost use Rattle.wbody.specs.inside.Effect.{effect_type};
ghost use Rattle.wbody.specs.inside.LocalEnds.{ends_of};
ghost use Rattle.wcode.specs.declared.instruction.Plain.TheVariants as plains;
ghost use Rattle.wcode.specs.Operators.{type_of};
ghost use Rattle.std.specs.Prelude.{reverse};

use crate::operand_stack::Effect;
use std::alloc::{AllocError, Global};
use wcode::{BlockType, CvtOp, MemArg, Plain, Value, ValueType};
use wmodule::{FunctionType, GlobalType, GlobalVariable, Import, ImportKind, LocalRun};

// A block whose end is to come: what opened it and what it leaves, and of the block around it where
// its operands begin and whether the place before this one is reached.
#[derive(Clone, Copy)]
pub struct Level {
    pub kind: Opened,
    pub block_type: BlockType,
    pub floor: usize,
    pub reached: bool,
}

impl Default for Level {
    fn default() -> Self {
        Level {
            kind: Opened::Block,
            block_type: BlockType::Empty,
            floor: 0,
            reached: true,
        }
    }
}

// What opened a block: of an `if` which of its arms it is.
#[derive(Clone, Copy)]
pub enum Opened {
    Block,
    Loop,
    First,
    Second,
}

// Such an operand alone.
pub fn alone(t: ValueType) -> &'static [ValueType]
    ensures { result.now ≡ t ∷ [] }
{
    match t {
        ValueType::I32 => &[ValueType::I32],
        ValueType::I64 => &[ValueType::I64],
    }
}

// Such an operand, or none.
pub fn none_or_alone(t: Option<ValueType>) -> &'static [ValueType]
    ensures { result.now ≡ at_most_one t }
{
    match t {
        None => &[],
        Some(t) => alone(t),
    }
}

// The alignment isn't greater than the access.
pub fn is_aligned_to(arg: MemArg, bytes: usize) -> bool
    requires { bytes ≤ 8 }
    ensures { result ≡ is_aligned arg bytes }
{
    arg.align <= 3 && (1 << arg.align) <= bytes
}

// A number of 32 bits is one, and one of 64 bits too; for the proof alone.
pub fn in_word(number: u32)
    ensures { number < 2 ^ 32 }
{}

pub fn in_long(number: u64)
    ensures { number < 2 ^ 64 }
{}

// The memory is there, and the alignment isn't greater than the access.
#[inline(always)]
pub fn may_access(scope: &Scope<'_>, arg: MemArg, bytes: usize) -> bool
    requires { bytes ≤ 8 }
    ensures { result ≡ (scope.now.has_memory && is_aligned arg bytes) }
{
    scope.has_memory && is_aligned_to(arg, bytes)
}

// A constant.
pub fn constant(value: Value) -> Effect<'static>
    ensures { effect_type result ≡ only_where (is_in_range value) (takes_gives [] (type_of value ∷ [])) }
{
    match value {
        Value::I32(number) => in_word(number),
        Value::I64(number) => in_long(number),
    }
    Effect::Moves {
        above: None,
        types: &[],
        gives: Some(value.value_type()),
    }
}

// What an instruction does that takes an operand, if this is one, and below it others, and gives
// one, if this is one.
pub fn moves<'a>(
    above: Option<ValueType>,
    types: &'a [ValueType],
    gives: Option<ValueType>,
) -> Effect<'a>
    ensures { effect_type result ≡ takes_gives (at_most_one above ++ reverse types.now) (at_most_one gives) }
{
    Effect::Moves {
        above,
        types,
        gives,
    }
}

// The types that the instructions of a body name by an index, and where each run of locals ends.
#[derive(Clone, Copy)]
pub struct Scope<'a> {
    pub types: &'a [FunctionType],
    pub imports: &'a [Import],
    pub signatures: &'a [u32],
    pub globals: &'a [GlobalVariable],
    pub has_table: bool,
    pub has_memory: bool,
    pub parameters: &'a [ValueType],
    pub locals: &'a [LocalRun],
    pub ends: &'a [u64],
    pub result: Option<ValueType>,
    pub ghost counted: { ends.now ≡ ends_of locals.now },
}

// Past every index.
const MOST_END: u64 = 4_294_967_296;

// Where each of these runs ends, counted from the first local.
pub fn run_ends(alloc: Global, runs: &[LocalRun]) -> Result<Vec<u64>, AllocError>
    ensures { IfOk result (λ ends. ends.items ≡ ends_of runs.now) }
{
    let Ok(mut ends) = Vec::with_capacity(alloc, runs.len()) else {
        return Err(AllocError);
    };
    let mut end = 0;
    for run in runs {
        end = (end + run.count as u64).min(MOST_END);
        let Ok(()) = ends.push(end) else {
            return Err(AllocError);
        };
    }
    Ok(ends)
}

impl<'a> Scope<'a> {
    ghost use Rattle.wbody.specs.inside.Scope.{IsScope, labels_of, type_found};

    // The type of a local: the run that has it is found by halving.
    pub fn local(&self, index: u32) -> Option<ValueType>
        ensures { result ≡ slice_get (self.now.parameters.now ++ locals_of self.now.locals.now) index }
    {
        let place = index as usize;
        if let Some(t) = self.parameters.get(place) {
            return Some(*t);
        }
        let past = (place - self.parameters.len()) as u64;
        let run = self.ends.partition_point(
            |end: &u64| -> bool
                ensures { result ≡ nat_le end.now past }
            { *end <= past },
        );
        match self.locals.get(run) {
            Some(found) => Some(found.value),
            None => None,
        }
    }

    // The type of a global.
    pub fn global(&self, index: u32) -> Option<GlobalType>
        ensures { (c : Context) → IsScope self.now c → slice_get c.globals index ≡ result }
    {
        self.globals.get(index as usize).map(|g| g.kind)
    }

    // The type with this index.
    pub fn listed(&self, index: u32) -> Option<&'a FunctionType>
        ensures { (c : Context) → IsScope self.now c → slice_get c.types index ≡ type_found result }
    {
        self.types.get(index as usize)
    }

    // The type of a function.
    pub fn function(&self, index: u32) -> Option<&'a FunctionType>
        ensures { (c : Context) → IsScope self.now c → function_at c index ≡ type_found result }
    {
        let place = index as usize;
        let Some(import) = self.imports.get(place) else {
            return self.own(place - self.imports.len());
        };
        match import.kind {
            ImportKind::Function(t) => self.listed(t),
            _ => None,
        }
    }

    // The type of a function of the module itself, by its place among those.
    fn own(&self, place: usize) -> Option<&'a FunctionType>
        ensures { (c : Context) → IsScope self.now c
            → option_and_then (λ t. t) (slice_get (map (λ s. slice_get c.types s) self.now.signatures.now) place) ≡ type_found result }
    {
        match self.signatures.get(place) {
            Some(signature) => self.listed(*signature),
            None => None,
        }
    }

    // What a branch carries to the label so many blocks outwards.
    pub fn label(&self, levels: &[Level], label: u32) -> Option<Option<ValueType>>
        ensures { slice_get (labels_of levels.now self.now.result) label ≡ option_map at_most_one result }
    {
        let outwards = label as usize;
        if outwards < levels.len() {
            Some(levels[levels.len() - 1 - outwards].carried())
        } else if outwards == levels.len() {
            Some(self.result)
        } else {
            None
        }
    }
}

impl Level {
    ghost use Rattle.wbody.specs.inside.Scope.{carried_by};

    // What a branch to its label carries.
    pub fn carried(self) -> Option<ValueType>
        ensures { at_most_one result ≡ carried_by self }
    {
        match (self.kind, self.block_type) {
            (Opened::Loop, _) | (_, BlockType::Empty) => None,
            (_, BlockType::Result(t)) => Some(t),
        }
    }
}
