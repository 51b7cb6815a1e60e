//! What is under way, and what one reduction of it comes to.

ghost use Rattle.std.specs.Prelude.{◌≡◌, List, []};
ghost use Rattle.wcode.specs.declared.value.Value.{Value as one_value};
ghost use Rattle.wmach.specs.Configuration.{Store, instructions, leads_to};
ghost use Rattle.wplain.specs.Seen.{body_of_code};
ghost use Rattle.wplain.specs.inside.Seen.{place_of, moved};

use crate::code::Code;
use std::alloc::Global;
use wcode::{BlockType, Plain, Value};
use wmach::Trap;
use wmem::Width;

/// What a branch to a label goes on with before what comes after the label: nothing, or the loop
/// again.
#[derive(Clone, Copy)]
pub enum Continuation<'a> {
    Nothing,
    Loop(BlockType, &'a Code),
}

/// What comes next where values stand.
#[derive(Clone, Copy)]
pub enum Next<'a> {
    Code(&'a Code),
    /// An instruction that another one came down to, before others.
    Plain(Plain, &'a Code),
    /// A loop once more, before others.
    Loop(BlockType, &'a Code, &'a Code),
    /// A call of the function with this index, before instructions.
    Call(u32, &'a Code),
    Trap(Trap),
}

/// Values with the topmost first, and what comes next.
#[derive(Drop)]
pub struct Place<'a> {
    pub values: Vec<Value>,
    pub next: Next<'a>,
}

/// A block that was entered: values below, how many a branch takes along, what goes on inside, and
/// what comes after.
#[cycle(under_way)]
#[derive(Drop)]
pub struct Label<'a> {
    pub below: Vec<Value>,
    pub arity: usize,
    pub continuation: Continuation<'a>,
    pub inside: Box<Execution<'a>>,
    pub rest: &'a Code,
}

/// A function that was entered: values below, how many it gives, its locals, what goes on inside,
/// and what comes after.
#[cycle(under_way)]
#[derive(Drop)]
pub struct Frame<'a> {
    pub below: Vec<Value>,
    pub arity: usize,
    pub locals: Vec<Value>,
    pub inside: Box<Execution<'a>>,
    pub rest: &'a Code,
}

/// What is under way (WebAssembly Core 1.0, 4.2.12 and 4.2.13).
#[cycle(under_way)]
#[derive(Drop)]
pub enum Execution<'a> {
    Here(Place<'a>),
    Label(Label<'a>),
    Frame(Frame<'a>),
}

/// What a reduction writes into the store.
#[derive(Clone, Copy)]
pub enum Write<'a> {
    Nothing,
    /// A global's value.
    Global(usize, Value),
    /// A number at an address that is the sum of two.
    Number(u32, u32, Width, u64),
    /// Bytes at an address.
    Bytes(u32, &'a [u8]),
    /// So many pages of zeros behind the others.
    Pages(u32),
}

/// What a reduction costs, and what it writes.
#[derive(Clone, Copy)]
pub struct Effect<'a> {
    pub cost: u64,
    pub write: Write<'a>,
}

/// A reduction that leaves labels and frames alone.
#[derive(Clone, Copy)]
pub struct Move<'a> {
    pub effect: Effect<'a>,
    pub next: Next<'a>,
}

/// A reduction of this cost that writes nothing.
pub fn quiet(cost: u64, next: Next<'_>) -> Move<'_>
    ensures { (store : Store) (locals values : List one_value) →
        leads_to cost store locals (place_of values next.entry) ≡ moved store locals values result }
{
    let write = Write::Nothing;
    Move {
        effect: Effect { cost, write },
        next,
    }
}

/// The beginning of a block's or a function's instructions, with no values yet.
pub fn begun(alloc: Global, code: &Code) -> Place<'_>
    ensures { place_of result.values.items result.next ≡ instructions [] (body_of_code code.now) }
{
    Place {
        values: Vec::new(alloc),
        next: Next::Code(code),
    }
}
