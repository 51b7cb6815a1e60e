//! Instructions as the definitions have them: nothing more, or one and what comes after it.

ghost use Rattle.std.specs.Prelude.{◌≡◌};
ghost use Rattle.wcode.specs.Syntax.{done};
ghost use Rattle.wplain.specs.Seen.{body_of_code};

use wcode::{BlockType, Plain};

/// A sequence of instructions.
#[derive(Drop)]
pub enum Code {
    Done,
    Plain(Plain, Box<Code>),
    Block(BlockType, Box<Code>, Box<Code>),
    Loop(BlockType, Box<Code>, Box<Code>),
    If(BlockType, Box<Code>, Box<Code>, Box<Code>),
    BrTable(Vec<u32>, u32, Box<Code>),
}

/// Where a sequence ends, and nothing more comes.
pub fn end_of(code: &Code) -> &Code
    ensures { body_of_code result.now ≡ done }
{
    match code {
        Code::Done => code,
        Code::Plain(_, rest)
        | Code::Block(_, _, rest)
        | Code::Loop(_, _, rest)
        | Code::If(_, _, _, rest)
        | Code::BrTable(_, _, rest) => end_of(rest),
    }
}
