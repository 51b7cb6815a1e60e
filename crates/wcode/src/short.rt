//! Instructions without others inside them whose numbers have four bytes at most: where they end,
//! and no more. And an `end`.

ghost use Rattle.std.specs.Prelude.{true, ◌≡◌, ◌≢◌, ℕ, ◌+◌, ◌<◌, ◌≤◌, List, length, drop, IfSome, slice_index};
ghost use Rattle.wcode.specs.declared.instruction.Plain.{Plain};
ghost use Rattle.wcode.specs.Opcodes.{form};
ghost use Rattle.wcode.specs.Grammar.{one, end, SpellsWord};
ghost use Rattle.wcode.specs.inside.Short.{form_tail, HasNumber};

// A byte of a number from here on says that another one follows.
const MORE: u8 = 128;

// What follows an opcode.
#[derive(Clone, Copy)]
pub enum Tail {
    Nothing,
    // An index, or a constant.
    Number,
    // An alignment and an offset.
    Two,
    // What this list doesn't name.
    Other,
}

// What follows an opcode, or that this isn't told.
#[inline(always)]
fn tail_of(opcode: u8) -> Tail
    ensures { result ≢ Tail.Other → result ≡ form_tail (form opcode) }
{
    match opcode {
        0x00..=0x01 => Tail::Nothing,
        0x0C..=0x0D => Tail::Number,
        0x0F => Tail::Nothing,
        0x10 => Tail::Number,
        0x1A..=0x1B => Tail::Nothing,
        0x20..=0x24 => Tail::Number,
        0x28..=0x29 => Tail::Two,
        0x2C..=0x37 => Tail::Two,
        0x3A..=0x3E => Tail::Two,
        0x41..=0x42 => Tail::Number,
        0x45..=0x5A => Tail::Nothing,
        0x67..=0x8A => Tail::Nothing,
        0xA7 => Tail::Nothing,
        0xAC..=0xAD => Tail::Nothing,
        0xC0..=0xC4 => Tail::Nothing,
        _ => Tail::Other,
    }
}

// The place after a number that has four bytes at most, whichever kind of number it is.
#[inline(always)]
fn short_number(bytes: &[u8], at: usize) -> Option<usize>
    requires { at ≤ length bytes.now }
    ensures { IfSome result (λ next. (at < next) × (next ≤ length bytes.now)
        × HasNumber (drop at bytes.now) (drop next bytes.now)) }
{
    if bytes.len() - at < 4 {
        None
    } else if bytes[at] < MORE {
        Some(at + 1)
    } else if bytes[at + 1] < MORE {
        Some(at + 2)
    } else if bytes[at + 2] < MORE {
        Some(at + 3)
    } else if bytes[at + 3] < MORE {
        Some(at + 4)
    } else {
        None
    }
}

/// The place after an instruction at `at` without others inside it, where it is one of those that
/// this tells.
#[inline(always)]
pub(crate) fn pass_short(bytes: &[u8], at: usize) -> Option<usize>
    requires { at ≤ length bytes.now }
    ensures { IfSome result (λ next. (at < next) × (next ≤ length bytes.now) × (p : Plain)
        × SpellsWord (drop at bytes.now) (one p) (drop next bytes.now)) }
{
    if at == bytes.len() {
        return None;
    }
    match tail_of(bytes[at]) {
        Tail::Nothing => Some(at + 1),
        Tail::Number => short_number(bytes, at + 1),
        Tail::Two => {
            let middle = short_number(bytes, at + 1)?;
            short_number(bytes, middle)
        }
        Tail::Other => None,
    }
}

/// Whether an `end` stands at `at`.
#[inline(always)]
pub(crate) fn stands_end(bytes: &[u8], at: usize) -> bool
    requires { at ≤ length bytes.now }
    ensures within { result ≡ true → at < length bytes.now }
    ensures word { result ≡ true → SpellsWord (drop at bytes.now) end (drop (at + 1) bytes.now) }
{
    if at == bytes.len() {
        return false;
    }
    match bytes[at] {
        0x0B => true,
        _ => false,
    }
}
