//! What holds of the grammar of instructions. A law's function does nothing: its contract is the
//! law.

ghost use Rattle.std.specs.Prelude.{◌≡◌, List, ℕ, ◌+◌, ◌<◌, ◌≤◌, ◌++◌, length, drop, slice_index};
ghost use Rattle.wcode.specs.Syntax.{Body};
ghost use Rattle.wcode.specs.declared.opcode.Form.TheVariants as forms;
ghost use Rattle.wcode.specs.Opcodes.{form};
ghost use Rattle.wcode.specs.Grammar.{Word, otherwise, end, SpellsWord, SpellsBody, SpellsExpr};
ghost use Rattle.wcode.specs.declared.blocks.Block.{Block};
ghost use Rattle.wcode.specs.Blocks.{SpellsBlocks, HasBlocks};
ghost use Rattle.wcode.specs.BodyAt.{body_at};

/// Bytes begin with one instruction at most, which ends at one place.
pub fn one_word()
    ensures { (bytes : List ℕ) (v w : Word) (rest more : List ℕ) →
        SpellsWord bytes v rest → SpellsWord bytes w more → (v ≡ w) × (rest ≡ more) }
{}

/// An `else` or an `end` is its opcode alone.
pub fn marks_are_one_byte()
    ensures else_mark { (bytes : List ℕ) (at : ℕ) → at < length bytes → form (slice_index bytes at) ≡ forms.Else →
        SpellsWord (drop at bytes) otherwise (drop (at + 1) bytes) }
    ensures end_mark { (bytes : List ℕ) (at : ℕ) → at < length bytes → form (slice_index bytes at) ≡ forms.End →
        SpellsWord (drop at bytes) end (drop (at + 1) bytes) }
{}

/// Bytes begin with one expression at most, which ends at one place.
pub fn one_expression()
    ensures { (bytes : List ℕ) (body other : Body) (rest more : List ℕ) →
        SpellsExpr bytes body rest → SpellsExpr bytes other more → (body ≡ other) × (rest ≡ more) }
{}

/// Where bytes begin with an expression, reading them as a function on lists gives its body.
pub fn one_body_at()
    ensures { (bytes : List ℕ) (body : Body) (rest : List ℕ) → SpellsExpr bytes body rest → body_at bytes ≡ body }
{}

/// A body that is told with its blocks is spelled.
pub fn blocks_are_spelled()
    ensures { (bytes : List ℕ) (room : ℕ) (last : Word) (front : List ℕ) (body : Body) (rest : List ℕ)
        (blocks : List Block) →
        SpellsBlocks bytes room last front body rest blocks → SpellsBody room last front body rest }
{}

/// An expression in bytes stays where it is, and so do its blocks, where more bytes follow.
pub fn blocks_stay()
    ensures { (bytes : List ℕ) (begin after : ℕ) (body : Body) (blocks : List Block) (more : List ℕ) →
        begin ≤ length bytes → after ≤ length bytes →
        HasBlocks bytes begin body after blocks → HasBlocks (bytes ++ more) begin body after blocks }
{}
