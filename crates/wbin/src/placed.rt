//! Parts of a module, some of which have places in its bytes, and vectors of them.
#![tactic(auto, unfolding(crate::specs::inside::Reading::Reads))]

ghost use Rattle.std.specs.Prelude.{◌≡◌, ◌≢◌, ℕ, ◌+◌, ◌<◌, ◌≤◌, All, List, [], ◌∷◌, ◌++◌, length, take, drop, map, IfOk};
ghost use Rattle.wcode.specs.declared.fault.BinFault.TheVariants.{NoMemory};
ghost use Rattle.wcode.specs.Grammar.{SpellsIndex, SpellsExpr};
ghost use Rattle.wcode.specs.Syntax.{Body};
ghost use Rattle.wmodule.specs.Syntax.{expression_in, contents_in};
ghost use Rattle.wmodule.specs.Grammar.{SpellsBytes, SpellsVector};
ghost use Rattle.wmodule.specs.Placed.{IsExpression, IsStretch};
ghost use Rattle.wbin.specs.inside.Reading.{Nothing, Once, Keeps, Reads, SpellsBoth, SpellsMany};
ghost use Rattle.wbin.specs.inside.Unique.{both_once, bytes_once, expression_once, vector_once};
ghost use Rattle.wbin.specs.inside.Kept.{plain_kept, all_kept, both_kept, expression_kept, stretch_kept};

use crate::placeless::{Entry, read_bytes, read_index};
use std::alloc::Global;
use std::marker::PhantomData;
use wcode::{BinFault, skip_expr};
use wmodule::Place;

/// A kind of things, each of which is spelled in one way only. What is read of one may have places
/// in the bytes, so that what it is seen as depends on them; it stays the same where more bytes
/// follow.
pub trait Part {
    /// What is read.
    type Out: Drop;

    ghost Syntax: { Type 0 };

    ghost seen: { List ℕ → Self.Out → Syntax };

    ghost spells: { List ℕ → Syntax → List ℕ → Type 0 };

    ghost placed: { List ℕ → Self.Out → Type 0 };

    /// Reads one from `at` on, and gives it and the place after it.
    fn read(alloc: Global, bytes: &[u8], at: usize) -> Result<(Self::Out, usize), BinFault>
        requires { at ≤ length bytes.now }
        ensures read { Reads spells (seen bytes.now) bytes.now at result }
        ensures placed { IfOk result (λ x. placed bytes.now x.0) };

    ghost once: { Once spells };

    ghost kept: { Keeps placed seen };
}

/// Reads a vector from `at` on, and gives it and the place after it. It takes memory as its entries
/// are found, and none for a count alone.
pub fn read_vector<P: Part>(
    alloc: Global,
    bytes: &[u8],
    at: usize,
) -> Result<(Vec<P::Out>, usize), BinFault>
    requires { at ≤ length bytes.now }
    ensures read { Reads (SpellsVector P.spells) (λ v. map (P.seen bytes.now) v.items) bytes.now at result }
    ensures placed { IfOk result (λ x. All (P.placed bytes.now) x.0.items) }
{
    let (count, first) = read_index(bytes, at)?;
    read_entries::<P>(alloc, bytes, first, count)
}

// So many entries from `at` on.
fn read_entries<P: Part>(
    alloc: Global,
    bytes: &[u8],
    at: usize,
    count: u32,
) -> Result<(Vec<P::Out>, usize), BinFault>
    requires { at ≤ length bytes.now }
    ensures read { Reads (SpellsMany count P.spells) (λ v. map (P.seen bytes.now) v.items) bytes.now at result }
    ensures placed { IfOk result (λ x. All (P.placed bytes.now) x.0.items) }
{
    let mut entries = Vec::new(alloc);
    let mut place = at;
    for _i in 0..count {
        let (entry, next) = P::read(alloc, bytes, place)?;
        if entries.push(entry).is_err() {
            return Err(BinFault::NoMemory);
        }
        place = next;
    }
    Ok((entries, place))
}

/// A thing that has no places in the bytes.
pub struct Plain<E>(PhantomData<E>);

impl<E: Entry> Part for Plain<E> {
    type Out = E::Out;

    ghost Syntax = { E.Syntax };

    ghost seen = { λ bytes x. E.seen x };

    ghost spells = { E.spells };

    ghost placed = { λ bytes x. Unit {0} };

    fn read(alloc: Global, bytes: &[u8], at: usize) -> Result<(E::Out, usize), BinFault> {
        E::read(alloc, bytes, at)
    }

    ghost once = { E.once };

    ghost kept = { plain_kept E.seen };
}

/// A vector of parts.
pub struct Vector<P>(PhantomData<P>);

impl<P: Part> Part for Vector<P> {
    type Out = Vec<P::Out>;

    ghost Syntax = { List P.Syntax };

    ghost seen = { λ bytes v. map (P.seen bytes) v.items };

    ghost spells = { SpellsVector P.spells };

    ghost placed = { λ bytes v. All (P.placed bytes) v.items };

    fn read(alloc: Global, bytes: &[u8], at: usize) -> Result<(Vec<P::Out>, usize), BinFault> {
        read_vector::<P>(alloc, bytes, at)
    }

    ghost once = { vector_once P.spells P.once };

    ghost kept = { λ bytes more v h. all_kept P.placed P.seen P.kept bytes more v.items h };
}

/// One part, and then another.
pub struct Then<A, B>(PhantomData<A>, PhantomData<B>);

impl<A: Part, B: Part> Part for Then<A, B> {
    type Out = (A::Out, B::Out);

    ghost Syntax = { A.Syntax × B.Syntax };

    ghost seen = { λ bytes x. (A.seen bytes x.0, B.seen bytes x.1) };

    ghost spells = { SpellsBoth A.spells B.spells };

    ghost placed = { λ bytes x. A.placed bytes x.0 × B.placed bytes x.1 };

    fn read(alloc: Global, bytes: &[u8], at: usize) -> Result<((A::Out, B::Out), usize), BinFault> {
        let (first, next) = A::read(alloc, bytes, at)?;
        let (second, end) = B::read(alloc, bytes, next)?;
        Ok(((first, second), end))
    }

    ghost once = { both_once A.spells B.spells A.once B.once };

    ghost kept = { both_kept A.placed A.seen A.kept B.placed B.seen B.kept };
}

/// Instructions, up to the `end` that closes them.
pub struct Expression;

impl Part for Expression {
    type Out = Place;

    ghost Syntax = { Body };

    ghost seen = { expression_in };

    ghost spells = { SpellsExpr };

    ghost placed = { IsExpression };

    fn read(alloc: Global, bytes: &[u8], at: usize) -> Result<(Place, usize), BinFault> {
        let (_blocks, end) = skip_expr(alloc, bytes, at)?;
        Ok((Place { begin: at, end }, end))
    }

    ghost once = { expression_once };

    ghost kept = { expression_kept };
}

/// Bytes with their number before them.
pub struct Contents;

impl Part for Contents {
    type Out = Place;

    ghost Syntax = { List ℕ };

    ghost seen = { contents_in };

    ghost spells = { SpellsBytes };

    ghost placed = { IsStretch };

    fn read(_alloc: Global, bytes: &[u8], at: usize) -> Result<(Place, usize), BinFault> {
        let (contents, end) = read_bytes(bytes, at)?;
        let begin = end - contents.len();
        Ok((Place { begin, end }, end))
    }

    ghost once = { bytes_once };

    ghost kept = { stretch_kept };
}
