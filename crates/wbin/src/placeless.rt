//! Things that are spelled in one way only and have no places in the bytes: what larger things are
//! made of.
#![tactic(auto, unfolding(crate::specs::inside::Reading::Reads))]

ghost use Rattle.std.specs.Prelude.{◌≡◌, ◌≢◌, ℕ, ◌+◌, ◌-◌, ◌<◌, ◌≤◌, List, [], ◌∷◌, length, take, drop, map, IfOk, IfErr, OnErr};
ghost use Rattle.wcode.specs.declared.fault.BinFault.TheVariants.{NoMemory};
ghost use Rattle.wcode.specs.Grammar.{SpellsIndex};
ghost use Rattle.wmodule.specs.Grammar.{Byte, SpellsBytes, SpellsName, SpellsVector};
ghost use Rattle.wbin.specs.inside.Reading.{Nothing, Once, Reads, SpellsBoth};
ghost use Rattle.wbin.specs.inside.Unique.{both_once, index_spelled_once, vector_once};

use crate::placed::{Plain, read_vector};
use leb::{LebFault, read_u32};
use std::alloc::Global;
use std::marker::PhantomData;
use wcode::{BinFault, Kind};

/// A kind of things without places, each of which is spelled in one way only, so that its end is
/// known.
pub trait Entry {
    /// What is read.
    type Out: Drop;

    ghost Syntax: { Type 0 };

    ghost seen: { Self.Out → Syntax };

    ghost spells: { List ℕ → Syntax → List ℕ → Type 0 };

    /// Reads one from `at` on, and gives it and the place after it.
    fn read(alloc: Global, bytes: &[u8], at: usize) -> Result<(Self::Out, usize), BinFault>
        requires { at ≤ length bytes.now }
        ensures { Reads spells seen bytes.now at result };

    ghost once: { Once spells };
}

/// A vector of such things.
pub struct Many<E>(PhantomData<E>);

impl<E: Entry> Entry for Many<E> {
    type Out = Vec<E::Out>;

    ghost Syntax = { List E.Syntax };

    ghost seen = { λ v. map E.seen v.items };

    ghost spells = { SpellsVector E.spells };

    fn read(alloc: Global, bytes: &[u8], at: usize) -> Result<(Vec<E::Out>, usize), BinFault> {
        read_vector::<Plain<E>>(alloc, bytes, at)
    }

    ghost once = { vector_once E.spells E.once };
}

/// One thing, and then another.
pub struct Both<A, B>(PhantomData<A>, PhantomData<B>);

impl<A: Entry, B: Entry> Entry for Both<A, B> {
    type Out = (A::Out, B::Out);

    ghost Syntax = { A.Syntax × B.Syntax };

    ghost seen = { λ x. (A.seen x.0, B.seen x.1) };

    ghost spells = { SpellsBoth A.spells B.spells };

    fn read(alloc: Global, bytes: &[u8], at: usize) -> Result<((A::Out, B::Out), usize), BinFault> {
        let (first, next) = A::read(alloc, bytes, at)?;
        let (second, end) = B::read(alloc, bytes, next)?;
        Ok(((first, second), end))
    }

    ghost once = { both_once A.spells B.spells A.once B.once };
}

/// An index, a count or a size.
impl Entry for u32 {
    type Out = u32;

    ghost Syntax = { ℕ };

    ghost seen = { λ n. n };

    ghost spells = { SpellsIndex };

    fn read(_alloc: Global, bytes: &[u8], at: usize) -> Result<(u32, usize), BinFault> {
        read_index(bytes, at)
    }

    ghost once = { index_spelled_once };
}

/// Reads an index, a count or a size from `at` on, and gives it and the place after it.
pub fn read_index(bytes: &[u8], at: usize) -> Result<(u32, usize), BinFault>
    requires { at ≤ length bytes.now }
    ensures read { Reads SpellsIndex (λ n. n) bytes.now at result }
    ensures memory { IfErr result (λ e. e ≢ NoMemory) }
{
    match read_u32(bytes, at) {
        Ok(found) => Ok(found),
        Err(LebFault::Truncated) => Err(truncated(bytes)),
        Err(_) => Err(malformed(Kind::BadNumber, at)),
    }
}

/// The byte at `at`.
pub fn byte_at(bytes: &[u8], at: usize) -> Result<u8, BinFault>
    requires { at ≤ length bytes.now }
    ensures found { IfOk result (λ b. drop at bytes.now ≡ b ∷ drop (at + 1) bytes.now) }
    ensures within { IfOk result (λ b. at < length bytes.now) }
    ensures none { OnErr result (drop at bytes.now ≡ []) }
{
    if at == bytes.len() {
        return Err(truncated(bytes));
    }
    Ok(bytes[at])
}

/// That a byte which stands for a type is at `at`.
pub fn expect_byte(bytes: &[u8], at: usize, wanted: u8) -> Result<(), BinFault>
    requires { at ≤ length bytes.now }
    ensures found { IfOk result (λ u. Byte wanted (drop at bytes.now) (drop (at + 1) bytes.now)) }
    ensures within { IfOk result (λ u. at < length bytes.now) }
    ensures none { OnErr result ((rest : List ℕ) → Byte wanted (drop at bytes.now) rest → ⊥) }
{
    if byte_at(bytes, at)? != wanted {
        return Err(malformed(Kind::BadType, at));
    }
    Ok(())
}

/// Reads bytes with their number before them, from `at` on. Gives them, and the place after them.
/// Where they are fewer than their number, the fault's place is where they would end.
pub fn read_sized(bytes: &[u8], at: usize) -> Result<(&[u8], usize), BinFault>
    requires { at ≤ length bytes.now }
    ensures read { Reads SpellsBytes (λ s. s.now) bytes.now at result }
    ensures memory { IfErr result (λ e. e ≢ NoMemory) }
    ensures place { IfOk result (λ x. (length x.0.now ≤ x.1) × (at + length x.0.now < x.1) ×
        (x.0.now ≡ drop (x.1 - length x.0.now) (take x.1 bytes.now))) }
{
    let (size, start) = read_index(bytes, at)?;
    let end = start + size as usize;
    if end > bytes.len() {
        return Err(malformed(Kind::Truncated, end));
    }
    Ok((&bytes[start..end], end))
}

/// The same, where the place of what is wanting is the end of the bytes that are there.
pub fn read_bytes(bytes: &[u8], at: usize) -> Result<(&[u8], usize), BinFault>
    requires { at ≤ length bytes.now }
    ensures read { Reads SpellsBytes (λ s. s.now) bytes.now at result }
    ensures memory { IfErr result (λ e. e ≢ NoMemory) }
    ensures place { IfOk result (λ x. (length x.0.now ≤ x.1) × (at + length x.0.now < x.1) ×
        (x.0.now ≡ drop (x.1 - length x.0.now) (take x.1 bytes.now))) }
{
    match read_sized(bytes, at) {
        Ok(found) => Ok(found),
        Err(
            BinFault::Malformed {
                kind: Kind::Truncated,
                ..
            },
        ) => Err(truncated(bytes)),
        Err(other) => Err(other),
    }
}

/// Reads a name from `at` on, and gives it and the place after it.
pub fn read_name(bytes: &[u8], at: usize) -> Result<(&[u8], usize), BinFault>
    requires { at ≤ length bytes.now }
    ensures read { Reads SpellsName (λ s. s.now) bytes.now at result }
    ensures memory { IfErr result (λ e. e ≢ NoMemory) }
{
    match read_bytes(bytes, at) {
        Ok((name, next)) => {
            if str::from_utf8(name).is_ok() {
                Ok((name, next))
            } else {
                Err(malformed(Kind::BadName, at))
            }
        }
        Err(fault) => Err(fault),
    }
}

/// The bytes end where more are wanted.
#[cold]
pub fn truncated(bytes: &[u8]) -> BinFault
    ensures { result ≢ NoMemory }
{
    malformed(Kind::Truncated, bytes.len())
}

/// What is wrong, and where.
#[cold]
pub fn malformed(kind: Kind, place: usize) -> BinFault
    ensures { result ≢ NoMemory }
{
    BinFault::Malformed { kind, place }
}
