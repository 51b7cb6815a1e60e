//! Names of objects and of keys, and the texts that stand beside them.
ghost use Rattle.std.specs.Prelude.{◌≡◌, ◌≤◌, length, ◌↔◌, ◌∷◌, [], IsTrue, IsOk, IfOk, IfErr, OnErr, false, Ok, Err, if◌then◌else◌};
ghost use Rattle.std.specs.List.{list_all};
ghost use Rattle.std.specs.Str.{IsAscii};
ghost use Rattle.quant.specs.Name.{is_name_byte, is_name, is_text};

use crate::fault::QuantFault;
use crate::limits::MAX_NAME;
use arrayvec::ArrayVec;
use std::cmp::Ordering;
use std::marker::Model;
use std::str;

/// A name of an object or of a key: 1 to 63 bytes, each an ASCII letter or digit or one of `-._/`.
#[derive(Debug, Drop, Clone, PartialEq, Eq, PartialOrd, Ord, Hash)]
pub struct Name {
    bytes: ArrayVec<u8, MAX_NAME>,
}

impl Model for Name {
    ghost use Rattle.std.specs.Prelude.{List, ℕ, IsTrue};
    ghost use Rattle.quant.specs.Name.{is_name};

    ghost Value = { List ℕ };

    ghost view = { λ n. n.bytes.items };

    ghost invariant = { λ n. IsTrue (is_name n.bytes.items) };

    ghost inverse = { λ bytes. record { bytes = record { items = bytes } } };
}

/// A text beside a key, as a label's value: 0 to 63 of the bytes that a name may have.
#[derive(Drop, Clone, PartialEq, Eq)]
pub struct Text {
    bytes: ArrayVec<u8, MAX_NAME>,
}

impl Model for Text {
    ghost use Rattle.std.specs.Prelude.{List, ℕ, IsTrue};
    ghost use Rattle.quant.specs.Name.{is_text};

    ghost Value = { List ℕ };

    ghost view = { λ n. n.bytes.items };

    ghost invariant = { λ n. IsTrue (is_text n.bytes.items) };

    ghost inverse = { λ bytes. record { bytes = record { items = bytes } } };
}

impl Name {
    /// The name of these bytes.
    ///
    /// Errors: `BadName` where the bytes are no name.
    #[tactic(auto, unfolding(crate::specs::Name::is_name, crate::specs::Name::is_text))]
    pub fn new(bytes: &[u8]) -> Result<Name, QuantFault>
        ensures { result ≡ (if is_name bytes.now then Ok bytes.now else Err QuantFault.BadName) }
    {
        if bytes.is_empty() {
            return Err(QuantFault::BadName);
        }
        let bytes = allowed(bytes)?;
        Ok(Name { bytes })
    }

    /// Another name of the same bytes. Unlike `clone`, it has no error.
    pub fn copied(&self) -> Name
        ensures { result ≡ self.now }
    {
        Name {
            bytes: copy_of(&self.bytes),
        }
    }

    /// The bytes as text, which they always are.
    #[tactic(auto, using(crate::proofs::NameLemmas::name_is_ascii))]
    pub fn as_str(&self) -> &str
        ensures { result.now ≡ self.now }
    {
        ascii_text(self.as_bytes())
    }

    /// The bytes.
    #[tactic(auto, unfolding(crate::specs::Name::is_name, crate::specs::Name::is_text))]
    pub fn as_bytes(&self) -> &[u8]
        ensures bytes { result.now ≡ self.now }
        ensures valid { IsTrue (is_name self.now) }
        ensures least { 1 ≤ length result.now }
        ensures most { length result.now ≤ 63 }
    {
        self.bytes.as_slice()
    }
}

impl Text {
    /// The text of these bytes.
    ///
    /// Errors: `BadName` where the bytes are no text.
    pub fn new(bytes: &[u8]) -> Result<Text, QuantFault>
        ensures { result ≡ (if is_text bytes.now then Ok bytes.now else Err QuantFault.BadName) }
    {
        let bytes = allowed(bytes)?;
        Ok(Text { bytes })
    }

    /// Another text of the same bytes. Unlike `clone`, it has no error.
    pub fn copied(&self) -> Text
        ensures { result ≡ self.now }
    {
        Text {
            bytes: copy_of(&self.bytes),
        }
    }

    /// The bytes as text, which they always are.
    #[tactic(auto, using(crate::proofs::NameLemmas::text_is_ascii))]
    pub fn as_str(&self) -> &str
        ensures { result.now ≡ self.now }
    {
        ascii_text(self.as_bytes())
    }

    /// The bytes.
    #[tactic(auto, unfolding(crate::specs::Name::is_name, crate::specs::Name::is_text))]
    pub fn as_bytes(&self) -> &[u8]
        ensures bytes { result.now ≡ self.now }
        ensures valid { IsTrue (is_text self.now) }
        ensures most { length result.now ≤ 63 }
    {
        &self.bytes
    }
}

// ASCII bytes as text.
fn ascii_text(bytes: &[u8]) -> &str
    requires { IsAscii bytes.now }
    ensures { result.now ≡ bytes.now }
{
    str::from_utf8(bytes).unwrap()
}

// The same bytes once more.
fn copy_of(bytes: &ArrayVec<u8, MAX_NAME>) -> ArrayVec<u8, MAX_NAME>
    ensures { result.items ≡ bytes.now.items }
{
    bytes.clone().unwrap()
}

// The bytes, where there are at most 63 and a name may have each of them.
#[tactic(auto, unfolding(crate::specs::Name::is_text))]
fn allowed(bytes: &[u8]) -> Result<ArrayVec<u8, MAX_NAME>, QuantFault>
    ensures kept { IfOk result (λ kept. kept.items ≡ bytes.now) }
    ensures accepted { IsOk result → IsTrue (is_text bytes.now) }
    ensures refused { OnErr result (is_text bytes.now ≡ false) }
    ensures fault { IfErr result (λ fault. fault ≡ QuantFault.BadName) }
{
    if !are_allowed(bytes) {
        return Err(QuantFault::BadName);
    }
    let mut kept = ArrayVec::new();
    match kept.try_extend_from_slice(bytes) {
        Ok(()) => Ok(kept),
        Err(_) => Err(QuantFault::BadName),
    }
}

// Whether a name may have each of these bytes.
fn are_allowed(bytes: &[u8]) -> bool
    ensures { result ≡ list_all is_name_byte bytes.now }
{
    bytes.iter().all(|b| is_allowed(*b))
}

// Whether a name may have this byte.
fn is_allowed(byte: u8) -> bool
    ensures { result ≡ is_name_byte byte }
{
    matches!(byte, b'0'..=b'9' | b'A'..=b'Z' | b'a'..=b'z' | b'-' | b'.' | b'/' | b'_')
}
