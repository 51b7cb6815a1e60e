//! The names of what a line doesn't tell of an object.
ghost use Rattle.std.specs.Prelude.{◌≡◌, ◌≤◌, [], true, drop, length, take, IfOk};
ghost use Rattle.std.specs.List.{list_all};
ghost use Rattle.quant.specs.Name.{is_name_byte};
ghost use Rattle.objects.specs.LeftOut.{shown, left_out, left_out_if, refused, fault_text, told_names, up_to_marks};
ghost use Rattle.objects.specs.inside.Puts.{Puts};

use crate::fault::Why;
use std::alloc::{AllocError, Global};

// The most bytes that a key of the API has: a prefix of 253, a slash, and 63 more. A longer name
// isn't shown.
const MAX_SHOWN: usize = 317;

// So many names are told of an object, each between two quotation marks.
const MAX_MARKS: usize = 512;

/// Names that are shown to people. Where memory lacks for a part of one, this is kept until they are
/// read: what puts a name needs no answer.
#[derive(Drop)]
pub(crate) struct Names {
    /// Their bytes, one behind the other.
    pub bytes: Vec<u8>,
    /// Whether memory was there for all of them.
    pub is_whole: bool,
}

impl Names {
    // None yet.
    pub(crate) fn new(alloc: Global) -> Names
        ensures bytes { result.bytes.items ≡ [] }
        ensures whole { result.is_whole ≡ true }
    {
        Names {
            bytes: Vec::new(alloc),
            is_whole: true,
        }
    }

    // Puts a part of a name behind what is there.
    pub(crate) fn put(&mut self, part: &[u8])
        ensures { Puts self.old self.new part.now }
    {
        if self.is_whole {
            self.is_whole = self.bytes.extend_from_slice(part).is_ok();
        }
    }

    // Their bytes, unless memory lacked.
    pub(crate) fn into_bytes(self) -> Result<Vec<u8>, AllocError>
        ensures whole { IfOk result (λ _. self.is_whole ≡ true) }
        ensures bytes { IfOk result (λ bytes. bytes.items ≡ self.bytes.items) }
    {
        if self.is_whole {
            Ok(self.bytes)
        } else {
            Err(AllocError)
        }
    }
}

// Puts the name of one more behind those of others: what it is, and its own name.
#[tactic(auto, unfolding(crate::specs::LeftOut::left_out))]
pub(crate) fn put_left_out(out: &mut Names, what: &str, name: &[u8])
    ensures { Puts out.old out.new (left_out what.now name.now) }
{
    out.put(b", \"");
    out.put(what.as_bytes());
    out.put(shown(name));
    out.put(b"\"");
}

// Puts one that has no name of its own, where there is one.
pub(crate) fn put_left_out_if(out: &mut Names, is: bool, what: &str)
    ensures { Puts out.old out.new (left_out_if is what.now) }
{
    if is {
        put_left_out(out, what, b"")
    }
}

// Puts an object's first fault, in this field or in none.
#[tactic(auto, unfolding(crate::specs::LeftOut::fault_text))]
pub(crate) fn put_refused(out: &mut Names, why: Why, field: &str)
    ensures { Puts out.old out.new (fault_text (refused why field.now)) }
{
    put_left_out(out, why.text(), field.as_bytes())
}

// A name as it is shown.
pub(crate) fn shown(name: &[u8]) -> &[u8]
    ensures { result.now ≡ shown name.now }
{
    if name.len() <= MAX_SHOWN && are_name_bytes(name) {
        name
    } else {
        b"?"
    }
}

// Whether a name of a script may have each of these bytes.
fn are_name_bytes(name: &[u8]) -> bool
    ensures { result ≡ list_all is_name_byte name.now }
{
    for byte in name {
        if !is_name_byte(*byte) {
            return false;
        }
    }
    true
}

// Whether a name of a script may have this byte.
fn is_name_byte(byte: u8) -> bool
    ensures { result ≡ is_name_byte byte }
{
    matches!(byte, b'0'..=b'9' | b'A'..=b'Z' | b'a'..=b'z' | b'-' | b'.' | b'/' | b'_')
}

// Where the first names end, of which so many are told.
fn end_of_first(names: &[u8]) -> usize
    ensures within { result ≤ length names.now }
    ensures front { take result names.now ≡ up_to_marks 512 names.now }
{
    let mut marks = MAX_MARKS;
    let mut at = 0;
    while at < names.len() && marks > 0 {
        if names[at] == b'"' {
            marks -= 1;
        }
        at += 1;
    }
    at
}

// The names that are told, without the comma and the space in front of the first.
#[tactic(auto, unfolding(crate::specs::LeftOut::told_names))]
pub(crate) fn told_names(alloc: Global, names: &Names) -> Result<Vec<u8>, AllocError>
    ensures whole { IfOk result (λ _. names.now.is_whole ≡ true) }
    ensures told { IfOk result (λ told. told.items ≡ drop 2 (told_names names.now.bytes.items)) }
{
    let bytes = names.bytes.as_slice();
    let end = end_of_first(bytes);
    let mut told = Names {
        bytes: Vec::new(alloc),
        is_whole: names.is_whole,
    };
    told.put(without_comma(&bytes[..end]));
    put_left_out_if(&mut told, end < bytes.len(), "others");
    told.into_bytes()
}

// Items of an array, without the comma and the space in front of the first.
fn without_comma(items: &[u8]) -> &[u8]
    ensures { result.now ≡ drop 2 items.now }
{
    match items {
        [_, _, rest @ ..] => rest,
        _ => &[],
    }
}
