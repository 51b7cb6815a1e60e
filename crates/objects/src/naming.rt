//! How people know the object that a line of the API tells of.
ghost use Rattle.std.specs.Prelude.{◌≡◌, IfOk};
ghost use Rattle.serde_json.specs.View.{view};
ghost use Rattle.objects.specs.ObjectName.{kind_shown, namespace_shown, known_as, object_name, name_in};
ghost use Rattle.objects.specs.inside.Puts.{Puts};

use crate::left_out::{Names, shown};
use crate::reading::{field, spelled};
use crate::told::{object_in, parse};
use crate::translation::MAX_OBJECT;
use serde_json::Value;
use std::alloc::{AllocError, Global};

/// The name by which people know the object of a line of the API: its kind, its namespace, where it
/// has one, and its name, as `Pod shop/web-1`. It is empty where the line is no JSON, is longer
/// than `MAX_OBJECT`, or has no name.
///
/// Errors: `AllocError`, which may come in place of any answer.
#[tactic(auto, unfolding(crate::specs::ObjectName::name_in))]
pub fn object_name(alloc: Global, line: &[u8]) -> Result<Vec<u8>, AllocError>
    ensures { IfOk result (λ name. name.items ≡ name_in line.now) }
{
    if line.len() > MAX_OBJECT {
        return Ok(Vec::new(alloc));
    }
    match parse(alloc, line)? {
        Some(json) => name_of(alloc, object_in(&json)),
        None => Ok(Vec::new(alloc)),
    }
}

// The name of an object.
#[tactic(auto, unfolding(crate::specs::ObjectName::object_name))]
fn name_of(alloc: Global, json: &Value) -> Result<Vec<u8>, AllocError>
    ensures { IfOk result (λ name. name.items ≡ object_name (view json.now)) }
{
    let kind = spelled(json, "kind");
    match field(json, "metadata") {
        Some(meta) => {
            let namespace = spelled(meta, "namespace");
            known_as(alloc, kind, namespace, spelled(meta, "name"))
        }
        None => Ok(Vec::new(alloc)),
    }
}

// The name of these parts, where there is one.
fn known_as(alloc: Global, kind: &str, namespace: &str, name: &str) -> Result<Vec<u8>, AllocError>
    ensures { IfOk result (λ text. text.items ≡ known_as kind.now namespace.now name.now) }
{
    if name.is_empty() {
        return Ok(Vec::new(alloc));
    }
    let mut text = Names::new(alloc);
    text.put(kind_shown(kind));
    text.put(b" ");
    put_namespace(&mut text, namespace);
    text.put(shown(name.as_bytes()));
    text.into_bytes()
}

// A kind as it is shown: an item of a raw list says none.
fn kind_shown(kind: &str) -> &[u8]
    ensures { result.now ≡ kind_shown kind.now }
{
    if kind.is_empty() {
        b"object"
    } else {
        shown(kind.as_bytes())
    }
}

// Puts a namespace and the slash behind it, where there is one.
fn put_namespace(text: &mut Names, namespace: &str)
    ensures { Puts text.old text.new (namespace_shown namespace.now) }
{
    if namespace.is_empty() {
        return;
    }
    text.put(shown(namespace.as_bytes()));
    text.put(b"/");
}
