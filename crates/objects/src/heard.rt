//! What the API tells of nodes and pods, as of their own versions.
ghost use Rattle.std.specs.Prelude.{◌≡◌, ◌<◌, [], true, length, option_map, IfOk, IsTrue};
ghost use Rattle.std.specs.List.{list_all};
ghost use Rattle.quant.specs.Amount.{is_digit, number};
ghost use Rattle.serde_json.specs.View.{view};
ghost use Rattle.objects.specs.Heard.{a_version, version_in, shows_none, uid_in, has_no_node, is_waiting, is_row, hears, heard_by, heard_of, hearing, heard, names_of, value_in, IsValue, none_heard};
ghost use Rattle.objects.specs.LeftOut.{fault_text, refused};
ghost use Rattle.objects.specs.Told.{object_in};
ghost use Rattle.objects.specs.inside.Answers.{Answers, Gives};
ghost use Rattle.objects.specs.Site.{site_of};

use crate::change::Kind;
use crate::fault::{ObjectFault, Why};
use crate::left_out::{Names, put_refused, told_names};
use crate::reading::{field, name_at, part_of, spelled, text_at};
use crate::site::Site;
use crate::told::{has_ended, is_blank, kind_of, node_name, object_in, parse, value_told};
use crate::translation::MAX_OBJECT;
use quant::{Event, Name, Version, are_digits};
use serde_json::Value;
use std::alloc::{AllocError, Global};

// The most digits of a version.
const MAX_DIGITS: usize = 18;

/// What an object of the API, or an event of its watch, tells as of the object's own version.
#[derive(Drop)]
pub enum Heard {
    /// What a script's line tells of it.
    Event(Event),
    /// A pod is there that has no node, and that no script is told of: it is for another scheduler,
    /// is being deleted, or asks for what no row tells.
    Withheld {
        /// The pod's version.
        version: Version,
        /// The pod's uid.
        uid: Name,
    },
    /// Nothing of a node or a pod that a script knows.
    Nothing,
    /// It may be a pod on a node, and can't be read.
    Unread,
}

/// What is heard of an object or a line, and what of it isn't told.
#[derive(Drop)]
pub struct Hearing {
    /// What it tells.
    pub heard: Heard,
    /// What is left out: items of an array of JSON, as a translation's. Of what is `Unread` they say
    /// why.
    pub left_out: Vec<u8>,
}

/// Why a line has no value.
#[derive(Clone, Copy)]
pub enum NoValue {
    /// It is longer than an object can be.
    LongLine,
    /// It has no byte but spaces.
    Blank,
    /// It is no JSON.
    NotJson,
}

/// What an object of the API tells, or an event of its watch, as of the object's own version: the
/// `resourceVersion` of its metadata, a number from 1 on of up to 18 digits. A pod is called by its
/// uid.
///
/// What `translate` tells of it is told here, too, and a pod without a node of which that tells
/// nothing, or that it is gone, is `Withheld`. Where that says `uncounted`, or the version can't be
/// read, the object is `Unread`. What is left out is what `translate` leaves out, or the fault.
///
/// Errors: `AllocError`, which may come in place of any answer.
#[tactic(auto, unfolding(crate::specs::Heard::hearing))]
pub fn hear(alloc: Global, json: &Value, site: &Site<'_>) -> Result<Hearing, AllocError>
    ensures heard { IfOk result (λ found. found.heard ≡ heard (site_of site.now) (view json.now)) }
    ensures left_out { IfOk result (λ found. found.left_out.items ≡ names_of (hearing (site_of site.now) (view json.now))) }
{
    let mut left_out = Names::new(alloc);
    match heard_of(alloc, &mut left_out, json, site) {
        Ok(heard) => with_names(alloc, heard, &left_out),
        Err(ObjectFault::NoMemory) => Err(AllocError),
        Err(ObjectFault::Refused(why, field)) => with_fault(alloc, Heard::Unread, why, field),
    }
}

// What is heard, beside the names of what is left out.
fn with_names(alloc: Global, heard: Heard, names: &Names) -> Result<Hearing, AllocError>
    ensures whole { IfOk result (λ _. names.now.is_whole ≡ true) }
    ensures heard { IfOk result (λ found. found.heard ≡ heard) }
    ensures left_out { IfOk result (λ found. found.left_out.items ≡ names_of (hears heard names.now.bytes.items)) }
{
    let left_out = told_names(alloc, names)?;
    Ok(Hearing { heard, left_out })
}

// What is heard, beside the name of a fault.
fn with_fault(
    alloc: Global,
    heard: Heard,
    why: Why,
    field: &'static str,
) -> Result<Hearing, AllocError>
    ensures heard { IfOk result (λ found. found.heard ≡ heard) }
    ensures left_out { IfOk result (λ found. found.left_out.items
        ≡ names_of (hears heard (fault_text (refused why field.now)))) }
{
    let mut names = Names::new(alloc);
    put_refused(&mut names, why, field);
    with_names(alloc, heard, &names)
}

/// What is heard of a line without a value: a blank one tells nothing, and another may be a pod on
/// a node.
///
/// Errors: `AllocError`, which may come in place of any answer.
#[tactic(auto, unfolding(crate::specs::LeftOut::fault_text))]
pub fn hear_none(alloc: Global, why: NoValue) -> Result<Hearing, AllocError>
    ensures heard { IfOk result (λ found. found.heard ≡ (none_heard why).heard) }
    ensures left_out { IfOk result (λ found. found.left_out.items ≡ names_of (none_heard why)) }
{
    match why {
        NoValue::LongLine => with_fault(alloc, Heard::Unread, Why::LongLine, ""),
        NoValue::Blank => with_fault(alloc, Heard::Nothing, Why::NotJson, ""),
        NoValue::NotJson => with_fault(alloc, Heard::Unread, Why::NotJson, ""),
    }
}

/// The JSON value of a line, or why it has none.
///
/// Errors: `AllocError`, which may come in place of any answer.
#[tactic(auto, unfolding(crate::specs::Heard::value_in))]
pub fn value_in(alloc: Global, line: &[u8]) -> Result<Result<Value, NoValue>, AllocError>
    ensures { IfOk result (λ found. IsValue found (value_in line.now)) }
{
    if line.len() > MAX_OBJECT {
        return Ok(Err(NoValue::LongLine));
    }
    if is_blank(line) {
        return Ok(Err(NoValue::Blank));
    }
    match parse(alloc, line)? {
        Some(json) => Ok(Ok(json)),
        None => Ok(Err(NoValue::NotJson)),
    }
}

// What an object or an event tells, or its first fault, with the names of what is left out.
#[tactic(auto, unfolding(crate::specs::Heard::heard_of))]
fn heard_of(
    alloc: Global,
    names: &mut Names,
    json: &Value,
    site: &Site<'_>,
) -> Result<Heard, ObjectFault>
    requires { names.old.bytes.items ≡ [] }
    ensures { Gives (λ heard. hears heard names.new.bytes.items) result (heard_of (site_of site.now) (view json.now)) }
{
    let version = version_of(object_in(json))?;
    let event = value_told(alloc, names, json, site, true, version)?;
    heard_by(version, json, event)
}

// What is heard of an object by the event that a script's line tells.
fn heard_by(version: Version, json: &Value, event: Option<Event>) -> Result<Heard, ObjectFault>
    ensures { Answers result (heard_by version (view json.now) event) }
{
    let object = object_in(json);
    if !is_row(&event) && !shows_none(json) && is_waiting(object) {
        let uid = uid_of(object)?;
        return Ok(Heard::Withheld { version, uid });
    }
    Ok(match event {
        Some(event) => Heard::Event(event),
        None => Heard::Nothing,
    })
}

// Whether an event is a pod that waits, with its row.
fn is_row(event: &Option<Event>) -> bool
    ensures { result ≡ is_row event.now }
{
    matches!(event, Some(Event::PodPending { .. }))
}

// Whether an event shows no object that is there: it says that one is gone, or is a bookmark, whose
// object is one of its kind without a name.
#[tactic(auto, unfolding(crate::specs::Heard::shows_none))]
fn shows_none(json: &Value) -> bool
    ensures { result ≡ shows_none (view json.now) }
{
    field(json, "object").is_some() && matches!(spelled(json, "type"), "DELETED" | "BOOKMARK")
}

// Whether an object is a pod that hasn't ended and has no node.
#[tactic(auto, unfolding(crate::specs::Heard::is_waiting))]
fn is_waiting(object: &Value) -> bool
    ensures { result ≡ is_waiting (view object.now) }
{
    match kind_of(object) {
        Ok(Some(Kind::Pod)) if !has_ended(object) => has_no_node(field(object, "spec")),
        _ => false,
    }
}

// Whether what a pod is to be names no node.
fn has_no_node(spec: Option<&Value>) -> bool
    ensures { result ≡ has_no_node (option_map (λ v. view v.now) spec.entry) }
{
    let Some(spec) = spec else {
        return false;
    };
    match node_name(spec) {
        Ok(name) => name.is_empty(),
        Err(_) => false,
    }
}

// A pod's uid.
#[tactic(auto, unfolding(crate::specs::Heard::uid_in))]
fn uid_of(object: &Value) -> Result<Name, ObjectFault>
    ensures { Answers result (uid_in (view object.now)) }
{
    let meta = part_of(object, "metadata")?;
    name_at(meta, "uid")
}

// An object's own version.
#[tactic(auto, unfolding(crate::specs::Heard::version_in))]
fn version_of(object: &Value) -> Result<Version, ObjectFault>
    ensures { Answers result (version_in (view object.now)) }
{
    let meta = part_of(object, "metadata")?;
    let text = text_at(meta, "resourceVersion")?;
    version_from(text.as_bytes())
}

// The version that a text spells.
fn version_from(text: &[u8]) -> Result<Version, ObjectFault>
    ensures { Answers result (a_version text.now) }
{
    let fault = ObjectFault::Refused(Why::BadField, "resourceVersion");
    if text.is_empty() || text.len() > MAX_DIGITS || !are_digits(text) {
        return Err(fault);
    }
    match version_number(text) {
        0 => Err(fault),
        number => Ok(Version(number)),
    }
}

// The number that digits spell.
fn version_number(digits: &[u8]) -> u64
    requires digits { IsTrue (list_all is_digit digits.now) }
    requires few { length digits.now < 19 }
    ensures { result ≡ number digits.now }
{
    let mut value = 0;
    for digit in digits {
        value = value * 10 + u64::from(*digit - b'0');
    }
    value
}
