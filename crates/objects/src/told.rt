//! What an object of the API, or an event of its watch, gives a script.
ghost use Rattle.std.specs.Prelude.{◌≡◌, [], codes, Result, Some, None, Ok, Err, is_some, IfOk, option_and_then, option_map, if◌then◌else◌};
ghost use Rattle.serde_json.specs.View.{view};
ghost use Rattle.serde_json.specs.Find.{as_array, as_object, as_str};
ghost use Rattle.objects.specs.declared.change.Kind.TheVariants as kinds;
ghost use Rattle.quant.specs.declared.event.Event.TheVariants.{PodPending};
ghost use Rattle.objects.specs.declared.fault.Why.TheVariants as whys;
ghost use Rattle.objects.specs.LeftOut.{left_out, refused, fault_text};
ghost use Rattle.objects.specs.PodRow.{pod_row};
ghost use Rattle.objects.specs.Site.{site_of, telling};
ghost use Rattle.objects.specs.Told.{saying, name_in, name_of, gone, gone_told, event_if, gone_if, row_told, scheduler_of, other_scheduler, kept_back, waiting_told, bound_left_out, placed_told, bound_told, node_name, by_node, has_ended, pod_told, there_told, kind_told, core_kind, has_pod_shape, has_node_shape, kind_by_shape, kind_of, other_told, object_told, object_in, change_of, is_bookmark, value_told, is_space, is_blank, parsed, line_told};
ghost use Rattle.objects.specs.inside.Answers.{Gives, Tells};
ghost use Rattle.objects.specs.inside.Puts.{Puts, WhenWhole};
ghost use Rattle.objects.specs.inside.Telling.{how_told, as_told};

use crate::change::{Change, Kind};
use crate::demands::{REQUIRED, asks, put_demands};
use crate::fault::{ObjectFault, Why};
use crate::left_out::{Names, put_left_out, put_left_out_if, put_refused};
use crate::node_row::node_row;
use crate::pod_row::{pod_name, pod_row};
use crate::reading::{field, name_at, part_of, spelled, text_or, within};
use crate::request::{Reckoned, is_held_read, put_more_left_out, request};
use crate::site::{Site, Telling, has_beside};
use crate::translation::MAX_OBJECT;
use quant::{Event, Name, SharedNode, SharedPod, Version};
use serde_json::Value;
use std::alloc::{AllocError, Global};

// The name by which a script calls an object.
fn name_of(json: &Value, kind: Kind, by_uid: bool) -> Result<Name, ObjectFault>
    ensures { Tells (λ name. name) result (name_of kind by_uid (view json.now)) }
{
    let meta = part_of(json, "metadata")?;
    match kind {
        Kind::Node => name_at(meta, "name"),
        Kind::Pod => pod_name(meta, by_uid),
    }
}

// That an object is gone.
fn gone(kind: Kind, version: Version, name: Name) -> Event
    ensures { result ≡ gone kind version name }
{
    match kind {
        Kind::Node => Event::NodeGone { version, name },
        Kind::Pod => Event::PodGone { version, uid: name },
    }
}

// What is told of an object that is gone.
fn gone_told(out: &mut Names, json: &Value, kind: Kind, how: &Telling<'_>) -> Option<Event>
    requires { out.old.bytes.items ≡ [] }
    ensures { WhenWhole out.old out.new
        (gone_told (how_told how.now) kind (view json.now) ≡ as_told out.new.bytes.items result) }
{
    match name_of(json, kind, how.by_uid) {
        Ok(name) => Some(gone(kind, how.version, name)),
        Err(ObjectFault::Refused(why, field)) => {
            put_refused(out, why, field);
            None
        }
        Err(ObjectFault::NoMemory) => {
            out.is_whole = false;
            None
        }
    }
}

// The event by which it is told that an object is gone which isn't told any more as it has become.
fn gone_if(json: &Value, kind: Kind, how: &Telling<'_>) -> Option<Event>
    ensures { result ≡ event_if kind how.now.version how.now.change (name_of kind how.now.by_uid (view json.now)) }
{
    match how.change {
        Change::Changed => match name_of(json, kind, how.by_uid) {
            Ok(name) => Some(gone(kind, how.version, name)),
            Err(_) => None,
        },
        Change::There | Change::Gone => None,
    }
}

// What is told of an object that has no row, by its first fault.
fn fault_told(
    out: &mut Names,
    why: Why,
    fault: &'static str,
    json: &Value,
    kind: Kind,
    how: &Telling<'_>,
) -> Option<Event>
    ensures { WhenWhole out.old out.new
        (gone_if (how_told how.now) kind (view json.now) (fault_text (refused why fault.now))
        ≡ as_told out.new.bytes.items result) }
{
    out.bytes.clear();
    put_refused(out, why, fault);
    gone_if(json, kind, how)
}

// What is told of a node that is there.
fn node_told(
    alloc: Global,
    out: &mut Names,
    json: &Value,
    how: &Telling<'_>,
) -> Result<Option<Event>, ObjectFault>
    requires { out.old.bytes.items ≡ [] }
    ensures { WhenWhole out.old out.new (Gives (as_told out.new.bytes.items) result
        (there_told (how_told how.now) kinds.Node (view json.now))) }
{
    match node_row(alloc, json, &how.site, out) {
        Ok(node) => {
            let node = SharedNode::new(alloc, node)?;
            Ok(Some(Event::NodeSet {
                version: how.version,
                node,
            }))
        }
        Err(ObjectFault::Refused(why, field)) => {
            Ok(fault_told(out, why, field, json, Kind::Node, how))
        }
        Err(ObjectFault::NoMemory) => Err(ObjectFault::NoMemory),
    }
}

// What is told of a pod that waits for a place.
#[tactic(auto, unfolding(crate::specs::Told::waiting_told), using(crate::proofs::Faults::held_back))]
fn waiting_told(
    alloc: Global,
    out: &mut Names,
    spec: &Value,
    pod: &Value,
    how: &Telling<'_>,
) -> Result<Option<Event>, ObjectFault>
    requires { out.old.bytes.items ≡ [] }
    ensures { WhenWhole out.old out.new (Gives (as_told out.new.bytes.items) result
        (Ok (waiting_told (how_told how.now) (view spec.now) (view pod.now)))) }
{
    put_kept_back(out, spec, pod, &how.site);
    if out.bytes.is_empty() {
        waiting_row(alloc, out, pod, how)
    } else {
        Ok(gone_if(pod, Kind::Pod, how))
    }
}

// What is told of a pod that waits for a place, which nothing keeps back but what its row can't
// tell.
fn waiting_row(
    alloc: Global,
    out: &mut Names,
    json: &Value,
    how: &Telling<'_>,
) -> Result<Option<Event>, ObjectFault>
    requires { out.old.bytes.items ≡ [] }
    ensures { WhenWhole out.old out.new (Gives (as_told out.new.bytes.items) result
        (Ok (row_told (PodPending how.now.version) (how_told how.now) kinds.Pod (view json.now)
        (pod_row (site_of how.now.site) how.now.by_uid (view json.now))))) }
{
    match pod_row(alloc, json, &how.site, how.by_uid, out) {
        Ok(pod) => {
            let pod = SharedPod::new(alloc, pod)?;
            Ok(Some(Event::PodPending {
                version: how.version,
                pod,
            }))
        }
        Err(ObjectFault::Refused(why, field)) => {
            Ok(fault_told(out, why, field, json, Kind::Pod, how))
        }
        Err(ObjectFault::NoMemory) => Err(ObjectFault::NoMemory),
    }
}

// Puts what keeps a waiting pod from being told.
#[tactic(auto, unfolding(crate::specs::Told::kept_back))]
fn put_kept_back(out: &mut Names, spec: &Value, pod: &Value, site: &Site<'_>)
    requires { out.old.bytes.items ≡ [] }
    ensures { WhenWhole out.old out.new
        (out.new.bytes.items ≡ kept_back (site_of site.now) (view spec.now) (view pod.now)) }
{
    put_other_scheduler(out, spec, site.scheduler);
    put_demands(out, spec, has_beside(site));
    let is_deleted = within(pod, "metadata", "deletionTimestamp").is_some();
    put_left_out_if(out, is_deleted, "it is being deleted")
}

// Puts the name of the scheduler that is to place a pod, where it is another than this one.
fn put_other_scheduler(out: &mut Names, spec: &Value, scheduler: &str)
    ensures { Puts out.old out.new (other_scheduler scheduler.now (scheduler_of (view spec.now))) }
{
    let named = scheduler_of(spec);
    if named != scheduler {
        put_left_out(out, "it is for the scheduler ", named.as_bytes())
    }
}

// The scheduler that is to place a pod.
fn scheduler_of(spec: &Value) -> &str
    ensures { result.now ≡ scheduler_of (view spec.now) }
{
    if field(spec, "schedulerName").is_some() {
        spelled(spec, "schedulerName")
    } else {
        "default-scheduler"
    }
}

// What is told of a pod that stands on a node.
fn bound_told(
    alloc: Global,
    out: &mut Names,
    node: &str,
    spec: &Value,
    pod: &Value,
    how: &Telling<'_>,
) -> Result<Option<Event>, ObjectFault>
    requires { out.old.bytes.items ≡ [] }
    ensures { WhenWhole out.old out.new (Gives (as_told out.new.bytes.items) result
        (bound_told (how_told how.now) node.now (view spec.now) (view pod.now))) }
{
    match Name::new(node.as_bytes()) {
        Ok(name) => placed_told(alloc, out, name, spec, pod, how),
        Err(_) => {
            put_left_out(out, "node ", node.as_bytes());
            Ok(gone_if(pod, Kind::Pod, how))
        }
    }
}

// What is told of a pod that stands on a node that a line can name.
#[tactic(auto, unfolding(crate::specs::Told::placed_told))]
fn placed_told(
    alloc: Global,
    out: &mut Names,
    node: Name,
    spec: &Value,
    pod: &Value,
    how: &Telling<'_>,
) -> Result<Option<Event>, ObjectFault>
    requires { out.old.bytes.items ≡ [] }
    ensures { WhenWhole out.old out.new (Gives (as_told out.new.bytes.items) result
        (placed_told (how_told how.now) node (view spec.now) (view pod.now))) }
{
    let uid = name_of(pod, Kind::Pod, how.by_uid)?;
    let request = request(alloc, pod, spec, Reckoned::Standing)?;
    put_bound_left_out(alloc, out, spec, pod);
    Ok(Some(Event::PodBound {
        version: how.version,
        uid,
        node,
        request,
    }))
}

// Puts what isn't told of a pod that stands on a node.
fn put_bound_left_out(alloc: Global, out: &mut Names, spec: &Value, pod: &Value)
    ensures { Puts out.old out.new (bound_left_out (view spec.now) (view pod.now)) }
{
    put_more_left_out(alloc, out, pod, spec);
    let is_read = is_held_read(pod, spec);
    put_left_out_if(out, !is_read, "what its status says that it holds");
    let apart = asks(spec, "podAntiAffinity", REQUIRED);
    put_left_out_if(out, apart, "required pod anti-affinity")
}

// Whether a pod has ended.
pub(crate) fn has_ended(json: &Value) -> bool
    ensures { result ≡ has_ended (view json.now) }
{
    let Some(phase) = within(json, "status", "phase") else {
        return false;
    };
    matches!(phase.as_str(), Some("Succeeded" | "Failed"))
}

// What is told of a pod that is there.
#[tactic(auto, unfolding(crate::specs::Told::pod_told))]
fn pod_told(
    alloc: Global,
    out: &mut Names,
    json: &Value,
    how: &Telling<'_>,
) -> Result<Option<Event>, ObjectFault>
    requires { out.old.bytes.items ≡ [] }
    ensures { WhenWhole out.old out.new
        (Gives (as_told out.new.bytes.items) result (pod_told (how_told how.now) (view json.now))) }
{
    if has_ended(json) {
        return Ok(gone_if(json, Kind::Pod, how));
    }
    let spec = part_of(json, "spec")?;
    let node = node_name(spec)?;
    if node.is_empty() {
        waiting_told(alloc, out, spec, json, how)
    } else {
        bound_told(alloc, out, node, spec, json, how)
    }
}

// The name of the node on which a pod stands, which is empty where it stands on none.
#[tactic(auto, unfolding(crate::specs::Told::node_name))]
pub(crate) fn node_name(spec: &Value) -> Result<&str, ObjectFault>
    ensures { Tells (λ name. name.now) result (node_name (view spec.now)) }
{
    if spec.as_object().is_none() {
        return Err(ObjectFault::Refused(Why::BadField, "spec"));
    }
    text_or(spec, "nodeName", "")
}

// What is told of an object of a kind that is told, by what has come of it.
#[tactic(auto, unfolding(crate::specs::Told::kind_told))]
fn kind_told(
    alloc: Global,
    out: &mut Names,
    json: &Value,
    kind: Kind,
    how: &Telling<'_>,
) -> Result<Option<Event>, ObjectFault>
    requires { out.old.bytes.items ≡ [] }
    ensures { WhenWhole out.old out.new
        (Gives (as_told out.new.bytes.items) result (kind_told (how_told how.now) kind (view json.now))) }
{
    match how.change {
        Change::Gone => Ok(gone_told(out, json, kind, how)),
        Change::There | Change::Changed => match kind {
            Kind::Node => node_told(alloc, out, json, how),
            Kind::Pod => pod_told(alloc, out, json, how),
        },
    }
}

// A kind of Kubernetes' own that is told, by its version and its name.
fn core_kind(version: &str, kind: &str) -> Option<Kind>
    ensures { result ≡ core_kind version.now kind.now }
{
    if version != "v1" {
        return None;
    }
    match kind {
        "Node" => Some(Kind::Node),
        "Pod" => Some(Kind::Pod),
        _ => None,
    }
}

// Whether an object is a pod by its containers and its phase.
#[tactic(auto, unfolding(crate::specs::Told::has_pod_shape))]
fn has_pod_shape(json: &Value) -> bool
    ensures { result ≡ has_pod_shape (view json.now) }
{
    let Some(containers) = within(json, "spec", "containers") else {
        return false;
    };
    let Some(phase) = within(json, "status", "phase") else {
        return false;
    };
    containers.as_array().is_some() && phase.as_str().is_some()
}

// Whether an object is a node by what it says of its machine.
#[tactic(auto, unfolding(crate::specs::Told::has_node_shape))]
fn has_node_shape(json: &Value) -> bool
    ensures { result ≡ has_node_shape (view json.now) }
{
    let Some(machine) = within(json, "status", "nodeInfo") else {
        return false;
    };
    let Some(room) = within(json, "status", "allocatable") else {
        return false;
    };
    machine.as_object().is_some() && room.as_object().is_some()
}

// The kind of an object that says none, by its shape.
#[tactic(auto, unfolding(crate::specs::Told::kind_by_shape))]
fn kind_by_shape(json: &Value) -> Result<Option<Kind>, ObjectFault>
    ensures { Tells (λ kind. kind) result (kind_by_shape (view json.now)) }
{
    if has_pod_shape(json) {
        return Ok(Some(Kind::Pod));
    }
    if has_node_shape(json) {
        return Ok(Some(Kind::Node));
    }
    Err(ObjectFault::Refused(Why::BadField, "kind"))
}

// The kind of an object: a node, a pod or another.
#[tactic(auto, unfolding(crate::specs::Told::kind_of))]
pub(crate) fn kind_of(json: &Value) -> Result<Option<Kind>, ObjectFault>
    ensures { Tells (λ kind. kind) result (kind_of (view json.now)) }
{
    let Some(value) = field(json, "kind") else {
        return kind_by_shape(json);
    };
    let Some(kind) = value.as_str() else {
        return Err(ObjectFault::Refused(Why::BadField, "kind"));
    };
    let version = text_or(json, "apiVersion", "v1")?;
    Ok(core_kind(version, kind))
}

// What is told of an object of another kind: a list may hold pods.
fn other_told(out: &mut Names, json: &Value) -> Result<Option<Event>, ObjectFault>
    requires { out.old.bytes.items ≡ [] }
    ensures { WhenWhole out.old out.new (Gives (as_told out.new.bytes.items) result (other_told (view json.now))) }
{
    if field(json, "items").is_some() {
        return Err(ObjectFault::Refused(Why::IsList, ""));
    }
    let kind = spelled(json, "kind");
    put_left_out(out, "an object of the kind ", kind.as_bytes());
    Ok(None)
}

// What is told of an object, by its kind.
#[tactic(auto, unfolding(crate::specs::Told::object_told))]
fn object_told(
    alloc: Global,
    out: &mut Names,
    json: &Value,
    how: &Telling<'_>,
) -> Result<Option<Event>, ObjectFault>
    requires { out.old.bytes.items ≡ [] }
    ensures { WhenWhole out.old out.new
        (Gives (as_told out.new.bytes.items) result (object_told (how_told how.now) (view json.now))) }
{
    match kind_of(json)? {
        Some(kind) => kind_told(alloc, out, json, kind, how),
        None => other_told(out, json),
    }
}

// The same, where memory was there for all the names that were put.
fn whole_told(
    alloc: Global,
    out: &mut Names,
    json: &Value,
    how: &Telling<'_>,
) -> Result<Option<Event>, ObjectFault>
    requires { out.old.bytes.items ≡ [] }
    ensures { Gives (as_told out.new.bytes.items) result (object_told (how_told how.now) (view json.now)) }
{
    let told = object_told(alloc, out, json, how);
    if out.is_whole {
        told
    } else {
        Err(ObjectFault::NoMemory)
    }
}

// The object of an event of the watch, or the object itself that is none.
#[tactic(auto, unfolding(crate::specs::Told::object_in))]
pub(crate) fn object_in(json: &Value) -> &Value
    ensures { view result.now ≡ object_in (view json.now) }
{
    match field(json, "object") {
        Some(held) => held,
        None => json,
    }
}

// What has come of an object, by the type of an event.
fn change_of(kind: &str) -> Option<Change>
    ensures { result ≡ change_of kind.now }
{
    match kind {
        "ADDED" => Some(Change::There),
        "MODIFIED" => Some(Change::Changed),
        "DELETED" => Some(Change::Gone),
        _ => None,
    }
}

// What is told by an event that says nothing of an object: a bookmark tells nothing.
fn no_change(kind: &str) -> Result<Option<Event>, ObjectFault>
    ensures { Gives (as_told []) result
        (if is_bookmark kind.now then Ok (saying None []) else Err (refused whys.UnknownEvent [])) }
{
    if kind == "BOOKMARK" {
        Ok(None)
    } else {
        Err(ObjectFault::Refused(Why::UnknownEvent, ""))
    }
}

// What is told by an event of the watch, or by an object that stands alone.
#[tactic(auto, unfolding(crate::specs::Told::value_told))]
pub(crate) fn value_told(
    alloc: Global,
    out: &mut Names,
    json: &Value,
    site: &Site<'_>,
    by_uid: bool,
    version: Version,
) -> Result<Option<Event>, ObjectFault>
    requires { out.old.bytes.items ≡ [] }
    ensures { Gives (as_told out.new.bytes.items) result
        (value_told (site_of site.now) by_uid version (view json.now)) }
{
    let mut how = Telling {
        site: *site,
        by_uid,
        version,
        change: Change::There,
    };
    let Some(object) = field(json, "object") else {
        return whole_told(alloc, out, json, &how);
    };
    let kind = spelled(json, "type");
    let Some(change) = change_of(kind) else {
        return no_change(kind);
    };
    how.change = change;
    whole_told(alloc, out, object, &how)
}

// What is told by a line.
#[tactic(auto, unfolding(crate::specs::Told::line_told))]
pub(crate) fn line_told(
    alloc: Global,
    out: &mut Names,
    line: &[u8],
    site: &Site<'_>,
    by_uid: bool,
    version: Version,
) -> Result<Option<Event>, ObjectFault>
    requires { out.old.bytes.items ≡ [] }
    ensures { Gives (as_told out.new.bytes.items) result (line_told (site_of site.now) by_uid version line.now) }
{
    if line.len() > MAX_OBJECT {
        return Err(ObjectFault::Refused(Why::LongLine, ""));
    }
    if is_blank(line) {
        return blank_told(out);
    }
    match parse(alloc, line)? {
        Some(json) => value_told(alloc, out, &json, site, by_uid, version),
        None => Err(ObjectFault::Refused(Why::NotJson, "")),
    }
}

// What is told by a line of nothing but spaces.
fn blank_told(out: &mut Names) -> Result<Option<Event>, ObjectFault>
    requires { out.old.bytes.items ≡ [] }
    ensures { Gives (as_told out.new.bytes.items) result (Ok (saying None (left_out (codes "no JSON") []))) }
{
    put_left_out(out, "no JSON", b"");
    if out.is_whole {
        Ok(None)
    } else {
        Err(ObjectFault::NoMemory)
    }
}

// Whether a line has no byte but spaces.
pub(crate) fn is_blank(line: &[u8]) -> bool
    ensures { result ≡ is_blank line.now }
{
    for byte in line {
        if !is_space(*byte) {
            return false;
        }
    }
    true
}

// Whether a byte is a space of JSON.
fn is_space(byte: u8) -> bool
    ensures { result ≡ is_space byte }
{
    matches!(byte, b' ' | b'\t' | b'\n' | b'\r')
}

// The JSON value that a line is, if it is one.
#[tactic(auto, using(crate::proofs::Parsed::parsed_read, crate::proofs::Parsed::parsed_refused))]
pub(crate) fn parse(alloc: Global, line: &[u8]) -> Result<Option<Value>, AllocError>
    ensures { IfOk result (λ value. option_map view value ≡ parsed line.now) }
{
    match Value::from_slice(alloc, line) {
        Ok(value) => Ok(Some(value)),
        Err(e) if e.is_memory() => Err(AllocError),
        Err(_) => Ok(None),
    }
}
