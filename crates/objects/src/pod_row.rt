//! The row that the object of a pod gives that waits for a place.
ghost use Rattle.std.specs.Prelude.{◌≡◌, ◌+◌, ◌<◌, ◌++◌, [], length, codes, Some, None, OnSome, IfNone, option_and_then, if◌then◌else◌};
ghost use Rattle.quant.specs.Name.{is_name};
ghost use Rattle.serde_json.specs.Find.{as_number, as_i64};
ghost use Rattle.serde_json.specs.View.{view};
ghost use Rattle.objects.specs.inside.Answers.{Gives, Answers, Tells};
ghost use Rattle.objects.specs.inside.Members.{kept};
ghost use Rattle.objects.specs.inside.Puts.{WhenWhole};
ghost use Rattle.objects.specs.PodRow.{pod_name, a_priority, priority, pod_parts, pod_lists, pod_row};
ghost use Rattle.objects.specs.Site.{site_of};

use crate::demands::put_wishes;
use crate::fault::{ObjectFault, Why};
use crate::labels::fill_labels;
use crate::left_out::Names;
use crate::reading::{field, items_at, members_at, name_at, part_of, text_at, text_or};
use crate::request::{Reckoned, request};
use crate::site::{Site, has_beside};
use crate::tolerations::fill_tolerations;
use arrayvec::ArrayVec;
use quant::{AtMost, Label, MAX_LABELS, MAX_NAME, MAX_TOLERATIONS, Name, Pod, Request, Toleration};
use serde_json::Value;
use std::alloc::Global;

// How a pod is called, its priority, and what it asks for.
#[tactic(auto, unfolding(crate::specs::PodRow::pod_parts))]
fn pod_parts(
    alloc: Global,
    meta: &Value,
    spec: &Value,
    json: &Value,
    by_uid: bool,
) -> Result<(Name, i32, Request), ObjectFault>
    ensures { Answers result (pod_parts by_uid (view meta.now) (view spec.now) (view json.now)) }
{
    let uid = pod_name(meta, by_uid)?;
    let priority = priority(spec)?;
    let request = request(alloc, json, spec, Reckoned::Waiting)?;
    Ok((uid, priority, request))
}

// Fills empty lists with a pod's labels, of which those that the site's rules read come first, and
// its tolerations. Puts the names of what the row leaves out.
#[tactic(auto, unfolding(crate::specs::PodRow::pod_lists))]
fn fill_lists(
    labels: &mut AtMost<Label, MAX_LABELS>,
    tolerations: &mut AtMost<Toleration, MAX_TOLERATIONS>,
    out: &mut Names,
    meta: &Value,
    spec: &Value,
    site: &Site<'_>,
) -> Result<(), ObjectFault>
    requires labels { labels.old ≡ [] }
    requires tolerations { tolerations.old ≡ [] }
    requires out { out.old.bytes.items ≡ [] }
    ensures { WhenWhole out.old out.new (Gives (λ _. (labels.new, kept tolerations.new out.new.bytes.items)) result
        (pod_lists (site_of site.now) (view meta.now) (view spec.now))) }
{
    let found = members_at(meta, "labels")?;
    let items = items_at(spec, "tolerations")?;
    put_wishes(out, spec, has_beside(site));
    fill_labels(labels, out, found, site)?;
    fill_tolerations(tolerations, out, items);
    Ok(())
}

// The row of a pod's object, in which the labels that the site's rules read come first, and beside it
// the names of what it leaves out, unless a fault comes first.
#[tactic(auto, unfolding(crate::specs::PodRow::pod_row))]
pub(crate) fn pod_row(
    alloc: Global,
    json: &Value,
    site: &Site<'_>,
    by_uid: bool,
    out: &mut Names,
) -> Result<Pod, ObjectFault>
    requires { out.old.bytes.items ≡ [] }
    ensures { WhenWhole out.old out.new (Gives (λ pod. record { item = pod; left_out = out.new.bytes.items }) result
        (pod_row (site_of site.now) by_uid (view json.now))) }
{
    let meta = part_of(json, "metadata")?;
    let spec = part_of(json, "spec")?;
    let (uid, priority, request) = pod_parts(alloc, meta, spec, json, by_uid)?;
    let mut labels = AtMost::new(alloc);
    let mut tolerations = AtMost::new(alloc);
    fill_lists(&mut labels, &mut tolerations, out, meta, spec, site)?;
    Ok(Pod {
        uid,
        priority,
        request,
        labels,
        tolerations,
    })
}

// How a script calls a pod: by its namespace and name, where that is a name of a script and its uid
// isn't asked for, and by its uid otherwise.
#[tactic(auto, unfolding(crate::specs::PodRow::pod_name))]
pub(crate) fn pod_name(meta: &Value, by_uid: bool) -> Result<Name, ObjectFault>
    ensures { Tells (λ name. name) result (pod_name by_uid (view meta.now)) }
{
    if by_uid {
        return name_at(meta, "uid");
    }
    let namespace = text_or(meta, "namespace", "default")?;
    let name = text_at(meta, "name")?;
    match full_name(namespace, name) {
        Some(name) => Ok(name),
        None => name_at(meta, "uid"),
    }
}

// A namespace and a name with a slash between them, where that is a name of a script.
fn full_name(namespace: &str, name: &str) -> Option<Name>
    ensures { let text = namespace.now ++ codes "/" ++ name.now in
        result ≡ (if is_name text then Some text else None) }
{
    let mut text = ArrayVec::new();
    put_behind(&mut text, namespace)?;
    put_behind(&mut text, "/")?;
    put_behind(&mut text, name)?;
    Name::new(text.as_slice()).ok()
}

// Puts a text behind another, where a name has room for both.
fn put_behind(text: &mut ArrayVec<u8, MAX_NAME>, more: &str) -> Option<()>
    ensures put { OnSome result (text.new.items ≡ text.old.items ++ more.now) }
    ensures full { IfNone result (63 < length text.old.items + length more.now) }
{
    match text.try_extend_from_slice(more.as_bytes()) {
        Ok(()) => Some(()),
        Err(_) => None,
    }
}

// Which pods come first, by a number of 32 bits, which is 0 where it is absent.
#[tactic(auto, unfolding(crate::specs::PodRow::priority))]
fn priority(spec: &Value) -> Result<i32, ObjectFault>
    ensures { Answers result (priority (view spec.now)) }
{
    match field(spec, "priority") {
        Some(value) => priority_from(value),
        None => Ok(0),
    }
}

// A number of 32 bits.
fn priority_from(value: &Value) -> Result<i32, ObjectFault>
    ensures { Answers result (a_priority (option_and_then as_i64 (as_number (view value.now)))) }
{
    match value.as_i64() {
        Some(n) if i64::from(i32::MIN) <= n && n <= i64::from(i32::MAX) => Ok(n as i32),
        _ => Err(ObjectFault::Refused(Why::BadField, "priority")),
    }
}
