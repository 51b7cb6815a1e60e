//! The containers of a pod: what each asks for or holds.
ghost use Rattle.std.specs.Prelude.{◌≡◌, ◌≤◌, [], ◌∷◌, ◌++◌, true, codes, Ok, length, IfOk, vec_len};
ghost use Rattle.serde_json.specs.View.{view, items_view};
ghost use Rattle.objects.specs.Amounts.{taken};
ghost use Rattle.objects.specs.Containers.{larger, status_request, is_status_of, or_held, held, is_always, container, are_few, statuses, looked_at, unread, listed, read_containers, containers};
ghost use Rattle.objects.specs.Reading.{field, each};
ghost use Rattle.objects.specs.inside.Answers.{Gives, Answers, Tells};

use crate::amounts::{Part, amounts, amounts_or_most, at_most, under};
use crate::fault::{ObjectFault, Why};
use crate::reading::{field, items_of, spelled};
use quant::{MAX_CPU, MAX_MEM, Request};
use serde_json::Value;
use std::alloc::{AllocError, Global};

/// The most containers of either kind that an object may list, and the most statuses: more than an
/// API server keeps, of which none is without a name and an image.
const MAX_LISTED: usize = 65_536;

// So often a container is looked at beside a status, at most.
const MAX_PAIRS: usize = 1_048_576;

/// A container of a pod.
#[derive(Clone, Copy)]
pub(crate) struct Container {
    /// What it asks for or holds.
    pub request: Request,
    /// Whether it goes on running beside those that start later, as an init container may.
    pub goes_on: bool,
}

// The more of two requests, of each resource.
#[tactic(auto, unfolding(crate::specs::Containers::larger))]
pub(crate) fn larger(a: &Request, b: &Request) -> Request
    ensures { result ≡ larger a.now b.now }
{
    at_most(a.cpu.0.max(b.cpu.0), a.mem.0.max(b.mem.0))
}

// What the status of a container or a pod says that it holds.
#[tactic(auto, unfolding(crate::specs::Containers::status_request))]
pub(crate) fn status_request(status: &Value, holder: &'static str) -> Request
    ensures { status_request holder.now (view status.now) ≡ Ok result }
{
    let set_aside = amounts_or_most(status, holder, Part::Allocated);
    let in_force = amounts_or_most(status, holder, Part::Requested);
    larger(&set_aside, &in_force)
}

// Whether a status is of the container of this name, or could be.
#[tactic(auto, unfolding(crate::specs::Containers::is_status_of))]
fn is_status_of(status: &Value, name: &str) -> bool
    ensures { result ≡ is_status_of name.now (view status.now) }
{
    let said = spelled(status, "name");
    said == name || said.is_empty()
}

// The most of this and of what the statuses of a container of this name say.
fn held(name: &str, asked: Request, said: &[Value]) -> Request
    ensures { held name.now asked (items_view said.now) ≡ Ok result }
{
    let mut most = asked;
    for status in said {
        most = or_held(name, most, status);
    }
    most
}

// The most of this and of what a status says, if it is of the container of this name.
#[tactic(auto, unfolding(crate::specs::Containers::or_held))]
fn or_held(name: &str, most: Request, status: &Value) -> Request
    ensures { or_held name.now most (view status.now) ≡ Ok result }
{
    if !is_status_of(status, name) {
        return most;
    }
    let more = status_request(status, "containerStatuses");
    larger(&most, &more)
}

// Whether a container says that it goes on running. One of which that can't be said does, where the
// pod stands on a node.
fn goes_on(item: &Value, stands: bool) -> Result<bool, ObjectFault>
    ensures { Answers result (taken stands true (is_always (field (codes "restartPolicy") (view item.now)))) }
{
    let Some(value) = field(item, "restartPolicy") else {
        return Ok(false);
    };
    match value.as_str() {
        Some(policy) => Ok(policy == "Always"),
        None if stands => Ok(true),
        None => Err(ObjectFault::Refused(Why::BadField, "restartPolicy")),
    }
}

// What a container of a field asks for or holds, and whether it goes on running.
#[tactic(auto, unfolding(crate::specs::Containers::container))]
fn one_container(
    item: &Value,
    key: &'static str,
    said: &[Value],
    stands: bool,
) -> Result<Container, ObjectFault>
    ensures { Answers result (container stands key.now (items_view said.now) (view item.now)) }
{
    let asked = amounts(item, key, Part::Asked, stands)?;
    let request = held(spelled(item, "name"), asked, said);
    let goes_on = goes_on(item, stands)?;
    Ok(Container { request, goes_on })
}

// A container that asks for the most.
pub(crate) fn unread() -> Container
    ensures { result ≡ unread }
{
    Container {
        request: at_most(MAX_CPU, MAX_MEM),
        goes_on: true,
    }
}

// Whether there are few enough to be looked at, one beside the other.
#[tactic(auto, using(crate::proofs::Items::count_of_items_view))]
pub(crate) fn are_few(found: &[Value], said: &[Value]) -> bool
    ensures value { result ≡ are_few (items_view found.now) (items_view said.now) }
    ensures few { result ≡ true → length found.now ≤ 65536 }
{
    found.len() <= MAX_LISTED && said.len() <= MAX_LISTED && found.len() * said.len() <= MAX_PAIRS
}

// What the status of a pod lists.
pub(crate) fn statuses<'a>(pod: &'a Value, key: &'static str) -> Result<&'a [Value], ObjectFault>
    ensures { Tells (λ found. items_view found.now) result (statuses key.now (view pod.now)) }
{
    items_of(under(field(pod, "status"), "status", key)?, key)
}

// What is looked at of it.
fn looked_at<'a>(
    pod: &'a Value,
    key: &'static str,
    stands: bool,
) -> Result<&'a [Value], ObjectFault>
    ensures { Tells (λ found. items_view found.now) result (looked_at stands key.now (view pod.now)) }
{
    if stands { statuses(pod, key) } else { Ok(&[]) }
}

// Puts a container behind those of a row.
pub(crate) fn put_container(row: &mut Vec<Container>, next: Container) -> Result<(), AllocError>
    ensures { IfOk result (λ _. row.new.items ≡ row.old.items ++ next ∷ []) }
{
    row.push(next)?;
    Ok(())
}

// Puts the containers of an array behind those of a row.
fn fill(
    row: &mut Vec<Container>,
    key: &'static str,
    found: &[Value],
    said: &[Value],
    stands: bool,
) -> Result<(), ObjectFault>
    requires { row.old.items ≡ [] }
    ensures value { Gives (λ _. row.new.items) result
        (each (λ before. container stands key.now (items_view said.now)) row.old.items (items_view found.now)) }
    ensures few { IfOk result (λ _. vec_len row.new ≤ length found.now) }
{
    for item in found {
        let next = one_container(item, key, said, stands)?;
        put_container(row, next)?;
    }
    Ok(())
}

// The containers of an array, which are few beside their statuses.
fn listed(
    alloc: Global,
    key: &'static str,
    found: &[Value],
    said: &[Value],
    stands: bool,
) -> Result<Vec<Container>, ObjectFault>
    ensures value { Gives (λ row. row.items) result
        (listed stands key.now (items_view found.now) (items_view said.now)) }
    ensures few { IfOk result (λ row. vec_len row ≤ 65536) }
{
    if !are_few(found, said) {
        return Err(ObjectFault::Refused(Why::TooMany, key));
    }
    let mut row = Vec::new(alloc);
    fill(&mut row, key, found, said, stands)?;
    Ok(row)
}

// The containers in a field, which is empty where it is absent, unless they can't be read.
fn read_containers(
    alloc: Global,
    pod: &Value,
    spec: &Value,
    key: &'static str,
    status_key: &'static str,
    stands: bool,
) -> Result<Vec<Container>, ObjectFault>
    ensures value { Gives (λ row. row.items) result
        (read_containers stands key.now status_key.now (view pod.now) (view spec.now)) }
    ensures few { IfOk result (λ row. vec_len row ≤ 65536) }
{
    let found = items_of(field(spec, key), key)?;
    let said = looked_at(pod, status_key, stands)?;
    listed(alloc, key, found, said, stands)
}

// The containers in a field. Those that can't be read count as one that asks for the most, where
// the pod stands on a node.
pub(crate) fn containers(
    alloc: Global,
    pod: &Value,
    spec: &Value,
    key: &'static str,
    status_key: &'static str,
    stands: bool,
) -> Result<Vec<Container>, ObjectFault>
    ensures value { Gives (λ row. row.items) result
        (containers stands key.now status_key.now (view pod.now) (view spec.now)) }
    ensures few { IfOk result (λ row. vec_len row ≤ 65536) }
{
    match read_containers(alloc, pod, spec, key, status_key, stands) {
        Err(ObjectFault::Refused(_, _)) if stands => {
            let mut row = Vec::new(alloc);
            put_container(&mut row, unread())?;
            Ok(row)
        }
        found => found,
    }
}
