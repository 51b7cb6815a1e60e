//! What a pod asks of a node while it waits, and what it counts for once it stands on one.
ghost use Rattle.std.specs.Prelude.{◌≡◌, ◌+◌, ◌≤◌, ◌^◌, [], length, max, Ok, IfOk, vec_len, option_map, if◌then◌else◌};
ghost use Rattle.serde_json.specs.View.{view, items_view};
ghost use Rattle.quant.specs.Request.{request_of};
ghost use Rattle.objects.specs.Containers.{of, together, beside_others, going_on, peak, effective};
ghost use Rattle.objects.specs.PodRequest.{stands, some_or_unread, some_container, within_limits, held_as_a_whole, by_containers, as_asked, or_more, as_held, in_all, running, request, more_left_out, is_status_read, are_read, are_statuses_read, is_whole_read, is_held_read};
ghost use Rattle.objects.specs.inside.Answers.{Gives, Answers};
ghost use Rattle.objects.specs.inside.Puts.{Puts};

use crate::amounts::{Part, amounts, amounts_or_most, at_most};
use crate::containers::{
    Container, are_few, containers, larger, put_container, status_request, statuses, unread,
};
use crate::fault::{ObjectFault, Why};
use crate::left_out::{Names, put_refused};
use crate::reading::{field, is_given, items_of};
use crate::resource::Resource;
use quant::{Bytes, Cpu, Request};
use serde_json::Value;
use std::alloc::Global;

/// How a pod's request is reckoned.
#[derive(Clone, Copy)]
pub(crate) enum Reckoned {
    /// While it waits: its first fault is told, of which one is that it asks as a whole.
    Waiting,
    /// Once it is placed: the first fault by which it counts for more than it asks for is told.
    Placed,
    /// As it stands: a fault is taken as the worst that it could mean.
    Standing,
}

impl Reckoned {
    // Whether a fault is taken as the worst that it could mean.
    fn stands(self) -> bool
        ensures { result ≡ stands self }
    {
        match self {
            Reckoned::Standing => true,
            Reckoned::Waiting | Reckoned::Placed => false,
        }
    }
}

// What a pod asks of a node, for each resource: what its containers ask together, beside the init
// containers that go on running, or what one of the other init containers needs with those before
// it that go on running, if that is more; and its overhead. A container's limit stands for its
// request where it has none. Amounts are rounded up.
//
// Errors: `BadField` of a field that has another type than the API gives it, or of `containers`
// where there are none; `Quantity` of an amount that is no string of the grammar or is out of its
// limits; `TooMany` above 65,536 containers; `PodResources` where the pod waits and asks for
// resources as a whole; `TooLarge` where the request is above 2^30 thousandths of a core or 2^44
// bytes; `NoMemory`, which may come in place of any other answer. Of a pod as it stands only that.
#[tactic(auto, unfolding(crate::specs::PodRequest::request_by))]
pub(crate) fn request(
    alloc: Global,
    pod: &Value,
    spec: &Value,
    how: Reckoned,
) -> Result<Request, ObjectFault>
    ensures { Answers result (request how (view pod.now) (view spec.now)) }
{
    let stands = how.stands();
    let running = running(alloc, pod, spec, stands)?;
    let init = containers(
        alloc,
        pod,
        spec,
        "initContainers",
        "initContainerStatuses",
        stands,
    )?;
    in_all(pod, spec, running.as_slice(), init.as_slice(), how)
}

// The containers that run side by side. A pod as it stands has one at least.
fn running(
    alloc: Global,
    pod: &Value,
    spec: &Value,
    stands: bool,
) -> Result<Vec<Container>, ObjectFault>
    ensures value { Gives (λ row. row.items) result (running stands (view pod.now) (view spec.now)) }
    ensures few { IfOk result (λ row. vec_len row ≤ 65536) }
{
    let mut row = containers(alloc, pod, spec, "containers", "containerStatuses", stands)?;
    if stands && row.is_empty() {
        put_container(&mut row, unread())?;
    }
    Ok(row)
}

// What a pod asks for or counts for by its containers.
fn in_all(
    pod: &Value,
    spec: &Value,
    running: &[Container],
    init: &[Container],
    how: Reckoned,
) -> Result<Request, ObjectFault>
    requires running { length running.now ≤ 65536 }
    requires init { length init.now ≤ 65536 }
    ensures { Answers result (in_all how (view pod.now) (view spec.now) running.now init.now) }
{
    let overhead = amounts(spec, "spec", Part::Overhead, how.stands())?;
    if running.is_empty() {
        return Err(ObjectFault::Refused(Why::BadField, "containers"));
    }
    match how {
        Reckoned::Waiting => as_asked(spec, running, init, &overhead, false),
        Reckoned::Placed => as_asked(spec, running, init, &overhead, true),
        Reckoned::Standing => Ok(as_held(pod, spec, running, init, &overhead)),
    }
}

// What a pod asks for: what its containers come to, or what it asks for as a whole, which no row
// tells of a pod that waits.
#[tactic(auto, unfolding(crate::specs::PodRequest::as_asked))]
fn as_asked(
    spec: &Value,
    running: &[Container],
    init: &[Container],
    overhead: &Request,
    placed: bool,
) -> Result<Request, ObjectFault>
    requires running { length running.now ≤ 65536 }
    requires init { length init.now ≤ 65536 }
    ensures { Answers result (as_asked placed (view spec.now) running.now init.now overhead.now) }
{
    if !is_given(field(spec, "resources")) {
        return by_containers(running, init, overhead);
    }
    if placed {
        amounts(spec, "spec", Part::Asked, false)
    } else {
        Err(ObjectFault::Refused(Why::PodResources, ""))
    }
}

// What a pod's containers come to.
fn by_containers(
    running: &[Container],
    init: &[Container],
    overhead: &Request,
) -> Result<Request, ObjectFault>
    requires running { length running.now ≤ 65536 }
    requires init { length init.now ≤ 65536 }
    ensures { Answers result (by_containers running.now init.now overhead.now) }
{
    let cpu = effective(running, init, overhead, Resource::Cpu);
    let memory = effective(running, init, overhead, Resource::Memory);
    match Request::new(Cpu(cpu), Bytes(memory)) {
        Ok(request) => Ok(request),
        Err(_) => Err(ObjectFault::Refused(Why::TooLarge, "")),
    }
}

// What a pod counts for as it stands: what its containers come to, or what it asks for or holds as a
// whole, if that is more.
#[tactic(auto, unfolding(crate::specs::PodRequest::as_held))]
fn as_held(
    pod: &Value,
    spec: &Value,
    running: &[Container],
    init: &[Container],
    overhead: &Request,
) -> Request
    requires running { length running.now ≤ 65536 }
    requires init { length init.now ≤ 65536 }
    ensures { as_held (view pod.now) (view spec.now) running.now init.now overhead.now ≡ Ok result }
{
    let asked = amounts_or_most(spec, "spec", Part::Asked);
    let holds = held_as_a_whole(field(pod, "status"));
    let whole = larger(&asked, &holds);
    let cpu = or_more(running, init, overhead, &whole, Resource::Cpu);
    let memory = or_more(running, init, overhead, &whole, Resource::Memory);
    at_most(cpu, memory)
}

// What a pod holds as a whole.
fn held_as_a_whole(status: Option<&Value>) -> Request
    ensures { held_as_a_whole (option_map (λ v. view v.now) status.entry) ≡ Ok result }
{
    match status {
        Some(status) => status_request(status, "status"),
        None => at_most(0, 0),
    }
}

// How much of a resource a pod's containers come to, or what it asks for or holds as a whole.
fn or_more(
    running: &[Container],
    init: &[Container],
    overhead: &Request,
    whole: &Request,
    resource: Resource,
) -> u64
    requires running { length running.now ≤ 65536 }
    requires init { length init.now ≤ 65536 }
    ensures { result ≡ or_more resource running.now init.now overhead.now whole.now }
{
    let as_a_whole = resource.of(whole) + resource.of(overhead);
    effective(running, init, overhead, resource).max(as_a_whole)
}

// Puts the first fault by which a pod counts for more than it asks for.
#[tactic(auto, unfolding(crate::specs::PodRequest::more_left_out))]
pub(crate) fn put_more_left_out(alloc: Global, out: &mut Names, pod: &Value, spec: &Value)
    ensures { Puts out.old out.new (more_left_out (view pod.now) (view spec.now)) }
{
    match request(alloc, pod, spec, Reckoned::Placed) {
        Ok(_) => {}
        Err(ObjectFault::Refused(why, field)) => put_refused(out, why, field),
        Err(ObjectFault::NoMemory) => out.is_whole = false,
    }
}

// Whether all that a pod's status says that is held can be read.
#[tactic(auto, unfolding(crate::specs::PodRequest::is_held_read))]
pub(crate) fn is_held_read(pod: &Value, spec: &Value) -> bool
    ensures { result ≡ is_held_read (view pod.now) (view spec.now) }
{
    are_statuses_read(pod, spec, "containers", "containerStatuses")
        && are_statuses_read(pod, spec, "initContainers", "initContainerStatuses")
        && is_whole_read(field(pod, "status"))
}

// Whether what a status says of a pod as a whole can be read.
fn is_whole_read(status: Option<&Value>) -> bool
    ensures { result ≡ is_whole_read (option_map (λ v. view v.now) status.entry) }
{
    match status {
        Some(status) => is_status_read(status, "status"),
        None => true,
    }
}

// Whether what the status says of the containers in a field can be read.
#[tactic(auto, unfolding(crate::specs::PodRequest::are_statuses_read))]
fn are_statuses_read(pod: &Value, spec: &Value, key: &'static str, status_key: &'static str) -> bool
    ensures { result ≡ are_statuses_read key.now status_key.now (view pod.now) (view spec.now) }
{
    let Ok(found) = items_of(field(spec, key), key) else {
        return true;
    };
    match statuses(pod, status_key) {
        Ok(said) => are_few(found, said) && are_read(said),
        Err(_) => false,
    }
}

// Whether each of these statuses can be read.
fn are_read(said: &[Value]) -> bool
    ensures { result ≡ are_read (items_view said.now) }
{
    for status in said {
        if !is_status_read(status, "containerStatuses") {
            return false;
        }
    }
    true
}

// Whether what a status says that is held can be read.
#[tactic(auto, unfolding(crate::specs::PodRequest::is_status_read))]
fn is_status_read(status: &Value, holder: &'static str) -> bool
    ensures { result ≡ is_status_read holder.now (view status.now) }
{
    amounts(status, holder, Part::Allocated, false).is_ok()
        && amounts(status, holder, Part::Requested, false).is_ok()
}

// How much of a resource a pod needs at the moment when it needs most.
#[tactic(auto, unfolding(crate::specs::Containers::effective))]
pub(crate) fn effective(
    containers: &[Container],
    init: &[Container],
    overhead: &Request,
    resource: Resource,
) -> u64
    requires containers { length containers.now ≤ 65536 }
    requires init { length init.now ≤ 65536 }
    ensures { result ≡ effective resource containers.now init.now overhead.now }
{
    let (beside, most) = before_containers(init, resource);
    let running = together(containers, resource) + beside;
    running.max(most) + resource.of(overhead)
}

// How much of a resource containers ask together.
fn together(containers: &[Container], resource: Resource) -> u64
    requires { length containers.now ≤ 65536 }
    ensures value { result ≡ together resource containers.now }
    ensures bounded { result ≤ 2 ^ 60 }
{
    let mut sum = 0;
    for container in containers {
        sum += resource.of(&container.request);
    }
    sum
}

// How much of a resource those init containers ask together that go on running, and the most that
// one of the others needs beside those that run when it starts.
fn before_containers(init: &[Container], resource: Resource) -> (u64, u64)
    requires { length init.now ≤ 65536 }
    ensures going_on { result.0 ≡ going_on resource init.now }
    ensures peak { result.1 ≡ peak resource 0 init.now }
    ensures few_beside { result.0 ≤ 2 ^ 60 }
    ensures few { result.1 ≤ 2 ^ 60 }
{
    let mut beside = 0;
    let mut most = 0;
    for container in init {
        let (running, needed) = with_started(container, beside, most, resource);
        beside = running;
        most = needed;
    }
    (beside, most)
}

// What goes on running once one more init container has started, and the most that was needed.
fn with_started(container: &Container, beside: u64, most: u64, resource: Resource) -> (u64, u64)
    requires { beside ≤ 2 ^ 60 }
    ensures beside { result.0 ≡ beside + beside_others resource container.now }
    ensures most { result.1 ≡ (if container.now.goes_on then most
        else max (beside + of resource container.now.request) most) }
    ensures small_beside { result.0 ≤ beside + 2 ^ 44 }
    ensures small { result.1 ≤ max most (beside + 2 ^ 44) }
{
    let both = beside + resource.of(&container.request);
    if container.goes_on {
        (both, most)
    } else {
        (beside, both.max(most))
    }
}
