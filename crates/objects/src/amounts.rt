//! The amounts in an object: what a pod asks for or holds of each resource, and what a node has.
ghost use Rattle.std.specs.Prelude.{◌≡◌, ◌≤◌, true, Ok, IfOk, option_map};
ghost use Rattle.serde_json.specs.View.{view};
ghost use Rattle.objects.specs.Quantity.{most};
ghost use Rattle.objects.specs.declared.amounts.Part.TheVariants as parts;
ghost use Rattle.objects.specs.Amounts.{amount_of, offered, allocatable, under, in_resources, found_in, amount_in, at_most, taken, amounts};
ghost use Rattle.objects.specs.inside.Answers.{Answers, Tells};
ghost use Rattle.objects.specs.inside.Listed.{listed};

use crate::fault::{ObjectFault, Why};
use crate::quantity::{Rounding, quantity};
use crate::reading::{field, part_of, within};
use crate::resource::Resource;
use quant::{Bytes, Cpu, MAX_CPU, MAX_MEM, Request, Res};
use serde_json::Value;

// The amount that a value spells, and none where there is no value.
pub(crate) fn amount_of(
    value: Option<&Value>,
    resource: Resource,
    rounding: Rounding,
) -> Result<u64, ObjectFault>
    ensures value { Tells (λ n. n) result (amount_of rounding resource (option_map (λ v. view v.now) value.entry)) }
    ensures bounded { IfOk result (λ n. n ≤ most resource) }
{
    let Some(value) = value else {
        return Ok(0);
    };
    let Some(text) = value.as_str() else {
        return Err(ObjectFault::Refused(Why::BadField, resource.key()));
    };
    match quantity(text.as_bytes(), resource, rounding) {
        Ok(amount) => Ok(amount),
        Err(fault) => Err(ObjectFault::Refused(Why::Quantity(fault), resource.key())),
    }
}

// What a node has of a resource, by its status.
fn offered(status: &Value, resource: Resource) -> Result<u64, ObjectFault>
    ensures value { Tells (λ n. n) result (offered resource (view status.now)) }
    ensures bounded { IfOk result (λ n. n ≤ most resource) }
{
    let found = within(status, "allocatable", resource.key());
    amount_of(found, resource, Rounding::Down)
}

// What a node has for pods, by its object: `cpu`, `memory` and `pods` of its status's
// `allocatable`, rounded down, each of which is 0 where it is absent.
#[tactic(auto, unfolding(crate::specs::Amounts::allocatable))]
pub(crate) fn allocatable(node: &Value) -> Result<Res, ObjectFault>
    ensures { Answers result (allocatable (view node.now)) }
{
    let status = part_of(node, "status")?;
    let cpu = offered(status, Resource::Cpu)?;
    let mem = offered(status, Resource::Memory)?;
    let pods = offered(status, Resource::Pods)?;
    Ok(Res {
        cpu: Cpu(cpu),
        mem: Bytes(mem),
        pods: pods as u32,
    })
}

// A field of what stands in the field `holder`, where something does: that has to be an object.
pub(crate) fn under<'a>(
    value: Option<&'a Value>,
    holder: &'static str,
    key: &'static str,
) -> Result<Option<&'a Value>, ObjectFault>
    ensures { Tells (λ found. option_map (λ v. view v.now) found) result
        (under holder.now key.now (option_map (λ v. view v.now) value.entry)) }
{
    let Some(object) = value else {
        return Ok(None);
    };
    if object.as_object().is_none() {
        return Err(ObjectFault::Refused(Why::BadField, holder));
    }
    Ok(field(object, key))
}

// An amount in a field of amounts of what stands in the field `holder`.
fn listed_in<'a>(
    value: Option<&'a Value>,
    holder: &'static str,
    part: &'static str,
    resource: Resource,
) -> Result<Option<&'a Value>, ObjectFault>
    ensures { Tells (λ found. option_map (λ v. view v.now) found) result
        (listed holder.now part.now resource (option_map (λ v. view v.now) value.entry)) }
{
    let amounts = under(value, holder, part)?;
    under(amounts, part, resource.key())
}

// An amount in a part of the resources of what stands in the field `holder`.
#[tactic(auto, unfolding(crate::specs::Amounts::in_resources))]
fn in_resources<'a>(
    object: &'a Value,
    holder: &'static str,
    part: &'static str,
    resource: Resource,
) -> Result<Option<&'a Value>, ObjectFault>
    ensures { Tells (λ found. option_map (λ v. view v.now) found) result
        (in_resources holder.now part.now resource (view object.now)) }
{
    let resources = under(Some(object), holder, "resources")?;
    listed_in(resources, "resources", part, resource)
}

/// Where an object tells amounts.
#[derive(Clone, Copy)]
pub(crate) enum Part {
    /// What it asks for.
    Asked,
    /// What running a pod costs beside its containers.
    Overhead,
    /// What a status says that the node has set aside.
    Allocated,
    /// What a status says that is in force.
    Requested,
}

// How much is asked for: a request, or a limit where there is no request.
#[tactic(auto, unfolding(crate::specs::Amounts::found_in))]
fn asked<'a>(
    object: &'a Value,
    holder: &'static str,
    resource: Resource,
) -> Result<Option<&'a Value>, ObjectFault>
    ensures { Tells (λ found. option_map (λ v. view v.now) found) result
        (found_in parts.Asked holder.now resource (view object.now)) }
{
    let request = in_resources(object, holder, "requests", resource)?;
    let limit = in_resources(object, holder, "limits", resource)?;
    Ok(request.or(limit))
}

// What a part of an object says of a resource.
#[tactic(auto, unfolding(crate::specs::Amounts::found_in))]
fn found_in<'a>(
    object: &'a Value,
    holder: &'static str,
    part: Part,
    resource: Resource,
) -> Result<Option<&'a Value>, ObjectFault>
    ensures { Tells (λ found. option_map (λ v. view v.now) found) result
        (found_in part holder.now resource (view object.now)) }
{
    match part {
        Part::Asked => asked(object, holder, resource),
        Part::Overhead => listed_in(Some(object), holder, "overhead", resource),
        Part::Allocated => listed_in(Some(object), holder, "allocatedResources", resource),
        Part::Requested => in_resources(object, holder, "requests", resource),
    }
}

// How much of a resource a part of an object tells, which stands in the field `holder`.
#[tactic(auto, unfolding(crate::specs::Amounts::amount_in))]
fn amount_in(
    object: &Value,
    holder: &'static str,
    part: Part,
    resource: Resource,
) -> Result<u64, ObjectFault>
    ensures { Tells (λ n. n) result (amount_in part holder.now resource (view object.now)) }
{
    amount_of(
        found_in(object, holder, part, resource)?,
        resource,
        Rounding::Up,
    )
}

// The same, or the most of it, where that can't be read.
fn amount_or_most(object: &Value, holder: &'static str, part: Part, resource: Resource) -> u64
    ensures { taken true (most resource) (amount_in part holder.now resource (view object.now)) ≡ Ok result }
{
    match amount_in(object, holder, part, resource) {
        Ok(amount) => amount,
        Err(_) => resource.most(),
    }
}

// The amounts that a part of an object tells, which stands in the field `holder`, where the most
// stands for what can't be read.
#[tactic(auto, unfolding(crate::specs::Amounts::amounts))]
pub(crate) fn amounts_or_most(object: &Value, holder: &'static str, part: Part) -> Request
    ensures { amounts true part holder.now (view object.now) ≡ Ok result }
{
    let cpu = amount_or_most(object, holder, part, Resource::Cpu);
    let memory = amount_or_most(object, holder, part, Resource::Memory);
    at_most(cpu, memory)
}

// The amounts that a part of an object tells, which stands in the field `holder`. Where the pod
// stands on a node, the most stands for what can't be read.
#[tactic(auto, unfolding(crate::specs::Amounts::amounts))]
pub(crate) fn amounts(
    object: &Value,
    holder: &'static str,
    part: Part,
    stands: bool,
) -> Result<Request, ObjectFault>
    ensures { Tells (λ request. request) result (amounts stands part holder.now (view object.now)) }
{
    if stands {
        return Ok(amounts_or_most(object, holder, part));
    }
    let cpu = amount_in(object, holder, part, Resource::Cpu)?;
    let memory = amount_in(object, holder, part, Resource::Memory)?;
    Ok(at_most(cpu, memory))
}

// A request of so much of each resource, or of the most that a line can say of it where it is more.
#[tactic(auto, unfolding(crate::specs::Amounts::at_most), using(crate::proofs::Requests::same_request))]
pub(crate) fn at_most(cpu: u64, memory: u64) -> Request
    ensures { result ≡ at_most cpu memory }
{
    Request {
        cpu: Cpu(cpu.min(MAX_CPU)),
        mem: Bytes(memory.min(MAX_MEM)),
    }
}
