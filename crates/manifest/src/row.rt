//! The rows of nodes and pods, part by part.
ghost use Rattle.serde_json.specs.View.{view};
ghost use Rattle.std.specs.Prelude.{◌≡◌, []};
ghost use Rattle.manifest.specs.Reading.{Answers, Gives};
ghost use Rattle.manifest.specs.inside.Row.{allocatable_in, node_with, asked_in, pod_with};

use crate::fault::LineFault;
use crate::field::Field;
use crate::item::{fill_at, fill_at_or_leave};
use crate::members::{cpu_at, flag_at, memory_at, natural_at};
use quant::{
    AtMost, MAX_CONTAINERS, MAX_INIT_CONTAINERS, MAX_PLACED, Name, Node, Pod, QuantFault, Request,
    Res, SharedNode, SharedPod, request,
};
use serde_json::Value;
use std::alloc::Global;

// What a node has.
#[tactic(auto, unfolding(crate::specs::inside::Row::allocatable_in))]
pub(crate) fn allocatable_of(object: &Value) -> Result<Res, LineFault>
    ensures { Answers result (allocatable_in (view object.now)) }
{
    let cpu = match cpu_at(object) {
        Ok(cpu) => cpu,
        Err(fault) => return Err(fault),
    };
    let memory = match memory_at(object) {
        Ok(memory) => memory,
        Err(fault) => return Err(fault),
    };
    match natural_at(object, Field::Pods, 0, MAX_PLACED as u64) {
        Ok(pods) => Ok(Res {
            cpu,
            mem: memory,
            pods: pods as u32,
        }),
        Err(fault) => Err(fault),
    }
}

// A node's row, of which the fields in front are known.
pub(crate) fn node_with(
    alloc: Global,
    object: &Value,
    name: Name,
    allocatable: Res,
) -> Result<SharedNode, LineFault>
    ensures { Answers result (node_with name allocatable (view object.now)) }
{
    let mut node = Node {
        name,
        allocatable,
        labels: AtMost::new(alloc),
        taints: AtMost::new(alloc),
        unschedulable: false,
    };
    if let Err(fault) = fill_node(&mut node, object) {
        return Err(fault);
    }
    match SharedNode::new(alloc, node) {
        Ok(row) => Ok(row),
        Err(_) => Err(LineFault::NoMemory),
    }
}

// Fills the rest of a node's row, by reference, so that one exit drops it.
#[tactic(auto, unfolding(crate::specs::inside::Row::node_with))]
fn fill_node(node: &mut Node, object: &Value) -> Result<(), LineFault>
    requires labels { node.old.labels ≡ [] }
    requires taints { node.old.taints ≡ [] }
    ensures { Gives (λ _. node.new) result (node_with node.old.name node.old.allocatable (view object.now)) }
{
    if let Err(fault) = fill_at_or_leave(&mut node.labels, object, Field::Labels) {
        return Err(fault);
    }
    if let Err(fault) = fill_at_or_leave(&mut node.taints, object, Field::Taints) {
        return Err(fault);
    }
    match flag_at(object, Field::Unschedulable) {
        Ok(is_unschedulable) => {
            node.unschedulable = is_unschedulable;
            Ok(())
        }
        Err(fault) => Err(fault),
    }
}

// What all containers of a pod ask, or that it is too much, which is told last of a row.
#[tactic(auto, unfolding(crate::specs::inside::Row::asked_in))]
pub(crate) fn asked_of(
    alloc: Global,
    object: &Value,
) -> Result<Result<Request, QuantFault>, LineFault>
    ensures { Answers result (asked_in (view object.now)) }
{
    let mut containers: AtMost<Request, MAX_CONTAINERS> = AtMost::new(alloc);
    if let Err(fault) = fill_at(&mut containers, object, Field::Containers) {
        return Err(fault);
    }
    let mut init: AtMost<Request, MAX_INIT_CONTAINERS> = AtMost::new(alloc);
    if let Err(fault) = fill_at_or_leave(&mut init, object, Field::Init) {
        return Err(fault);
    }
    Ok(request(containers.as_slice(), init.as_slice()))
}

// A pod's row, of which the fields in front are known.
pub(crate) fn pod_with(
    alloc: Global,
    object: &Value,
    uid: Name,
    priority: i32,
    asked: Result<Request, QuantFault>,
) -> Result<SharedPod, LineFault>
    ensures { Answers result (pod_with uid priority asked (view object.now)) }
{
    let mut pod = Pod {
        uid,
        priority,
        request: Request::default(),
        labels: AtMost::new(alloc),
        tolerations: AtMost::new(alloc),
    };
    if let Err(fault) = fill_pod(&mut pod, object, asked) {
        return Err(fault);
    }
    match SharedPod::new(alloc, pod) {
        Ok(row) => Ok(row),
        Err(_) => Err(LineFault::NoMemory),
    }
}

// Fills the rest of a pod's row, by reference, so that one exit drops it.
#[tactic(auto, unfolding(crate::specs::inside::Row::pod_with))]
fn fill_pod(
    pod: &mut Pod,
    object: &Value,
    asked: Result<Request, QuantFault>,
) -> Result<(), LineFault>
    requires labels { pod.old.labels ≡ [] }
    requires tolerations { pod.old.tolerations ≡ [] }
    ensures { Gives (λ _. pod.new) result (pod_with pod.old.uid pod.old.priority asked (view object.now)) }
{
    if let Err(fault) = fill_at_or_leave(&mut pod.labels, object, Field::Labels) {
        return Err(fault);
    }
    if let Err(fault) = fill_at_or_leave(&mut pod.tolerations, object, Field::Tolerations) {
        return Err(fault);
    }
    let Ok(request) = asked else {
        return Err(LineFault::Quantity(Field::Containers));
    };
    pod.request = request;
    Ok(())
}
