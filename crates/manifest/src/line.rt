//! From a line to its command.
ghost use Rattle.std.specs.Prelude.{◌≡◌, IfOk};
ghost use Rattle.serde_json.specs.View.{view};
ghost use Rattle.manifest.specs.Reading.{Answers};
ghost use Rattle.manifest.specs.Line.{version_in, ticket_in, node_in, gone_in, row_in, pod_in, bound_in, deleted_in, tick_in, done_in, forget_in, judge_in, command_in, meaning, IsTimely};

use crate::command::{Command, Question};
use crate::container::request_within;
use crate::fault::LineFault;
use crate::field::Field;
use crate::members::{cpu_at, flag_at, memory_at, name_at, natural_at, signed_at, text_at};
use crate::operation::Operation;
use crate::reading::parse;
use crate::row::{allocatable_of, asked_of, node_with, pod_with};
use quant::{Event, LATEST_MOMENT, MAX_TICKET, MAX_VERSION, Moment, SharedPod, Ticket, Version};
use serde_json::Value;
use std::alloc::Global;

/// The most bytes of a line, its newline not counted.
pub const MAX_LINE: usize = 65_536;

// A cycle and a dump as most who ask for one spell it: they are known without the reader of JSON.
const CYCLE: &[u8] = b"{\"op\":\"cycle\"}";

const DUMP: &[u8] = b"{\"op\":\"dump\"}";

/// The command that a line spells, without its newline, or the line's first fault.
///
/// A line is one JSON object. `op` is read first, and then the operation's fields in this order;
/// those in brackets may be absent. Other keys are passed over.
///
/// | `op` | Fields | Command |
/// |---|---|---|
/// | `node` | `v`, `name`, `cpu`, `mem`, `pods`, [`labels`], [`taints`], [`unschedulable`] | node |
/// | `gone` | `v`, `name` | the node is gone |
/// | `pod` | `v`, `uid`, [`priority`], `containers`, [`init`], [`labels`], [`tolerations`] | pod |
/// | `bound` | `v`, `uid`, `node`, `cpu`, `mem` | a pod that runs |
/// | `deleted` | `v`, `uid` | the pod is gone |
/// | `tick` | `at` | the clock |
/// | `cycle` | | the next pod is placed |
/// | `done` | `uid`, `ticket` | the pod was bound |
/// | `forget` | `uid`, `ticket` | the pod could not be bound |
/// | `dump` | | the state is printed |
/// | `judge` | those of `pod`, [`filters`] | what the rules alone say of each node is printed |
///
/// Errors: `OverLimit` of `op` for a line that is too long, which is not read as JSON; `NotJson`
/// where the line is not JSON or nests deeper than 127; `BadField` of `op` for a line that is no
/// object or has no known `op`; `BadField` of a field that is missing, has another type, is not
/// an integer of 64 bits, or has a text that is no name, text, effect or operator; `OverLimit` of
/// an integer out of its range and of an array with too many items or too few; `Quantity` of an
/// amount that `quant` refuses, and of `containers` where the pod's whole request is too large,
/// which is told last of a pod's row; `NoMemory`, which may come in place of any other answer.
pub fn read_line(alloc: Global, line: &[u8]) -> Result<Command, LineFault>
    ensures value { Answers result (meaning line.now) }
    ensures timely { IfOk result IsTimely }
{
    if line == CYCLE {
        return Ok(Command::Cycle);
    }
    if line == DUMP {
        return Ok(Command::Dump);
    }
    read_object(alloc, line)
}

// The command that a line spells, by the reader of JSON.
#[tactic(auto, unfolding(crate::specs::Line::meaning))]
fn read_object(alloc: Global, line: &[u8]) -> Result<Command, LineFault>
    ensures { Answers result (meaning line.now) }
{
    if line.len() > MAX_LINE {
        return Err(LineFault::OverLimit(Field::Op));
    }
    match parse(alloc, line) {
        Ok(value) => command_of(alloc, &value),
        Err(fault) => Err(fault),
    }
}

// The command that an object spells.
#[tactic(auto, unfolding(crate::specs::Line::command_in, crate::specs::Line::fields_of))]
fn command_of(alloc: Global, object: &Value) -> Result<Command, LineFault>
    ensures { Answers result (command_in (view object.now)) }
{
    let Some(op) = text_at(object, Field::Op) else {
        return Err(LineFault::BadField(Field::Op));
    };
    let Some(operation) = Operation::named(op) else {
        return Err(LineFault::BadField(Field::Op));
    };
    match operation {
        Operation::Node => node_of(alloc, object),
        Operation::Gone => gone_of(object),
        Operation::Pod => pod_of(alloc, object),
        Operation::Bound => bound_of(object),
        Operation::Deleted => deleted_of(object),
        Operation::Tick => tick_of(object),
        Operation::Cycle => Ok(Command::Cycle),
        Operation::Done => done_of(object),
        Operation::Forget => forget_of(object),
        Operation::Dump => Ok(Command::Dump),
        Operation::Judge => judge_of(alloc, object),
    }
}

// The node that an object tells of. (Where a name or a row would be dropped, a fault is handed on by
// a `match`, whose proof is half of that of a `?`: here, and in `row` and `item`.)
fn node_of(alloc: Global, object: &Value) -> Result<Command, LineFault>
    ensures { Answers result (node_in (view object.now)) }
{
    let version = version_at(object)?;
    let name = match name_at(object, Field::Name) {
        Ok(name) => name,
        Err(fault) => return Err(fault),
    };
    let allocatable = match allocatable_of(object) {
        Ok(allocatable) => allocatable,
        Err(fault) => return Err(fault),
    };
    match node_with(alloc, object, name, allocatable) {
        Ok(node) => Ok(Command::Event(Event::NodeSet { version, node })),
        Err(fault) => Err(fault),
    }
}

// The node that an object says is gone.
#[tactic(auto, unfolding(crate::specs::Line::gone_in))]
fn gone_of(object: &Value) -> Result<Command, LineFault>
    ensures { Answers result (gone_in (view object.now)) }
{
    let version = version_at(object)?;
    match name_at(object, Field::Name) {
        Ok(name) => Ok(Command::Event(Event::NodeGone { version, name })),
        Err(fault) => Err(fault),
    }
}

// The pod that an object tells of.
#[tactic(auto, unfolding(crate::specs::Line::pod_in))]
fn pod_of(alloc: Global, object: &Value) -> Result<Command, LineFault>
    ensures { Answers result (pod_in (view object.now)) }
{
    match row_of(alloc, object) {
        Ok((version, pod)) => Ok(Command::Event(Event::PodPending { version, pod })),
        Err(fault) => Err(fault),
    }
}

// What an object asks of the rules.
#[tactic(auto, unfolding(crate::specs::Line::judge_in))]
fn judge_of(alloc: Global, object: &Value) -> Result<Command, LineFault>
    ensures { Answers result (judge_in (view object.now)) }
{
    let (_version, pod) = row_of(alloc, object)?;
    match flag_at(object, Field::Filters) {
        Ok(filters_alone) => Ok(Command::Judge(Question { pod, filters_alone })),
        Err(fault) => Err(fault),
    }
}

// The version and the pod's row of an object.
fn row_of(alloc: Global, object: &Value) -> Result<(Version, SharedPod), LineFault>
    ensures { Answers result (row_in (view object.now)) }
{
    let version = version_at(object)?;
    let uid = match name_at(object, Field::Uid) {
        Ok(uid) => uid,
        Err(fault) => return Err(fault),
    };
    let priority = match signed_at(object, Field::Priority) {
        Ok(priority) => priority,
        Err(fault) => return Err(fault),
    };
    let asked = match asked_of(alloc, object) {
        Ok(asked) => asked,
        Err(fault) => return Err(fault),
    };
    match pod_with(alloc, object, uid, priority, asked) {
        Ok(pod) => Ok((version, pod)),
        Err(fault) => Err(fault),
    }
}

// The place that an object tells of.
#[tactic(auto, unfolding(crate::specs::Line::bound_in, crate::specs::Reading::request))]
fn bound_of(object: &Value) -> Result<Command, LineFault>
    ensures { Answers result (bound_in (view object.now)) }
{
    let version = version_at(object)?;
    let uid = match name_at(object, Field::Uid) {
        Ok(uid) => uid,
        Err(fault) => return Err(fault),
    };
    let node = match name_at(object, Field::Node) {
        Ok(node) => node,
        Err(fault) => return Err(fault),
    };
    let cpu = match cpu_at(object) {
        Ok(cpu) => cpu,
        Err(fault) => return Err(fault),
    };
    let mem = match memory_at(object) {
        Ok(mem) => mem,
        Err(fault) => return Err(fault),
    };
    Ok(Command::Event(Event::PodBound {
        version,
        uid,
        node,
        request: request_within(cpu, mem),
    }))
}

// The pod that an object says is gone.
#[tactic(auto, unfolding(crate::specs::Line::deleted_in))]
fn deleted_of(object: &Value) -> Result<Command, LineFault>
    ensures { Answers result (deleted_in (view object.now)) }
{
    let version = version_at(object)?;
    match name_at(object, Field::Uid) {
        Ok(uid) => Ok(Command::Event(Event::PodGone { version, uid })),
        Err(fault) => Err(fault),
    }
}

// The moment that an object tells of.
#[tactic(auto, unfolding(crate::specs::Line::tick_in))]
fn tick_of(object: &Value) -> Result<Command, LineFault>
    ensures { Answers result (tick_in (view object.now)) }
{
    let moment = natural_at(object, Field::At, 0, LATEST_MOMENT)?;
    Ok(Command::Tick(Moment(moment)))
}

// The pod that an object says was bound.
#[tactic(auto, unfolding(crate::specs::Line::done_in))]
fn done_of(object: &Value) -> Result<Command, LineFault>
    ensures { Answers result (done_in (view object.now)) }
{
    let uid = name_at(object, Field::Uid)?;
    match ticket_at(object) {
        Ok(ticket) => Ok(Command::BindDone { uid, ticket }),
        Err(fault) => Err(fault),
    }
}

// The pod that an object says could not be bound.
#[tactic(auto, unfolding(crate::specs::Line::forget_in))]
fn forget_of(object: &Value) -> Result<Command, LineFault>
    ensures { Answers result (forget_in (view object.now)) }
{
    let uid = name_at(object, Field::Uid)?;
    match ticket_at(object) {
        Ok(ticket) => Ok(Command::Forget { uid, ticket }),
        Err(fault) => Err(fault),
    }
}

// The version of an event.
#[tactic(auto, unfolding(crate::specs::Line::version_in))]
fn version_at(object: &Value) -> Result<Version, LineFault>
    ensures { Answers result (version_in (view object.now)) }
{
    Ok(Version(natural_at(object, Field::Version, 1, MAX_VERSION)?))
}

// The ticket of an assumed place.
#[tactic(auto, unfolding(crate::specs::Line::ticket_in))]
fn ticket_at(object: &Value) -> Result<Ticket, LineFault>
    ensures { Answers result (ticket_in (view object.now)) }
{
    Ok(Ticket(natural_at(object, Field::Ticket, 1, MAX_TICKET)?))
}
