//! What a line tells of a cluster, or asks.
ghost use Rattle.std.specs.Prelude.{◌≡◌, [], IfOk, Ok};
ghost use Rattle.serde_json.specs.View.{view};
ghost use Rattle.objects.specs.Site.{site_of};
ghost use Rattle.live_line.specs.Scope.{site_of as within};
ghost use Rattle.quant.specs.declared.limits.TheConstants.{LATEST_MOMENT};
ghost use Rattle.live_line.specs.Meaning.{behind, is_order, of_aside, of_explain, of_moment, of_object, of_op, of_order, of_told, of_value, of_word, meaning, order_reasons, reasons, reasons_of, reasons_told};
ghost use Rattle.live_line.specs.Order.{moment_at, text_at, told_in, uid_at};
ghost use Rattle.live_line.specs.declared.field.Field.TheVariants as fields;

use crate::field::Field;
use crate::order::{moment_at, op_of, order, told_in, uid_at};
use crate::scope::Scope;
use ledger::Event;
use objects::{Heard, Hearing, Site, hear, hear_none, value_in};
use quant::{Event as Told, Moment, Name, SharedPod, Version};
use serde_json::Value;
use std::alloc::{AllocError, Global};

/// What a line tells of a cluster, or asks.
#[derive(Drop)]
pub enum Meaning {
    /// It tells a ledger this, or asks it.
    Tells(Event),
    /// A pod waits, as of this version, with this row.
    Pending(Version, SharedPod),
    /// A pod that waits is put aside.
    Aside(Name),
    /// It is this moment.
    Tick(Moment),
    /// Where does the pod go that goes first?
    Cycle,
    /// What do the rules say of each node for this pod?
    Explain(Name),
    /// What does the desk know?
    Dump,
    /// Nothing.
    Nothing,
    /// It is an order, whose first fault stands in this field.
    Faulty(Field),
}

/// What a line tells of a cluster, or asks, and what of its object isn't told.
#[derive(Drop)]
pub struct Meant {
    /// What it tells or asks.
    pub meaning: Meaning,
    /// What is left out of an object, as it stands behind the word that answers it.
    pub reasons: Vec<u8>,
}

// What an object of the API tells.
fn of_object(heard: Heard) -> Meaning
    ensures { result ≡ of_object heard }
{
    let event = match heard {
        Heard::Event(Told::NodeSet { version, node }) => Event::Node { version, node },
        Heard::Event(Told::NodeGone { name, .. }) => Event::NodeGone { name },
        Heard::Event(Told::PodPending { version, pod }) => return Meaning::Pending(version, pod),
        Heard::Event(
            Told::PodBound {
                version,
                uid,
                node,
                request,
            },
        ) => Event::Stands {
            version,
            uid,
            node,
            request,
        },
        Heard::Event(Told::PodGone { uid, .. }) => Event::Gone { uid },
        Heard::Withheld { version, uid } => Event::Withheld { version, uid },
        Heard::Unread => Event::Unread,
        Heard::Nothing => return Meaning::Nothing,
    };
    Meaning::Tells(event)
}

// Whether an object is an order.
#[tactic(auto, unfolding(crate::specs::Meaning::is_order))]
fn is_order(json: &Value) -> bool
    ensures { result ≡ is_order (view json.now) }
{
    json.get(Field::Op.key()).is_some()
}

// What stands behind the word that answers an object of which this is left out.
fn behind(alloc: Global, names: &[u8]) -> Result<Vec<u8>, AllocError>
    ensures { IfOk result (λ text. text.items ≡ behind names.now) }
{
    let mut text = Vec::new(alloc);
    if names.is_empty() {
        return Ok(text);
    }
    text.extend_from_slice(b" [")?;
    text.extend_from_slice(names)?;
    text.extend_from_slice(b"]")?;
    Ok(text)
}

// What is meant by what was heard of an object, or of a line without one.
fn of_hearing(alloc: Global, hearing: Hearing) -> Result<Meant, AllocError>
    ensures meaning { IfOk result (λ meant. meant.meaning ≡ of_object hearing.heard) }
    ensures reasons { IfOk result (λ meant. meant.reasons.items ≡ behind hearing.left_out.items) }
{
    let Hearing { heard, left_out } = hearing;
    let reasons = behind(alloc, &left_out)?;
    Ok(Meant {
        meaning: of_object(heard),
        reasons,
    })
}

// What a value tells or asks.
fn of_value(alloc: Global, json: &Value, site: &Site<'_>) -> Result<Meant, AllocError>
    ensures meaning { IfOk result (λ meant. meant.meaning ≡ of_value (site_of site.now) (Ok (view json.now))) }
    ensures reasons { IfOk result (λ meant. meant.reasons.items ≡ reasons_of (site_of site.now) (Ok (view json.now))) }
{
    if is_order(json) {
        of_op(alloc, json, site)
    } else {
        of_hearing(alloc, hear(alloc, json, site)?)
    }
}

// What an order tells or asks.
fn of_op(alloc: Global, json: &Value, site: &Site<'_>) -> Result<Meant, AllocError>
    ensures meaning { IfOk result (λ meant. meant.meaning ≡ of_op (site_of site.now) (view json.now)
        (text_at fields.Op (view json.now))) }
    ensures reasons { IfOk result (λ meant. meant.reasons.items ≡ order_reasons (site_of site.now) (view json.now)
        (text_at fields.Op (view json.now))) }
{
    match op_of(json) {
        Ok("told") => of_told(alloc, json, site),
        Ok(op) => Ok(alone(alloc, of_word(alloc, json, op, site)?)),
        Err(field) => Ok(alone(alloc, Meaning::Faulty(field))),
    }
}

// What is meant, where there is nothing else to say.
fn alone(alloc: Global, meaning: Meaning) -> Meant
    ensures meaning { result.meaning ≡ meaning }
    ensures reasons { result.reasons.items ≡ [] }
{
    Meant {
        meaning,
        reasons: Vec::new(alloc),
    }
}

// What is told of an object with labels beside its own.
fn of_told(alloc: Global, json: &Value, site: &Site<'_>) -> Result<Meant, AllocError>
    ensures meaning { IfOk result (λ meant. meant.meaning ≡ of_told (site_of site.now) (told_in (view json.now))) }
    ensures reasons { IfOk result (λ meant. meant.reasons.items
        ≡ reasons_told (site_of site.now) (told_in (view json.now))) }
{
    match told_in(json) {
        Ok((event, labels)) => {
            let site = Site {
                scheduler: site.scheduler,
                labels: site.labels,
                beside: Some(labels),
            };
            of_hearing(alloc, hear(alloc, event, &site)?)
        }
        Err(field) => Ok(alone(alloc, Meaning::Faulty(field))),
    }
}

// What any other order tells or asks, by its word.
fn of_word(alloc: Global, json: &Value, op: &str, site: &Site<'_>) -> Result<Meaning, AllocError>
    ensures { IfOk result (λ meaning. meaning ≡ of_word (site_of site.now) (view json.now) op.now) }
{
    match op {
        "cycle" => Ok(Meaning::Cycle),
        "tick" => Ok(of_moment(json)),
        "aside" => Ok(of_aside(json)),
        "explain" => Ok(of_explain(json)),
        "dump" => Ok(Meaning::Dump),
        _ => Ok(of_order(order(alloc, json, op, site)?)),
    }
}

// What a ledger is told or asked by an order, or its first fault.
fn of_order(order: Result<Event, Field>) -> Meaning
    ensures { result ≡ of_order order }
{
    match order {
        Ok(event) => Meaning::Tells(event),
        Err(field) => Meaning::Faulty(field),
    }
}

// That it is a moment.
fn of_moment(json: &Value) -> Meaning
    ensures { result ≡ of_moment (moment_at (view json.now)) }
{
    match moment_at(json) {
        Ok(now) => Meaning::Tick(now),
        Err(field) => Meaning::Faulty(field),
    }
}

// That a pod is put aside.
fn of_aside(json: &Value) -> Meaning
    ensures { result ≡ of_aside (uid_at (view json.now)) }
{
    match uid_at(json) {
        Ok(uid) => Meaning::Aside(uid),
        Err(field) => Meaning::Faulty(field),
    }
}

// That a pod is explained.
fn of_explain(json: &Value) -> Meaning
    ensures { result ≡ of_explain (uid_at (view json.now)) }
{
    match uid_at(json) {
        Ok(uid) => Meaning::Explain(uid),
        Err(field) => Meaning::Faulty(field),
    }
}

/// What a line tells of a cluster, or asks, and what of its object isn't told. What may be a pod on
/// a node, and can't be read, is told as just that.
///
/// Errors: `AllocError`, which may come in place of any answer.
#[tactic(auto, unfolding(crate::specs::Meaning::meaning, crate::specs::Meaning::reasons))]
pub fn meaning_of(alloc: Global, line: &[u8], scope: &Scope<'_>) -> Result<Meant, AllocError>
    ensures meaning { IfOk result (λ meant. meant.meaning ≡ meaning (within scope.now) line.now) }
    ensures reasons { IfOk result (λ meant. meant.reasons.items ≡ reasons (within scope.now) line.now) }
{
    let site = Site {
        scheduler: scope.scheduler,
        labels: scope.labels,
        beside: None,
    };
    match value_in(alloc, line)? {
        Ok(json) => of_value(alloc, &json, &site),
        Err(why) => of_hearing(alloc, hear_none(alloc, why)?),
    }
}
