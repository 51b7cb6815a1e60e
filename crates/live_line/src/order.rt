//! The orders of whoever hands a ledger what the API server tells.
ghost use Rattle.std.specs.Prelude.{◌≡◌, ◌≤◌, IfOk};
ghost use Rattle.quant.specs.declared.limits.TheConstants.{LATEST_MOMENT};
ghost use Rattle.live_line.specs.declared.field.Field.TheVariants as fields;
ghost use Rattle.serde_json.specs.View.{view};
ghost use Rattle.objects.specs.Site.{site_of};
ghost use Rattle.live_line.specs.Order.{text_at, name_at, ticket_at, kind_at, outcome_at, said_by, said_of, list_in, listed_in, deaf_in, hears_in, bind_in, answer_in, if_it, bind_read, read_in, plain_order, order, labels_at, told_in, moment_at, uid_at};
ghost use Rattle.live_line.specs.inside.Reading.{Tells};

use crate::field::Field;
use ledger::{Event, Kind, Outcome, Said};
use objects::{Heard, Hearing, Site, hear};
use quant::{Event as Told, LATEST_MOMENT, MAX_TICKET, Moment, Name, Ticket};
use serde_json::Value;
use std::alloc::{AllocError, Global};

// The text in a field.
#[tactic(auto, unfolding(crate::specs::Order::text_at))]
fn text_at(object: &Value, field: Field) -> Result<&str, Field>
    ensures { Tells (λ text. text.now) result (text_at field (view object.now)) }
{
    match object.get(field.key()) {
        Some(value) => value.as_str().ok_or(field),
        None => Err(field),
    }
}

// The name in a field.
#[tactic(auto, unfolding(crate::specs::Order::name_at))]
fn name_at(object: &Value, field: Field) -> Result<Name, Field>
    ensures { result ≡ name_at field (view object.now) }
{
    let text = text_at(object, field)?;
    match Name::new(text.as_bytes()) {
        Ok(name) => Ok(name),
        Err(_) => Err(field),
    }
}

// The ticket of a bind.
#[tactic(auto, unfolding(crate::specs::Order::ticket_at))]
fn ticket_at(object: &Value) -> Result<Ticket, Field>
    ensures { result ≡ ticket_at (view object.now) }
{
    let value = object.get(Field::Ticket.key()).ok_or(Field::Ticket)?;
    match value.as_u64() {
        Some(number) if 1 <= number && number <= MAX_TICKET => Ok(Ticket(number)),
        _ => Err(Field::Ticket),
    }
}

// Which kind of objects an order is about.
#[tactic(auto, unfolding(crate::specs::Order::kind_at))]
fn kind_at(object: &Value) -> Result<Kind, Field>
    ensures { result ≡ kind_at (view object.now) }
{
    match text_at(object, Field::Of)? {
        "nodes" => Ok(Kind::Nodes),
        "pods" => Ok(Kind::Pods),
        _ => Err(Field::Of),
    }
}

// What became of a bind.
#[tactic(auto, unfolding(crate::specs::Order::outcome_at))]
fn outcome_at(object: &Value) -> Result<Outcome, Field>
    ensures { result ≡ outcome_at (view object.now) }
{
    match text_at(object, Field::Is)? {
        "created" => Ok(Outcome::Created),
        "refused" => Ok(Outcome::Refused),
        "over" => Ok(Outcome::Over),
        _ => Err(Field::Is),
    }
}

// A list begins.
#[tactic(auto, unfolding(crate::specs::Order::list_in))]
fn list_of(object: &Value) -> Result<Event, Field>
    ensures { result ≡ list_in (view object.now) }
{
    Ok(Event::ListBegins(kind_at(object)?))
}

// A list ended.
#[tactic(auto, unfolding(crate::specs::Order::listed_in))]
fn listed_of(object: &Value) -> Result<Event, Field>
    ensures { result ≡ listed_in (view object.now) }
{
    Ok(Event::ListEnds(kind_at(object)?))
}

// No watch is open.
#[tactic(auto, unfolding(crate::specs::Order::deaf_in))]
fn deaf_of(object: &Value) -> Result<Event, Field>
    ensures { result ≡ deaf_in (view object.now) }
{
    Ok(Event::Deaf(kind_at(object)?))
}

// A watch is open.
#[tactic(auto, unfolding(crate::specs::Order::hears_in))]
fn hears_of(object: &Value) -> Result<Event, Field>
    ensures { result ≡ hears_in (view object.now) }
{
    Ok(Event::Hears(kind_at(object)?))
}

// May this pod be bound to this node?
#[tactic(auto, unfolding(crate::specs::Order::bind_in))]
fn bind_of(object: &Value) -> Result<Event, Field>
    ensures { result ≡ bind_in (view object.now) }
{
    let uid = name_at(object, Field::Uid)?;
    let node = name_at(object, Field::Node)?;
    Ok(Event::Bind { uid, node })
}

// What became of a bind.
#[tactic(auto, unfolding(crate::specs::Order::answer_in))]
fn answer_of(object: &Value) -> Result<Event, Field>
    ensures { result ≡ answer_in (view object.now) }
{
    let uid = name_at(object, Field::Uid)?;
    let ticket = ticket_at(object)?;
    let outcome = outcome_at(object)?;
    Ok(Event::Answered {
        uid,
        ticket,
        outcome,
    })
}

// What is said of another pod than was asked for, as of one that was made anew under its name: that
// the one is gone.
fn if_it(uid: &Name, other: &Name, said: Said) -> Said
    ensures { result ≡ if_it uid.now other.now said }
{
    if other == uid { said } else { Said::Gone }
}

// What a read said by what was heard of it.
fn said_by(uid: &Name, heard: Heard) -> Result<Said, Field>
    ensures { result ≡ said_by uid.now heard }
{
    match heard {
        Heard::Event(
            Told::PodBound {
                version,
                uid: other,
                node,
                request,
            },
        ) => {
            let stands = Said::Stands {
                version,
                node,
                request,
            };
            Ok(if_it(uid, &other, stands))
        }
        Heard::Event(Told::PodPending { pod, .. }) => Ok(if_it(uid, &pod.uid, Said::Waits)),
        Heard::Withheld { uid: other, .. } => Ok(if_it(uid, &other, Said::Waits)),
        Heard::Event(Told::PodGone { .. }) => Ok(Said::Gone),
        Heard::Event(Told::NodeSet { .. } | Told::NodeGone { .. })
        | Heard::Nothing
        | Heard::Unread => Err(Field::Gave),
    }
}

// What a read said.
fn said_of(
    alloc: Global,
    gave: &Value,
    uid: &Name,
    site: &Site<'_>,
) -> Result<Result<Said, Field>, AllocError>
    ensures { IfOk result (λ said. said ≡ said_of (site_of site.now) uid.now (view gave.now)) }
{
    if gave.is_null() {
        return Ok(Ok(Said::Gone));
    }
    let Hearing { heard, left_out: _ } = hear(alloc, gave, site)?;
    Ok(said_by(uid, heard))
}

// Of which bind a read tells.
fn bind_read(object: &Value) -> Result<(Name, Ticket, &Value), Field>
    ensures { Tells (λ found. (found.0, found.1, view found.2.now)) result (bind_read (view object.now)) }
{
    let uid = name_at(object, Field::Uid)?;
    let ticket = ticket_at(object)?;
    let gave = object.get(Field::Gave.key()).ok_or(Field::Gave)?;
    Ok((uid, ticket, gave))
}

// What a read said that was asked for.
#[tactic(auto, unfolding(crate::specs::Order::read_in))]
fn read_of(
    alloc: Global,
    object: &Value,
    site: &Site<'_>,
) -> Result<Result<Event, Field>, AllocError>
    ensures { IfOk result (λ event. event ≡ read_in (site_of site.now) (view object.now)) }
{
    let (uid, ticket, gave) = match bind_read(object) {
        Ok(found) => found,
        Err(field) => return Ok(Err(field)),
    };
    match said_of(alloc, gave, &uid, site)? {
        Ok(said) => Ok(Ok(Event::Read { uid, ticket, said })),
        Err(field) => Ok(Err(field)),
    }
}

// What an order tells or asks whose reading takes no memory.
fn plain_order(object: &Value, op: &str) -> Result<Event, Field>
    ensures { result ≡ plain_order (view object.now) op.now }
{
    match op {
        "list" => list_of(object),
        "listed" => listed_of(object),
        "deaf" => deaf_of(object),
        "hears" => hears_of(object),
        "rested" => Ok(Event::Rested),
        "bind" => bind_of(object),
        "answer" => answer_of(object),
        _ => Err(Field::Op),
    }
}

/// What a line tells a ledger by this order, or asks of it, or the field in which its first fault
/// stands.
///
/// Errors: `AllocError`, which may come in place of any answer.
#[tactic(auto, unfolding(crate::specs::Order::order))]
pub(crate) fn order(
    alloc: Global,
    object: &Value,
    op: &str,
    site: &Site<'_>,
) -> Result<Result<Event, Field>, AllocError>
    ensures { IfOk result (λ event. event ≡ order (site_of site.now) (view object.now) op.now) }
{
    if op == "read" {
        return read_of(alloc, object, site);
    }
    Ok(plain_order(object, op))
}

// Labels, as an object of JSON.
#[tactic(auto, unfolding(crate::specs::Order::labels_at))]
fn labels_at(object: &Value) -> Result<&Value, Field>
    ensures { Tells (λ labels. view labels.now) result (labels_at (view object.now)) }
{
    let labels = object.get(Field::Labels.key()).ok_or(Field::Labels)?;
    if labels.as_object().is_some() {
        Ok(labels)
    } else {
        Err(Field::Labels)
    }
}

/// The object that an order tells, or the event of a watch, and the labels beside its own.
#[tactic(auto, unfolding(crate::specs::Order::told_in))]
pub(crate) fn told_in(object: &Value) -> Result<(&Value, &Value), Field>
    ensures { Tells (λ told. (view told.0.now, view told.1.now)) result (told_in (view object.now)) }
{
    let event = object.get(Field::Event.key()).ok_or(Field::Event)?;
    let labels = labels_at(object)?;
    Ok((event, labels))
}

/// The word of an order.
pub(crate) fn op_of(object: &Value) -> Result<&str, Field>
    ensures { Tells (λ text. text.now) result (text_at fields.Op (view object.now)) }
{
    text_at(object, Field::Op)
}

/// The moment that it is.
#[tactic(auto, unfolding(crate::specs::Order::moment_at))]
pub(crate) fn moment_at(object: &Value) -> Result<Moment, Field>
    ensures moment { result ≡ moment_at (view object.now) }
    ensures latest { IfOk result (λ now. now.0 ≤ LATEST_MOMENT) }
{
    let value = object.get(Field::At.key()).ok_or(Field::At)?;
    match value.as_u64() {
        Some(number) if number <= LATEST_MOMENT => Ok(Moment(number)),
        _ => Err(Field::At),
    }
}

/// Which pod is put aside, or explained.
#[tactic(auto, unfolding(crate::specs::Order::uid_at))]
pub(crate) fn uid_at(object: &Value) -> Result<Name, Field>
    ensures { result ≡ uid_at (view object.now) }
{
    name_at(object, Field::Uid)
}
