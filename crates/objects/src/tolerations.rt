//! The tolerations that a row has of a pod's.
ghost use Rattle.std.specs.Prelude.{◌≡◌, ◌<◌, codes, length, OnSome, option_map, option_and_then};
ghost use Rattle.serde_json.specs.View.{view, items_view};
ghost use Rattle.manifest.specs.Rows.{operator_named, effect_or_none};
ghost use Rattle.objects.specs.Reading.{spelled};
ghost use Rattle.objects.specs.Reading.{field};
ghost use Rattle.objects.specs.Labels.{with_item};
ghost use Rattle.objects.specs.PodRow.{text_if, fitting, toleration_of, tolerations_of};
ghost use Rattle.objects.specs.inside.Members.{kept};
ghost use Rattle.objects.specs.inside.Puts.{WhenWhole};

use crate::left_out::{Names, put_left_out};
use crate::reading::{field, spelled};
use manifest::{effect_or_none, is_lawful, operator_named};
use quant::{AtMost, Effect, MAX_TOLERATIONS, Operator, Text, Toleration};
use serde_json::Value;

// Puts the tolerations of an array's items behind others, in memory that is taken once, and the
// names of those that are left out.
pub(crate) fn fill_tolerations(
    tolerations: &mut AtMost<Toleration, MAX_TOLERATIONS>,
    out: &mut Names,
    found: &[Value],
)
    ensures { WhenWhole out.old out.new
        (tolerations_of (kept tolerations.old out.old.bytes.items) (items_view found.now)
        ≡ kept tolerations.new out.new.bytes.items) }
{
    let Ok(()) = tolerations.reserve(found.len().min(MAX_TOLERATIONS)) else {
        out.is_whole = false;
        return;
    };
    for item in found {
        take_toleration(tolerations, out, item);
    }
}

// Takes a toleration behind others, or puts the name of one that is left out.
fn take_toleration(
    tolerations: &mut AtMost<Toleration, MAX_TOLERATIONS>,
    out: &mut Names,
    item: &Value,
)
    ensures { WhenWhole out.old out.new
        (with_item (codes "toleration of ") (spelled (codes "key") (view item.now))
        (kept tolerations.old out.old.bytes.items) (toleration_of tolerations.old (view item.now))
        ≡ kept tolerations.new out.new.bytes.items) }
{
    match toleration_of(tolerations.as_slice(), item) {
        Some(toleration) => {
            let Ok(()) = tolerations.push(toleration) else {
                out.is_whole = false;
                return;
            };
        }
        None => put_left_out(out, "toleration of ", spelled(item, "key").as_bytes()),
    }
}

// The toleration of an item, where a row can have it behind others.
#[tactic(auto, unfolding(crate::specs::PodRow::toleration_of))]
fn toleration_of(before: &[Toleration], item: &Value) -> Option<Toleration>
    ensures value { result ≡ toleration_of before.now (view item.now) }
    ensures room { OnSome result (length before.now < 16) }
{
    let (Some(operator), Some(effect)) = (operator_of(item), effect_of(item)) else {
        return None;
    };
    let (Some(key), Some(value)) = (text_if(item, "key"), text_if(item, "value")) else {
        return None;
    };
    fitting(before, key, operator, value, effect)
}

// The operator of an item.
fn operator_of(item: &Value) -> Option<Operator>
    ensures { result ≡ option_and_then operator_named (text_if (field (codes "operator") (view item.now))) }
{
    operator_named(text_if(item, "operator")?)
}

// The effect of an item, where none stands for every one.
fn effect_of(item: &Value) -> Option<Option<Effect>>
    ensures { result ≡ option_and_then effect_or_none (text_if (field (codes "effect") (view item.now))) }
{
    effect_or_none(text_if(item, "effect")?)
}

// The text in a field that may be absent. What is no text gives no toleration, since an empty key
// or effect stands for every one.
fn text_if<'a>(item: &'a Value, key: &str) -> Option<&'a str>
    ensures { option_map (λ text. text.now) result ≡ text_if (field key.now (view item.now)) }
{
    match field(item, key) {
        Some(value) => value.as_str(),
        None => Some(""),
    }
}

// A toleration, where a row can have it behind others.
#[tactic(auto, unfolding(crate::specs::Sayable::says_toleration))]
fn fitting(
    before: &[Toleration],
    key: &str,
    operator: Operator,
    value: &str,
    effect: Option<Effect>,
) -> Option<Toleration>
    ensures value { result ≡ fitting before.now
        (record { key = key.now; operator = operator; value = value.now; effect = effect }) }
    ensures room { OnSome result (length before.now < 16) }
{
    let Ok(key) = Text::new(key.as_bytes()) else {
        return None;
    };
    let Ok(value) = Text::new(value.as_bytes()) else {
        return None;
    };
    if before.len() < MAX_TOLERATIONS && is_lawful(operator, &key, &value) {
        Some(Toleration {
            key,
            operator,
            value,
            effect,
        })
    } else {
        None
    }
}
