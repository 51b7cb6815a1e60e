//! The taints of a node.
ghost use Rattle.std.specs.Prelude.{◌≡◌, ◌+◌, ◌≤◌, [], length, option_map};
ghost use Rattle.serde_json.specs.View.{view, items_view};
ghost use Rattle.manifest.specs.Rows.{effect_named};
ghost use Rattle.objects.specs.inside.Answers.{Gives, Answers};
ghost use Rattle.objects.specs.Reading.{each};
ghost use Rattle.objects.specs.NodeRow.{a_taint, taint_of, taints};

use crate::fault::{ObjectFault, Why};
use crate::reading::{items_of, text_at, text_or};
use manifest::{effect_named, has_taint};
use quant::{AtMost, Effect, MAX_TAINTS, Name, Taint, Text};
use serde_json::Value;

// Fills an empty row with the taints of a field, which may be absent.
#[tactic(auto, unfolding(crate::specs::NodeRow::taints), using(crate::proofs::Items::count_of_items_view))]
pub(crate) fn fill_taints(
    row: &mut AtMost<Taint, MAX_TAINTS>,
    value: Option<&Value>,
) -> Result<(), ObjectFault>
    requires { row.old ≡ [] }
    ensures { Gives (λ _. row.new) result (taints (option_map (λ v. view v.now) value.entry)) }
{
    let found = items_of(value, "taints")?;
    if found.len() > MAX_TAINTS {
        return Err(ObjectFault::Refused(Why::TooMany, "taints"));
    }
    row.reserve(found.len())?;
    take_taints(row, found)
}

// Puts the taints of an array behind those of a row, each read beside those before it.
fn take_taints(row: &mut AtMost<Taint, MAX_TAINTS>, found: &[Value]) -> Result<(), ObjectFault>
    requires { length row.old + length found.now ≤ 8 }
    ensures { Gives (λ _. row.new) result (each taint_of row.old (items_view found.now)) }
{
    for item in found {
        let taint = taint_of(row.as_slice(), item)?;
        row.push(taint)?;
    }
    Ok(())
}

// A taint beside those before it.
#[tactic(auto, unfolding(crate::specs::NodeRow::taint_of))]
fn taint_of(before: &[Taint], item: &Value) -> Result<Taint, ObjectFault>
    ensures { Answers result (taint_of before.now (view item.now)) }
{
    let key = text_at(item, "key")?;
    let value = text_or(item, "value", "")?;
    let named = text_at(item, "effect")?;
    let Some(effect) = effect_named(named) else {
        return Err(ObjectFault::Refused(Why::BadField, "effect"));
    };
    a_taint(before, key, value, effect)
}

// The taint of these parts beside those before it.
#[tactic(auto, unfolding(crate::specs::Sayable::says_taint))]
fn a_taint(before: &[Taint], key: &str, value: &str, effect: Effect) -> Result<Taint, ObjectFault>
    ensures { Answers result (a_taint before.now (record { key = key.now; value = value.now; effect = effect })) }
{
    let Ok(key) = Name::new(key.as_bytes()) else {
        return Err(ObjectFault::Refused(Why::BadName, "taints"));
    };
    let Ok(value) = Text::new(value.as_bytes()) else {
        return Err(ObjectFault::Refused(Why::BadName, "taints"));
    };
    if has_taint(before, &key, effect) {
        return Err(ObjectFault::Refused(Why::BadName, "taints"));
    }
    Ok(Taint { key, value, effect })
}
