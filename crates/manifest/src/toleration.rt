//! The tolerations of a pod.
ghost use Rattle.std.specs.Prelude.{◌≡◌};
ghost use Rattle.manifest.specs.Reading.{Answers};
ghost use Rattle.manifest.specs.Rows.{toleration, operator_named, effect_or_none, lawful};
ghost use Rattle.manifest.specs.inside.Row.{toleration_of};

use crate::fault::LineFault;
use crate::field::Field;
use crate::item::{Item, part, parts};
use crate::reading::text_from;
use crate::taint::effect_named;
use quant::{Effect, Operator, Text, Toleration};
use serde_json::Value;

impl Item for Toleration {
    ghost reading = { toleration };

    #[tactic(auto, unfolding(crate::specs::Rows::toleration, crate::specs::inside::Row::toleration_of))]
    fn read(item: &Value, _before: &[Toleration], field: Field) -> Result<Toleration, LineFault> {
        if let Some(found) = parts(item, 4)
            && let Some(key) = part(found, 0)
            && let Some(operator) = part(found, 1)
            && let Some(value) = part(found, 2)
            && let Some(effect) = part(found, 3)
        {
            return toleration_of(key, operator, value, effect, field);
        }
        Err(LineFault::BadField(field))
    }
}

// A toleration of these texts.
#[tactic(auto, unfolding(crate::specs::inside::Row::toleration_of))]
fn toleration_of(
    key: &str,
    operator: &str,
    value: &str,
    effect: &str,
    field: Field,
) -> Result<Toleration, LineFault>
    ensures { Answers result (toleration_of field key.now operator.now value.now effect.now) }
{
    if let Some(key) = text_from(key)
        && let Some(operator) = operator_named(operator)
        && let Some(value) = text_from(value)
        && let Some(effect) = effect_or_none(effect)
        && is_lawful(operator, &key, &value)
    {
        return Ok(Toleration {
            key,
            operator,
            value,
            effect,
        });
    }
    Err(LineFault::BadField(field))
}

/// Whether there is a key, under `Equal`, or no value, under `Exists`.
pub fn is_lawful(operator: Operator, key: &Text, value: &Text) -> bool
    ensures { result ≡ lawful operator key.now value.now }
{
    match operator {
        Operator::Equal => !key.as_bytes().is_empty(),
        Operator::Exists => value.as_bytes().is_empty(),
    }
}

/// The operator of this name. No name is that of `Equal`.
#[tactic(auto, unfolding(crate::specs::Rows::operator_named))]
pub fn operator_named(name: &str) -> Option<Operator>
    ensures { result ≡ operator_named name.now }
{
    match name {
        "" | "Equal" => Some(Operator::Equal),
        "Exists" => Some(Operator::Exists),
        _ => None,
    }
}

/// The effect of this name. No name is that of no effect, which stands for every one.
#[tactic(auto, unfolding(crate::specs::Rows::effect_or_none))]
pub fn effect_or_none(name: &str) -> Option<Option<Effect>>
    ensures { result ≡ effect_or_none name.now }
{
    if name.is_empty() {
        return Some(None);
    }
    match effect_named(name) {
        Some(effect) => Some(Some(effect)),
        None => None,
    }
}
