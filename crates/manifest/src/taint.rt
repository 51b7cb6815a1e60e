//! The taints of a node, and the effects that they may have.
ghost use Rattle.std.specs.Prelude.{◌≡◌, ◌&&◌, bytes_eq};
ghost use Rattle.std.specs.List.{list_any};
ghost use Rattle.quant.specs.Effect.{same_effect};
ghost use Rattle.manifest.specs.Rows.{taint, effect_named};

use crate::fault::LineFault;
use crate::field::Field;
use crate::item::{Item, part, parts};
use crate::reading::{name_from, text_from};
use quant::{Effect, Name, Taint};
use serde_json::Value;

impl Item for Taint {
    ghost reading = { taint };

    #[tactic(auto, unfolding(crate::specs::Rows::taint))]
    fn read(item: &Value, before: &[Taint], field: Field) -> Result<Taint, LineFault> {
        if let Some(found) = parts(item, 3)
            && let Some(key) = part(found, 0)
            && let Some(value) = part(found, 1)
            && let Some(effect) = part(found, 2)
            && let Some(key) = name_from(key)
            && let Some(value) = text_from(value)
            && let Some(effect) = effect_named(effect)
            && !has_taint(before, &key, effect)
        {
            return Ok(Taint { key, value, effect });
        }
        Err(LineFault::BadField(field))
    }
}

/// Whether one of the taints has both this key and this effect.
pub fn has_taint(taints: &[Taint], key: &Name, effect: Effect) -> bool
    ensures { result ≡ list_any
        (λ taint. bytes_eq taint.key key.now && same_effect taint.effect effect) taints.now }
{
    for taint in taints {
        if taint.key.as_bytes() == key.as_bytes() && taint.effect == effect {
            return true;
        }
    }
    false
}

/// The effect of this name.
#[tactic(auto, unfolding(crate::specs::Rows::effect_named))]
pub fn effect_named(name: &str) -> Option<Effect>
    ensures { result ≡ effect_named name.now }
{
    match name {
        "NoSchedule" => Some(Effect::NoSchedule),
        "PreferNoSchedule" => Some(Effect::PreferNoSchedule),
        "NoExecute" => Some(Effect::NoExecute),
        _ => None,
    }
}
