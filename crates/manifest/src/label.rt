//! The labels of a node or a pod.
ghost use Rattle.std.specs.Prelude.{◌≡◌, bytes_eq};
ghost use Rattle.std.specs.List.{list_any};
ghost use Rattle.manifest.specs.Rows.{label};

use crate::fault::LineFault;
use crate::field::Field;
use crate::item::{Item, part, parts};
use crate::reading::{name_from, text_from};
use quant::{Label, Name};
use serde_json::Value;

impl Item for Label {
    ghost reading = { label };

    #[tactic(auto, unfolding(crate::specs::Rows::label))]
    fn read(item: &Value, before: &[Label], field: Field) -> Result<Label, LineFault> {
        if let Some(found) = parts(item, 2)
            && let Some(key) = part(found, 0)
            && let Some(value) = part(found, 1)
            && let Some(key) = name_from(key)
            && let Some(value) = text_from(value)
            && !has_key(before, &key)
        {
            return Ok(Label { key, value });
        }
        Err(LineFault::BadField(field))
    }
}

/// Whether one of the labels has this key.
pub fn has_key(labels: &[Label], key: &Name) -> bool
    ensures { result ≡ list_any (λ label. bytes_eq label.key key.now) labels.now }
{
    for label in labels {
        if label.key.as_bytes() == key.as_bytes() {
            return true;
        }
    }
    false
}
