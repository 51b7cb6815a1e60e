//! The order of a row's labels.
ghost use Rattle.std.specs.Prelude.{◌≡◌};
ghost use Rattle.quant.specs.LabelOrder.{are_in_order};

use crate::objects::Label;

/// Whether labels stand in rising order of their keys' bytes as they are. Most do: who makes a
/// node's row sorts them.
pub fn are_in_order(labels: &[Label]) -> bool
    ensures { result ≡ are_in_order labels.now }
{
    for place in (1..labels.len()).rev() {
        if labels[place].key.cmp(&labels[place - 1].key).is_lt() {
            return false;
        }
    }
    true
}
