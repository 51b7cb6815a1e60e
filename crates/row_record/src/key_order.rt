//! The order of labels in a record.
ghost use Rattle.std.specs.Prelude.{◌≡◌, ◌<◌, ◌≤◌, length, map, All};
ghost use Rattle.std.specs.Ordering.{nat_cmp};
ghost use Rattle.std.specs.Cmp.Lexicographic.{slice_cmp};
ghost use Rattle.std.specs.List.{prefix_len};
ghost use Rattle.std.specs.List.Sorted.{IsSortedByKey};
ghost use Rattle.row_record.specs.KeyOrder.{in_key_order};
ghost use Rattle.row_record.specs.inside.KeyOrder.{label_at};
ghost use Rattle.quant.specs.Name.{is_before};

use arrayvec::ArrayVec;
use quant::{Label, MAX_LABELS, Name};

/// The places of the labels in rising order of their keys' bytes; of equal keys the earlier place
/// comes first. Labels that stand in this order already are each compared once.
pub fn key_order(labels: &[Label]) -> ArrayVec<u8, MAX_LABELS>
    requires { length labels.now ≤ 32 }
    ensures order { map (label_at labels.now) result.items ≡ in_key_order labels.now }
    ensures there { All (λ place. place < length labels.now) result.items }
{
    let mut order = ArrayVec::new();
    for place in (0..labels.len()).rev() {
        let at = count_before(labels, order.as_slice(), &labels[place].key);
        order.insert(at, place as u8);
    }
    order
}

// How many labels stand in front of the first whose key doesn't come before `key`. Where that is
// the first of all, it is seen at once; else each comparison halves what is left.
fn count_before(labels: &[Label], order: &[u8], key: &Name) -> usize
    requires there { All (λ place. place < length labels.now) order.now }
    requires in_order { IsSortedByKey (λ label. label.key) (slice_cmp nat_cmp) (map (label_at labels.now) order.now) }
    ensures value { result ≡ prefix_len (λ label. is_before label.key key.now) (map (label_at labels.now) order.now) }
    ensures within { result ≤ length order.now }
{
    let mut low = 0;
    let mut high = order.len();
    if high == 0 || !comes_before(labels, order[0], key) {
        return 0;
    }
    while low < high {
        let middle = low + (high - low) / 2;
        if comes_before(labels, order[middle], key) {
            low = middle + 1;
        } else {
            high = middle;
        }
    }
    low
}

// Whether the key of the label at a place comes before `key`.
fn comes_before(labels: &[Label], place: u8, key: &Name) -> bool
    requires { place < length labels.now }
    ensures { result ≡ is_before (label_at labels.now place).key key.now }
{
    labels[usize::from(place)].key.cmp(key).is_lt()
}
