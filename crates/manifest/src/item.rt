//! Fields that are arrays, and the items in them.
ghost use Rattle.std.specs.Prelude.{◌≡◌, ◌+◌, ◌≤◌, [], List, Result, length, IfOk, option_map};
ghost use Rattle.serde_json.specs.Data.{Data};
ghost use Rattle.serde_json.specs.Find.{get_item};
ghost use Rattle.serde_json.specs.View.{view, items_view};
ghost use Rattle.manifest.specs.declared.field.Field.{Field};
ghost use Rattle.manifest.specs.declared.fault.LineFault.{LineFault};
ghost use Rattle.manifest.specs.declared.fault.LineFault.TheVariants.{BadField};
ghost use Rattle.std.specs.Option.{ok_or};
ghost use Rattle.manifest.specs.Reading.{Gives, Answers, at, at_or};
ghost use Rattle.manifest.specs.Item.{items, each, list, parts, part};

use crate::fault::LineFault;
use crate::field::Field;
use quant::AtMost;
use serde_json::Value;

// What stands in an array, one a place.
pub(crate) trait Item: Drop + Sized {
    // What an item says beside those before it.
    ghost reading: { Field → List Self → Data → Result Self LineFault };

    // One item of a field, beside those before it.
    fn read(item: &Value, before: &[Self], field: Field) -> Result<Self, LineFault>
        ensures { Answers result (reading field before.now (view item.now)) };
}

// Fills an empty row from a field that has to be there, and holds an item at least.
#[tactic(auto, unfolding(crate::specs::Reading::member))]
pub(crate) fn fill_at<T: Item, const N: usize>(
    row: &mut AtMost<T, N>,
    object: &Value,
    field: Field,
) -> Result<(), LineFault>
    requires { row.old ≡ [] }
    ensures { Gives (λ _. row.new) result (at field (list 1 N T.reading) (view object.now)) }
{
    match object.get(field.key()) {
        Some(value) => fill_from(row, value, field, 1),
        None => Err(LineFault::BadField(field)),
    }
}

// Fills an empty row from a field that may be absent.
pub(crate) fn fill_at_or_leave<T: Item, const N: usize>(
    row: &mut AtMost<T, N>,
    object: &Value,
    field: Field,
) -> Result<(), LineFault>
    requires { row.old ≡ [] }
    ensures { Gives (λ _. row.new) result (at_or field [] (list 0 N T.reading) (view object.now)) }
{
    match object.get(field.key()) {
        Some(value) => fill_from(row, value, field, 0),
        None => Ok(()),
    }
}

// Fills an empty row from an array of so many items or more, as many as the row has places.
#[tactic(auto, unfolding(crate::specs::Item::list))]
fn fill_from<T: Item, const N: usize>(
    row: &mut AtMost<T, N>,
    value: &Value,
    field: Field,
    least: usize,
) -> Result<(), LineFault>
    requires { row.old ≡ [] }
    ensures { Gives (λ _. row.new) result (list least N T.reading field (view value.now)) }
{
    match items(value, field, least, N) {
        Ok(found) => fill(row, found, field),
        Err(fault) => Err(fault),
    }
}

// Puts the items of an array behind those of a row, each read beside those before it.
fn fill<T: Item, const N: usize>(
    row: &mut AtMost<T, N>,
    found: &[Value],
    field: Field,
) -> Result<(), LineFault>
    requires { length row.old + length found.now ≤ N }
    ensures { Gives (λ _. row.new) result (each (T.reading field) row.old (items_view found.now)) }
{
    if row.reserve(found.len()).is_err() {
        return Err(LineFault::NoMemory);
    }
    for item in found {
        let next = match T::read(item, row.as_slice(), field) {
            Ok(next) => next,
            Err(fault) => return Err(fault),
        };
        if row.push(next).is_err() {
            return Err(LineFault::NoMemory);
        }
    }
    Ok(())
}

// The items of an array that has from least to most of them.
#[tactic(auto, unfolding(crate::specs::Item::items), using(crate::proofs::Items::count_of_items_view))]
fn items(value: &Value, field: Field, least: usize, most: usize) -> Result<&[Value], LineFault>
    ensures value { Gives (λ found. items_view found.now) result (items least most field (view value.now)) }
    ensures few { IfOk result (λ found. length found.now ≤ most) }
{
    let Some(found) = value.as_array() else {
        return Err(LineFault::BadField(field));
    };
    if found.len() < least || most < found.len() {
        return Err(LineFault::OverLimit(field));
    }
    Ok(found.as_slice())
}

// The parts of an item, if it is an array of so many.
#[tactic(auto, unfolding(crate::specs::Item::parts), using(crate::proofs::Items::count_of_items_view))]
pub(crate) fn parts(item: &Value, count: usize) -> Option<&[Value]>
    ensures { (field : Field) → parts count field (view item.now)
        ≡ ok_or (option_map (λ found. items_view found.now) result) (BadField field) }
{
    let Some(found) = item.as_array() else {
        return None;
    };
    if found.len() != count {
        return None;
    }
    Some(found.as_slice())
}

// The text that is the part at a place, if there is one.
#[tactic(auto, unfolding(crate::specs::Item::part, crate::specs::Reading::text))]
pub(crate) fn part(found: &[Value], place: usize) -> Option<&str>
    ensures { (field : Field) → part place field (items_view found.now)
        ≡ ok_or (option_map (λ s. s.now) result) (BadField field) }
{
    match item_at(found, place) {
        Some(item) => item.as_str(),
        None => None,
    }
}

// The item at a place.
#[tactic(auto, using(crate::proofs::Items::get_item_of_get))]
fn item_at(found: &[Value], place: usize) -> Option<&Value>
    ensures { option_map (λ v. view v.now) result ≡ get_item place (items_view found.now) }
{
    found.get(place)
}
