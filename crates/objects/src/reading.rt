//! From a JSON value to what its fields say.
ghost use Rattle.std.specs.Prelude.{◌≡◌, option_map, option_and_then};
ghost use Rattle.serde_json.specs.Find.{as_str};
ghost use Rattle.serde_json.specs.View.{view, items_view, members_view};
ghost use Rattle.objects.specs.Reading.{field, within, part_of, text_at, text_or, name_at, flag_of, members_of, items_of, spelled, is_something, is_given, has};
ghost use Rattle.objects.specs.inside.Answers.{Gives, Answers, Tells};
ghost use Rattle.objects.specs.inside.Members.{members_or_none};

use crate::fault::{ObjectFault, Why};
use quant::Name;
use serde_json::{Map, Value};

// The value under a key, where there is one.
#[tactic(auto, unfolding(crate::specs::Reading::field))]
pub(crate) fn field<'a>(object: &'a Value, key: &str) -> Option<&'a Value>
    ensures { option_map (λ value. view value.now) result ≡ field key.now (view object.now) }
{
    match object.get(key) {
        Some(value) if !value.is_null() => Some(value),
        _ => None,
    }
}

// A field of a field.
pub(crate) fn within<'a>(object: &'a Value, outer: &str, inner: &str) -> Option<&'a Value>
    ensures { option_map (λ value. view value.now) result ≡ within outer.now inner.now (view object.now) }
{
    field(field(object, outer)?, inner)
}

// A field that has to be there.
#[tactic(auto, unfolding(crate::specs::Reading::part_of))]
pub(crate) fn part_of<'a>(object: &'a Value, key: &'static str) -> Result<&'a Value, ObjectFault>
    ensures { Tells (λ value. view value.now) result (part_of key.now (view object.now)) }
{
    field(object, key).ok_or(ObjectFault::Refused(Why::BadField, key))
}

// The text in a field, where there is one.
fn text_in<'a>(object: &'a Value, key: &str) -> Option<&'a str>
    ensures { option_map (λ text. text.now) result ≡ option_and_then as_str (field key.now (view object.now)) }
{
    field(object, key)?.as_str()
}

// A text that has to be there.
#[tactic(auto, unfolding(crate::specs::Reading::text_at))]
pub(crate) fn text_at<'a>(object: &'a Value, key: &'static str) -> Result<&'a str, ObjectFault>
    ensures { Tells (λ text. text.now) result (text_at key.now (view object.now)) }
{
    text_in(object, key).ok_or(ObjectFault::Refused(Why::BadField, key))
}

// A text that stands for another where it is absent.
#[tactic(auto, unfolding(crate::specs::Reading::text_or))]
pub(crate) fn text_or<'a>(
    object: &'a Value,
    key: &'static str,
    absent: &'static str,
) -> Result<&'a str, ObjectFault>
    ensures { Tells (λ text. text.now) result (text_or key.now absent.now (view object.now)) }
{
    match field(object, key) {
        Some(value) => value
            .as_str()
            .ok_or(ObjectFault::Refused(Why::BadField, key)),
        None => Ok(absent),
    }
}

// A name that has to be there.
#[tactic(auto, unfolding(crate::specs::Reading::name_at))]
pub(crate) fn name_at(object: &Value, key: &'static str) -> Result<Name, ObjectFault>
    ensures { Tells (λ name. name) result (name_at key.now (view object.now)) }
{
    let text = text_at(object, key)?;
    match Name::new(text.as_bytes()) {
        Ok(name) => Ok(name),
        Err(_) => Err(ObjectFault::Refused(Why::BadName, key)),
    }
}

// Yes or no, which is no where it is absent.
pub(crate) fn flag_of(value: Option<&Value>, key: &'static str) -> Result<bool, ObjectFault>
    ensures { Answers result (flag_of key.now (option_map (λ v. view v.now) value.entry)) }
{
    match value {
        Some(value) => value
            .as_bool()
            .ok_or(ObjectFault::Refused(Why::BadField, key)),
        None => Ok(false),
    }
}

// The members of an object, which may be absent.
pub(crate) fn members_of<'a>(
    value: Option<&'a Value>,
    key: &'static str,
) -> Result<Option<&'a Map<String, Value>>, ObjectFault>
    ensures { Gives (λ found. members_or_none (option_map (λ m. members_view m.now.entries) found)) result
        (members_of key.now (option_map (λ v. view v.now) value.entry)) }
{
    let Some(value) = value else {
        return Ok(None);
    };
    match value.as_object() {
        Some(found) => Ok(Some(found)),
        None => Err(ObjectFault::Refused(Why::BadField, key)),
    }
}

// The items of an array, of which there are none where it is absent.
pub(crate) fn items_of<'a>(
    value: Option<&'a Value>,
    key: &'static str,
) -> Result<&'a [Value], ObjectFault>
    ensures { Tells (λ found. items_view found.now) result (items_of key.now (option_map (λ v. view v.now) value.entry)) }
{
    let Some(value) = value else {
        return Ok(&[]);
    };
    match value.as_array() {
        Some(found) => Ok(found.as_slice()),
        None => Err(ObjectFault::Refused(Why::BadField, key)),
    }
}

// The members of the object in a field, which may be absent.
pub(crate) fn members_at<'a>(
    object: &'a Value,
    key: &'static str,
) -> Result<Option<&'a Map<String, Value>>, ObjectFault>
    ensures { Gives (λ found. members_or_none (option_map (λ m. members_view m.now.entries) found)) result
        (members_of key.now (field key.now (view object.now))) }
{
    members_of(field(object, key), key)
}

// The items of the array in a field, which may be absent.
pub(crate) fn items_at<'a>(object: &'a Value, key: &'static str) -> Result<&'a [Value], ObjectFault>
    ensures { Gives (λ found. items_view found.now) result (items_of key.now (field key.now (view object.now))) }
{
    items_of(field(object, key), key)
}

// The text in a field, which is empty where there is none.
pub(crate) fn spelled<'a>(object: &'a Value, key: &str) -> &'a str
    ensures { result.now ≡ spelled key.now (view object.now) }
{
    match text_in(object, key) {
        Some(text) => text,
        None => "",
    }
}

// Whether a value has a member of this name.
pub(crate) fn has(value: Option<&Value>, key: &str) -> bool
    ensures { result ≡ has (option_map (λ v. view v.now) value.entry) key.now }
{
    match value {
        Some(value) => value.get(key).is_some(),
        None => false,
    }
}

// Whether something stands in a value, which may be absent.
pub(crate) fn is_given(value: Option<&Value>) -> bool
    ensures { result ≡ is_given (option_map (λ v. view v.now) value.entry) }
{
    match value {
        Some(value) => is_something(value),
        None => false,
    }
}

// Whether something stands in a value: an empty array or object is nothing.
#[tactic(auto, using(crate::proofs::Items::array_is_something))]
fn is_something(value: &Value) -> bool
    ensures { result ≡ is_something (view value.now) }
{
    match value {
        Value::Array(items) => !items.as_slice().is_empty(),
        Value::Object(members) => members.len() != 0,
        _ => true,
    }
}
