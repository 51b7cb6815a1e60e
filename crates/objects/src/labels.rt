//! The labels that a row has of an object's.
ghost use Rattle.std.specs.Prelude.{◌≡◌, ◌+◌, ◌<◌, codes, [], length, nat_le, bytes_eq, OnSome, option_map};
ghost use Rattle.std.specs.List.{list_any, slice_split};
ghost use Rattle.serde_json.specs.View.{view, members_view};
ghost use Rattle.quant.specs.declared.limits.TheConstants.{MAX_LABELS};
ghost use Rattle.objects.specs.Labels.{fitting, label_of, behind, count_members, is_comma, is_named, is_first, if_first, first_labels, with_item, unless_named, other_labels, all_labels, row_labels};
ghost use Rattle.objects.specs.Site.{site_of};
ghost use Rattle.objects.specs.inside.Answers.{Gives};
ghost use Rattle.objects.specs.inside.Members.{members_or_none, kept};
ghost use Rattle.objects.specs.inside.Puts.{WhenWhole};

use crate::fault::{ObjectFault, Why};
use crate::left_out::{Names, put_left_out};
use crate::reading::{has, members_of};
use crate::site::Site;
use manifest::has_key;
use quant::{AtMost, Label, MAX_LABELS, Name, Text};
use serde_json::{Map, Value};

// Fills an empty row with the labels of an object, whose members may be absent: first those that
// are told beside its own. Puts the names of those that are left out.
#[tactic(auto, unfolding(crate::specs::Labels::row_labels))]
pub(crate) fn fill_labels(
    labels: &mut AtMost<Label, MAX_LABELS>,
    out: &mut Names,
    found: Option<&Map<String, Value>>,
    site: &Site<'_>,
) -> Result<(), ObjectFault>
    requires { labels.old ≡ [] }
    ensures { WhenWhole out.old out.new
        (Gives (λ _. kept labels.new out.new.bytes.items) result (row_labels (site_of site.now) out.old.bytes.items
        (members_or_none (option_map (λ m. members_view m.now.entries) found.entry)))) }
{
    let beside = members_of(site.beside, "labels")?;
    let told = count(beside);
    let own = count(found);
    if !have_room(told, own) && site.labels.is_empty() {
        return Err(ObjectFault::Refused(Why::TooMany, "labels"));
    }
    labels.reserve(told.saturating_add(own).min(MAX_LABELS))?;
    take_all(labels, out, beside, found, site)
}

// How many members there are.
#[tactic(auto, using(crate::proofs::Items::count_of_members_view))]
fn count(members: Option<&Map<String, Value>>) -> usize
    ensures { result ≡ count_members (members_or_none (option_map (λ m. members_view m.now.entries) members.entry)) }
{
    match members {
        Some(members) => members.len(),
        None => 0,
    }
}

// Whether a row has room for so many labels beside so many of an object's own.
fn have_room(beside: usize, own: usize) -> bool
    ensures { result ≡ nat_le (beside + own) MAX_LABELS }
{
    beside <= MAX_LABELS && own <= MAX_LABELS - beside
}

// Fills an empty row with labels, first those that are told beside an object's own.
fn take_all(
    labels: &mut AtMost<Label, MAX_LABELS>,
    out: &mut Names,
    beside: Option<&Map<String, Value>>,
    found: Option<&Map<String, Value>>,
    site: &Site<'_>,
) -> Result<(), ObjectFault>
    requires { labels.old ≡ [] }
    ensures { WhenWhole out.old out.new
        (Gives (λ _. kept labels.new out.new.bytes.items) result (all_labels (site_of site.now) out.old.bytes.items
        (members_or_none (option_map (λ m. members_view m.now.entries) beside.entry))
        (members_or_none (option_map (λ m. members_view m.now.entries) found.entry)))) }
{
    if let Some(members) = beside {
        take_first(labels, members, None)?;
    }
    if let Some(members) = found {
        take_first(labels, members, Some(site))?;
        take_others(labels, out, members, site);
    }
    Ok(())
}

// Takes a label behind others.
fn take_behind(
    labels: &mut AtMost<Label, MAX_LABELS>,
    key: &str,
    value: &Value,
) -> Result<(), ObjectFault>
    ensures { Gives (λ _. labels.new) result
        (behind labels.old (label_of labels.old key.now (view value.now))) }
{
    match label_of(labels.as_slice(), key, value) {
        Some(label) => {
            labels.push(label)?;
            Ok(())
        }
        None => Err(ObjectFault::Refused(Why::BadName, "labels")),
    }
}

// Takes those labels behind others that are told first: each of them, or of an object's own those
// that the site's rules read.
fn take_first(
    labels: &mut AtMost<Label, MAX_LABELS>,
    members: &Map<String, Value>,
    own: Option<&Site<'_>>,
) -> Result<(), ObjectFault>
    ensures { Gives (λ _. labels.new) result
        (first_labels (option_map (λ s. site_of s.now) own.entry) labels.old (members_view members.now.entries)) }
{
    for (key, value) in members.iter() {
        take_if_first(labels, key.as_str(), value, own)?;
    }
    Ok(())
}

// Takes a label behind others, where it is told first.
#[tactic(auto, unfolding(crate::specs::Labels::if_first))]
fn take_if_first(
    labels: &mut AtMost<Label, MAX_LABELS>,
    key: &str,
    value: &Value,
    own: Option<&Site<'_>>,
) -> Result<(), ObjectFault>
    ensures { Gives (λ _. labels.new) result
        (if_first (option_map (λ s. site_of s.now) own.entry) labels.old key.now (view value.now)) }
{
    if is_first(own, key) {
        take_behind(labels, key, value)
    } else {
        Ok(())
    }
}

// Whether a label is told first.
fn is_first(own: Option<&Site<'_>>, key: &str) -> bool
    ensures { result ≡ is_first (option_map (λ s. site_of s.now) own.entry) key.now }
{
    match own {
        Some(site) => is_named(site.labels, key) && !has(site.beside, key),
        None => true,
    }
}

// Takes of an object's own labels those that aren't named, behind others, as far as there is room.
// Puts the names of those that are left out.
fn take_others(
    labels: &mut AtMost<Label, MAX_LABELS>,
    out: &mut Names,
    members: &Map<String, Value>,
    site: &Site<'_>,
)
    ensures { WhenWhole out.old out.new (other_labels (site_of site.now) (kept labels.old out.old.bytes.items)
        (members_view members.now.entries) ≡ kept labels.new out.new.bytes.items) }
{
    for (key, value) in members.iter() {
        take_unless_named(labels, out, key.as_str(), value, site);
    }
}

// Takes a label behind others, unless it is named, or puts the name of one that is left out.
#[tactic(auto, unfolding(crate::specs::Labels::unless_named))]
fn take_unless_named(
    labels: &mut AtMost<Label, MAX_LABELS>,
    out: &mut Names,
    key: &str,
    value: &Value,
    site: &Site<'_>,
)
    ensures { WhenWhole out.old out.new (unless_named (site_of site.now) (kept labels.old out.old.bytes.items)
        key.now (view value.now) ≡ kept labels.new out.new.bytes.items) }
{
    if is_named(site.labels, key) || has(site.beside, key) {
        return;
    }
    take_label(labels, out, key, value)
}

// Takes a label behind others, or puts the name of one that is left out.
fn take_label(labels: &mut AtMost<Label, MAX_LABELS>, out: &mut Names, key: &str, value: &Value)
    ensures { WhenWhole out.old out.new (with_item (codes "label ") key.now (kept labels.old out.old.bytes.items)
        (label_of labels.old key.now (view value.now)) ≡ kept labels.new out.new.bytes.items) }
{
    match label_of(labels.as_slice(), key, value) {
        Some(label) => {
            let Ok(()) = labels.push(label) else {
                out.is_whole = false;
                return;
            };
        }
        None => put_left_out(out, "label ", key.as_bytes()),
    }
}

// Whether a text names a key, with commas between its names.
#[tactic(auto, unfolding(crate::specs::Labels::is_named))]
fn is_named(names: &str, key: &str) -> bool
    ensures { result ≡ is_named names.now key.now }
{
    !names.is_empty() && is_among(names, key)
}

// Whether a key is one of the names, with commas between them.
fn is_among(names: &str, key: &str) -> bool
    ensures { result ≡ list_any (λ name. bytes_eq name key.now) (slice_split is_comma names.now) }
{
    names.split(',').any(|name| name == key)
}

// The label of a member, where a row can have it behind others.
#[tactic(auto, unfolding(crate::specs::Labels::label_of))]
fn label_of(before: &[Label], key: &str, value: &Value) -> Option<Label>
    ensures value { result ≡ label_of before.now key.now (view value.now) }
    ensures room { OnSome result (length before.now < 32) }
{
    fitting(before, key, value.as_str()?)
}

// A label, where a row can have it behind others.
#[tactic(auto, unfolding(crate::specs::Sayable::says_label))]
fn fitting(before: &[Label], key: &str, value: &str) -> Option<Label>
    ensures value { result ≡ fitting before.now (record { key = key.now; value = value.now }) }
    ensures room { OnSome result (length before.now < 32) }
{
    let Ok(key) = Name::new(key.as_bytes()) else {
        return None;
    };
    let Ok(value) = Text::new(value.as_bytes()) else {
        return None;
    };
    if before.len() < MAX_LABELS && !has_key(before, &key) {
        Some(Label { key, value })
    } else {
        None
    }
}
