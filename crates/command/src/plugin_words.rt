//! A plugin, as a word spells it, and the plugins that words spell.
ghost use Rattle.std.specs.Prelude.{◌≡◌, ◌≤◌, length, map, Some, None, Err, bytes_eq, option_map, IfOk, IfSome};
ghost use Rattle.std.specs.List.{All, list_any};
ghost use Rattle.std.specs.Str.Parse.{without_leading_plus};
ghost use Rattle.command.specs.Count.{number_up_to};
ghost use Rattle.command.specs.Words.{cut, each, have_distinct_names, spec_from, spec_of, specs_of, syntax_of};
ghost use Rattle.command.specs.Within.{AreWithinLimits, IsWithinLimits};

use crate::asked::Spec;
use crate::fault::WordFault;
use quant::{MAX_FUEL, MAX_PLUGINS, MAX_WEIGHT, Name};
use std::alloc::Global;

/// The plugins that these words spell, in their order.
///
/// Errors: `BadWords` where a word spells none, where there are more than 16 and where two have one
/// name; `NoMemory`.
pub fn specs_of<'a>(alloc: Global, words: &[&'a str]) -> Result<Vec<Spec<'a>>, WordFault>
    ensures ok { IfOk result (λ specs. specs_of (map (λ s. s.now) words.now) ≡ Some (map syntax_of specs.items)) }
    ensures refused { result ≡ Err WordFault.BadWords → specs_of (map (λ s. s.now) words.now) ≡ None }
    ensures within { IfOk result (λ specs. AreWithinLimits specs.items) }
{
    if words.len() > MAX_PLUGINS {
        return Err(WordFault::BadWords);
    }
    let specs = match each_spec(alloc, words) {
        Ok(specs) => specs,
        Err(fault) => return Err(fault),
    };
    if !have_distinct_names(&specs) {
        return Err(WordFault::BadWords);
    }
    Ok(specs)
}

// The plugin that each of these words spells.
fn each_spec<'a>(alloc: Global, words: &[&'a str]) -> Result<Vec<Spec<'a>>, WordFault>
    ensures ok { IfOk result (λ specs. each spec_of (map (λ s. s.now) words.now) ≡ Some (map syntax_of specs.items)) }
    ensures refused { result ≡ Err WordFault.BadWords → each spec_of (map (λ s. s.now) words.now) ≡ None }
    ensures limits { IfOk result (λ specs. All IsWithinLimits specs.items) }
{
    let mut specs = Vec::new(alloc);
    for word in words {
        let Some(spec) = spec_of(*word) else {
            return Err(WordFault::BadWords);
        };
        let Ok(()) = specs.push(spec) else {
            return Err(WordFault::NoMemory);
        };
    }
    Ok(specs)
}

// Whether no two plugins have one name.
fn have_distinct_names(specs: &[Spec]) -> bool
    ensures { result ≡ have_distinct_names (map syntax_of specs.now) }
{
    for (i, spec) in specs.iter().enumerate() {
        if is_named(&specs[i + 1..], &spec.name) {
            return false;
        }
    }
    true
}

// Whether one of the plugins has this name.
fn is_named(specs: &[Spec], name: &Name) -> bool
    ensures { result ≡ list_any (λ spec. bytes_eq spec.name name.now) specs.now }
{
    specs.iter().any(|spec| spec.name.as_str() == name.as_str())
}

// The plugin that `NAME:WEIGHT:FUEL:FILE` spells, which is cut at its first three colons.
fn spec_of(word: &str) -> Option<Spec<'_>>
    ensures value { option_map syntax_of result ≡ spec_of word.now }
    ensures limits { IfSome result IsWithinLimits }
{
    let Some((name, behind_name)) = cut(word) else {
        return None;
    };
    let Some((weight, behind_weight)) = cut(behind_name) else {
        return None;
    };
    let Some((fuel, file)) = cut(behind_weight) else {
        return None;
    };
    spec_from(name, weight, fuel, file)
}

// What stands before the first colon, and what behind it.
pub(crate) fn cut(text: &str) -> Option<(&str, &str)>
    ensures { option_map (λ parts. (parts.0.now, parts.1.now)) result ≡ cut text.now }
{
    text.split_once(':')
}

// The plugin of these parts.
fn spec_from<'a>(name: &str, weight: &str, fuel: &str, file: &'a str) -> Option<Spec<'a>>
    ensures value { option_map syntax_of result ≡ spec_from name.now weight.now fuel.now file.entry.now }
    ensures limits { IfSome result IsWithinLimits }
{
    let Some(weight) = digits_up_to(weight, u64::from(MAX_WEIGHT)) else {
        return None;
    };
    let Some(fuel) = digits_up_to(fuel, MAX_FUEL) else {
        return None;
    };
    let Ok(name) = Name::new(name.as_bytes()) else {
        return None;
    };
    Some(Spec {
        name,
        weight: weight as u8,
        fuel,
        file,
    })
}

// The number from 1 to `most` that a text of digits alone spells.
pub(crate) fn digits_up_to(text: &str, most: u64) -> Option<u64>
    ensures value { result ≡ number_up_to most text.now }
    ensures least { IfSome result (λ number. 1 ≤ number) }
    ensures most { IfSome result (λ number. number ≤ most) }
{
    if text.starts_with('+') {
        return None;
    }
    number_up_to(text, most)
}

/// The number from 1 to `most` that a text spells: digits, before which a plus may stand.
pub(crate) fn number_up_to(text: &str, most: u64) -> Option<u64>
    ensures value { result ≡ number_up_to most (without_leading_plus text.now) }
    ensures least { IfSome result (λ number. 1 ≤ number) }
    ensures most { IfSome result (λ number. number ≤ most) }
{
    match text.parse::<u64>() {
        Ok(number) if 1 <= number && number <= most => Some(number),
        _ => None,
    }
}
