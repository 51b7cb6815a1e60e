//! What is wrong with words that ask for nothing, told to whoever wrote them.
ghost use Rattle.std.specs.Prelude.{◌≡◌, ◌<◌, [], None, length, map, drop, option_map};
ghost use Rattle.command.specs.Misuse.{at_end, at_equals, is_hyphened, is_option, misuse_by, misuse_in, misuse_of, part_of, read_behind, wrong_anything, wrong_behind_end, wrong_count, wrong_other, wrong_part, wrong_text, wrong_value, wrong_word};

use crate::count::{Count, number_for};
use crate::plugin_words::{cut, digits_up_to};
use crate::verb::{Verb, Wanted};
use quant::{MAX_FUEL, MAX_WEIGHT, Name};
use std::convert::AsStr;

/// The parts of a plugin, as a word spells it: `NAME:WEIGHT:FUEL:FILE`.
#[derive(Clone, Copy)]
pub enum Part {
    /// The word lacks one of its three colons.
    Spec,
    /// The name is none.
    Name,
    /// The weight is no number from 1 to 10.
    Weight,
    /// The fuel is no number from 1 to 10^9.
    Fuel,
}

/// What is wrong with words that ask for nothing. Words are counted from 1, and the program's name
/// isn't one.
#[derive(Clone, Copy)]
pub enum Misuse {
    /// The first word is no command, or there is none.
    Command,
    /// The word of this number is none for this option, or it is the option and the last word.
    Number(Count, usize),
    /// This part of the word of this number isn't that of a plugin.
    Plugin(Part, usize),
    /// The word of this number is no scheduler's name, where one belongs, or it is the option for
    /// one and the last word.
    Scheduler(usize),
    /// The word of this number is no option, and nothing else belongs there.
    Unknown(usize),
    /// Each word may stand where it does, but not all: an option or a name comes twice, there are
    /// more than 16 plugins, or `check` has another number of words than one, or `version` one at
    /// all.
    Together,
}

/// What a word behind a command is read as.
#[derive(Clone, Copy)]
enum ReadAs {
    /// An option, the end of the options, or another word.
    Anything,
    /// The value of the option before it.
    Value(Wanted),
    /// No option, since it stands behind the end of the options.
    NoOption,
}

// The first of a plugin's parts that is wrong.
fn part_of(name: &str, weight: &str, fuel: &str) -> Option<Part>
    ensures { result ≡ part_of name.now weight.now fuel.now }
{
    if Name::new(name.as_bytes()).is_err() {
        Some(Part::Name)
    } else if digits_up_to(weight, u64::from(MAX_WEIGHT)).is_none() {
        Some(Part::Weight)
    } else if digits_up_to(fuel, MAX_FUEL).is_none() {
        Some(Part::Fuel)
    } else {
        None
    }
}

// What is wrong with a word as a plugin.
fn wrong_part(word: &str) -> Option<Part>
    ensures { result ≡ wrong_part word.now }
{
    let Some((name, behind_name)) = cut(word) else {
        return Some(Part::Spec);
    };
    let Some((weight, behind_weight)) = cut(behind_name) else {
        return Some(Part::Spec);
    };
    let Some((fuel, _)) = cut(behind_weight) else {
        return Some(Part::Spec);
    };
    part_of(name, weight, fuel)
}

// What stands before the first `=`, and what behind it.
fn at_equals(text: &str) -> Option<(&str, &str)>
    ensures { option_map (λ sides. (sides.0.now, sides.1.now)) result ≡ at_equals text.now }
{
    text.split_once('=')
}

// Whether a word is an option, whose value is the next word or which has none, or ends the options.
fn is_option(verb: Verb, word: &str) -> bool
    ensures { result ≡ is_option verb word.now }
{
    verb.value_of(word).is_some() || verb.is_flag(word) || word == "--"
}

// What is wrong with an option's number, in the word of this number.
fn wrong_count(number: usize, count: Count, value: &str) -> Option<Misuse>
    ensures { result ≡ wrong_count number count value.now }
{
    if number_for(count, Some(value)).is_some() {
        None
    } else {
        Some(Misuse::Number(count, number))
    }
}

// Whether a word begins with a hyphen.
fn is_hyphened(word: &str) -> bool
    ensures { result ≡ is_hyphened word.now }
{
    word.as_bytes().starts_with(b"-")
}

// What is wrong with the word of this number as an option's value. `clap` takes one with a hyphen
// in front for an option, but not a hyphen alone.
fn wrong_value(number: usize, value: Wanted, word: &str) -> Option<Misuse>
    ensures { result ≡ wrong_value number value word.now }
{
    match value {
        Wanted::Number(count) => wrong_count(number, count, word),
        Wanted::Name if !is_hyphened(word) || word.len() == 1 => None,
        Wanted::Name => Some(Misuse::Scheduler(number)),
    }
}

// What is wrong with what stands behind an option and a `=`, where any text is a name.
fn wrong_text(number: usize, value: Wanted, text: &str) -> Option<Misuse>
    ensures { result ≡ wrong_text number value text.now }
{
    match value {
        Wanted::Number(count) => wrong_count(number, count, text),
        Wanted::Name => None,
    }
}

// What is wrong with a word behind the end of the options.
fn wrong_behind_end(verb: Verb, number: usize, word: &str) -> Option<Misuse>
    ensures { result ≡ wrong_behind_end verb number word.now }
{
    if !verb.takes_plugins() {
        return Some(Misuse::Unknown(number));
    }
    match wrong_part(word) {
        Some(part) => Some(Misuse::Plugin(part, number)),
        None => None,
    }
}

// What is wrong with a word that is no option where one could stand: `clap` takes one with a hyphen
// in front for an option.
fn wrong_other(verb: Verb, number: usize, word: &str) -> Option<Misuse>
    ensures { result ≡ wrong_other verb number word.now }
{
    if verb.takes_plugins() && is_hyphened(word) {
        return Some(Misuse::Plugin(Part::Spec, number));
    }
    wrong_behind_end(verb, number, word)
}

// What is wrong with a word where an option could stand.
fn wrong_anything(verb: Verb, number: usize, word: &str) -> Option<Misuse>
    ensures { result ≡ wrong_anything verb number word.now }
{
    if is_option(verb, word) {
        return None;
    }
    let Some((name, text)) = at_equals(word) else {
        return wrong_other(verb, number, word);
    };
    match verb.value_of(name) {
        Some(value) => wrong_text(number, value, text),
        None => wrong_other(verb, number, word),
    }
}

// What is wrong with the word of this number behind a command.
fn wrong_word(verb: Verb, number: usize, read_as: ReadAs, word: &str) -> Option<Misuse>
    ensures { result ≡ wrong_word verb number read_as word.now }
{
    match read_as {
        ReadAs::Anything => wrong_anything(verb, number, word),
        ReadAs::Value(value) => wrong_value(number, value, word),
        ReadAs::NoOption => wrong_behind_end(verb, number, word),
    }
}

// What the word behind one that is read so is read as.
fn read_behind(verb: Verb, read_as: ReadAs, word: &str) -> ReadAs
    ensures { result ≡ read_behind verb read_as word.now }
{
    match read_as {
        ReadAs::NoOption => ReadAs::NoOption,
        ReadAs::Value(_) => ReadAs::Anything,
        ReadAs::Anything if word == "--" => ReadAs::NoOption,
        ReadAs::Anything => match verb.value_of(word) {
            Some(value) => ReadAs::Value(value),
            None => ReadAs::Anything,
        },
    }
}

// What is wrong where each word may stand where it does, the last of which has this number.
fn at_end(number: usize, read_as: ReadAs) -> Misuse
    ensures { result ≡ at_end number read_as }
{
    match read_as {
        ReadAs::Value(Wanted::Number(count)) => Misuse::Number(count, number),
        ReadAs::Value(Wanted::Name) => Misuse::Scheduler(number),
        ReadAs::Anything | ReadAs::NoOption => Misuse::Together,
    }
}

// What is wrong with the words behind a command, which is the first.
fn misuse_behind<S: AsStr>(verb: Verb, args: &[S]) -> Misuse
    requires { 0 < length args.now }
    ensures { result ≡ misuse_in verb 2 ReadAs.Anything (map S.text (drop 1 args.now)) }
{
    let mut read_as = ReadAs::Anything;
    for at in 1..args.len() {
        let word = args[at].as_str();
        if let Some(misuse) = wrong_word(verb, at + 1, read_as, word) {
            return misuse;
        }
        read_as = read_behind(verb, read_as, word);
    }
    at_end(args.len(), read_as)
}

/// What is wrong with words that ask for nothing: the first that can't stand where it does.
///
/// It says something of all words, but only `words` knows which of them ask for nothing.
#[tactic(auto, unfolding(crate::specs::Misuse::misuse_of))]
pub fn misuse_of<S: AsStr>(args: &[S]) -> Misuse
    ensures { result ≡ misuse_of (map S.text args.now) }
{
    let Some(command) = args.first() else {
        return Misuse::Command;
    };
    let name = command.as_str();
    let Some(verb) = Verb::named(name) else {
        return misuse_without_options(name);
    };
    misuse_behind(verb, args)
}

// What is wrong with words of which the first names no command with options.
fn misuse_without_options(name: &str) -> Misuse
    ensures { result ≡ misuse_by None name.now [] }
{
    if name == "check" || name == "version" {
        Misuse::Together
    } else {
        Misuse::Command
    }
}
