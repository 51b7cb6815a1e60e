//! The commands with options, and which options, flags and further words each of them takes.
ghost use Rattle.std.specs.Prelude.{◌≡◌};
ghost use Rattle.command.specs.Verb.{asks_name, is_flag, takes_plugins, value_of, verb_of};

use crate::count::Count;

/// A command with options.
#[derive(Clone, Copy)]
pub(crate) enum Verb {
    /// `run`, or `explain`, which takes the same.
    Run,
    /// `storm`.
    Storm,
    /// `translate`.
    Translate,
    /// `live`.
    Live,
}

/// What an option wants behind it, as the next word or behind a `=`.
#[derive(Clone, Copy)]
pub(crate) enum Wanted {
    /// A number.
    Number(Count),
    /// A scheduler's name, or the keys of labels.
    Name,
}

// Whether an option asks for a name, or names.
fn asks_name(option: &str) -> bool
    ensures { result ≡ asks_name option.now }
{
    option == "--scheduler" || option == "--labels"
}

impl Verb {
    /// The command with options of this name.
    pub(crate) fn named(name: &str) -> Option<Verb>
        ensures { result ≡ verb_of name.now }
    {
        match name {
            "run" | "explain" => Some(Verb::Run),
            "storm" => Some(Verb::Storm),
            "translate" => Some(Verb::Translate),
            "live" => Some(Verb::Live),
            _ => None,
        }
    }

    /// What its option wants behind it.
    pub(crate) fn value_of(self, option: &str) -> Option<Wanted>
        ensures { result ≡ value_of self option.now }
    {
        match self {
            Verb::Run => (option == "--workers").then_some(Wanted::Number(Count::Workers)),
            Verb::Storm if option == "--cycles" => Some(Wanted::Number(Count::Cycles)),
            Verb::Storm => (option == "--binders").then_some(Wanted::Number(Count::Binders)),
            Verb::Live if option == "--workers" => Some(Wanted::Number(Count::Workers)),
            Verb::Translate | Verb::Live => asks_name(option).then_some(Wanted::Name),
        }
    }

    /// Whether a word is a flag of it, which has no value.
    pub(crate) fn is_flag(self, word: &str) -> bool
        ensures { result ≡ is_flag self word.now }
    {
        match self {
            Verb::Storm => word == "--flaky",
            Verb::Translate => word == "--by-uid" || word == "--answers",
            Verb::Run | Verb::Live => false,
        }
    }

    /// Whether words that are no options are plugins. There are none else.
    pub(crate) fn takes_plugins(self) -> bool
        ensures { result ≡ takes_plugins self }
    {
        match self {
            Verb::Run | Verb::Storm | Verb::Live => true,
            Verb::Translate => false,
        }
    }
}
