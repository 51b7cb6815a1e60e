//! The numbers that options ask for.
ghost use Rattle.std.specs.Prelude.{◌≡◌, ◌≤◌, IfSome, option_map};
ghost use Rattle.command.specs.Count.{most_of, name_of, number_for, unless_told};

use crate::plugin_words::number_up_to;
use quant::MAX_WORKERS;

/// The most threads that run cycles in a storm, and the most that bind. The least is 1.
pub const MAX_STORM_THREADS: usize = 8;

/// A number that an option asks for.
#[derive(Clone, Copy)]
pub enum Count {
    /// How many workers share each decision of a run.
    Workers,
    /// How many threads run cycles in a storm.
    Cycles,
    /// How many threads bind pods in a storm.
    Binders,
}

impl Count {
    /// The option's name.
    pub(crate) fn name(self) -> &'static str
        ensures { result.now ≡ name_of self }
    {
        match self {
            Count::Workers => "workers",
            Count::Cycles => "cycles",
            Count::Binders => "binders",
        }
    }

    // The most that it may be. The least is 1.
    fn most(self) -> usize
        ensures { result ≡ most_of self }
    {
        match self {
            Count::Workers => MAX_WORKERS,
            Count::Cycles | Count::Binders => MAX_STORM_THREADS,
        }
    }

    // What it is where no word tells it.
    fn unless_told(self) -> usize
        ensures { result ≡ unless_told self }
    {
        match self {
            Count::Workers => 1,
            Count::Cycles | Count::Binders => 2,
        }
    }
}

/// The number that the word behind an option spells, or what it is where there is none.
pub(crate) fn number_for(count: Count, word: Option<&str>) -> Option<usize>
    ensures value { result ≡ number_for count (option_map (λ s. s.now) word.entry) }
    ensures least { IfSome result (λ number. 1 ≤ number) }
    ensures most { IfSome result (λ number. number ≤ most_of count) }
{
    match word {
        Some(word) => match number_up_to(word, count.most() as u64) {
            Some(number) => Some(number as usize),
            None => None,
        },
        None => Some(count.unless_told()),
    }
}
