//! What is known of what rules say of a node, a byte an answer.
ghost use Rattle.std.specs.Prelude.{◌≡◌, ℕ, ◌<◌, List, IfSome};
ghost use Rattle.quant.specs.declared.amount.Res.{Res};
ghost use Rattle.quant.specs.declared.objects.Node.{Node};
ghost use Rattle.rules.specs.Verdict.{IsWithin};
ghost use Rattle.plugin.specs.Kit.{Ready};
ghost use Rattle.whost.specs.declared.records.Records.{Records};
ghost use Rattle.plugin.specs.inside.Kept.{Hear, HearOfAll, Holds, NewlyHeard};
ghost use Rattle.plugin.specs.inside.Shown.{IsKnown};
ghost use Rattle.plugin.specs.inside.Answers.{AnswersHold, filter_of, filter_byte, score_of, score_byte, noted, filter_at, score_at};

use crate::asked::Reach;
use rules::{FilterVerdict, Rejection, ScoreVerdict};

/// What a rule said.
#[derive(Clone, Copy)]
pub enum Heard {
    Filter(FilterVerdict),
    Score(ScoreVerdict),
}

/// What the rules' filters and scores said, by the rules' places. Errors aren't kept.
#[derive(Clone, Copy)]
pub struct Answers {
    filters: [u8; 16],
    scores: [u8; 16],
}

/// What the rules say of a node whatever is used of it, and what they say by what is used now.
#[derive(Clone, Copy)]
pub struct Known {
    always: Answers,
    by_used: Answers,
}

// Nothing that was said.
const NOTHING: Answers = Answers {
    filters: [0; 16],
    scores: [255; 16],
};

// What a filter said, by its byte.
fn filter_of(byte: u8) -> Option<FilterVerdict>
    ensures { result ≡ filter_of byte }
{
    match byte {
        1 => Some(FilterVerdict::Passes),
        2 => Some(FilterVerdict::Rejects(Rejection::Unschedulable)),
        3 => Some(FilterVerdict::Rejects(Rejection::UnschedulableAndUnresolvable)),
        _ => None,
    }
}

// The byte of what a filter said.
fn filter_byte(said: FilterVerdict) -> u8
    ensures { result ≡ filter_byte said }
{
    match said {
        FilterVerdict::Passes => 1,
        FilterVerdict::Rejects(Rejection::Unschedulable) => 2,
        FilterVerdict::Rejects(Rejection::UnschedulableAndUnresolvable) => 3,
        FilterVerdict::Errs(_) => 0,
    }
}

// What a score said, by its byte.
fn score_of(byte: u8) -> Option<ScoreVerdict>
    ensures said { result ≡ score_of byte }
    ensures within { IfSome result IsWithin }
{
    if byte <= 100 {
        Some(ScoreVerdict::Good(byte))
    } else {
        None
    }
}

// The byte of what a score said.
fn score_byte(said: ScoreVerdict) -> u8
    ensures { result ≡ score_byte said }
{
    match said {
        ScoreVerdict::Good(score) => score,
        ScoreVerdict::Errs(_) => 255,
    }
}

/// No answers.
pub fn no_answers() -> Answers
    ensures of_all { (plugins : List Ready) (pod : List ℕ) → AnswersHold (HearOfAll plugins pod) result }
    ensures known { (plugins : List Ready) (records : Records) → AnswersHold (Hear plugins records) result }
{
    NOTHING
}

/// Nothing is known.
pub fn nothing() -> Known
    ensures holds { (plugins : List Ready) (pod : List ℕ) (node : Node) (used : Res) →
        Holds plugins pod node used result }
    ensures known { (plugins : List Ready) (records : Records) → IsKnown plugins records result }
{
    Known {
        always: NOTHING,
        by_used: NOTHING,
    }
}

impl Answers {
    /// Notes what the rule at a place said.
    pub fn note(&mut self, place: usize, heard: Heard)
        requires { place < 16 }
        ensures { self.new ≡ noted self.old place heard }
    {
        match heard {
            Heard::Filter(said) => self.filters[place] = filter_byte(said),
            Heard::Score(said) => self.scores[place] = score_byte(said),
        }
    }

    /// What the filter of the rule at a place said, where that is known.
    pub fn filter(&self, place: usize) -> Option<FilterVerdict>
        ensures { result ≡ filter_at self.now place }
    {
        match self.filters.get(place) {
            Some(byte) => filter_of(*byte),
            None => None,
        }
    }

    /// What its score said.
    pub fn score(&self, place: usize) -> Option<ScoreVerdict>
        ensures said { result ≡ score_at self.now place }
        ensures within { IfSome result IsWithin }
    {
        match self.scores.get(place) {
            Some(byte) => score_of(*byte),
            None => None,
        }
    }
}

impl Known {
    ghost use Rattle.plugin.specs.inside.Answers.{KnowsFilter, KnowsScore};

    /// What the filter of the rule at a place says, where that is known.
    pub fn filter(&self, place: usize) -> Option<FilterVerdict>
        ensures { IfSome result (λ said. KnowsFilter self.now place said) }
    {
        match self.always.filter(place) {
            Some(said) => Some(said),
            None => self.by_used.filter(place),
        }
    }

    /// What its score says.
    pub fn score(&self, place: usize) -> Option<ScoreVerdict>
        ensures said { IfSome result (λ said. KnowsScore self.now place said) }
        ensures within { IfSome result IsWithin }
    {
        match self.always.score(place) {
            Some(said) => Some(said),
            None => self.by_used.score(place),
        }
    }

    /// What is known of the node whatever is used of it.
    pub fn whatever_is_used(self) -> Known
        ensures { (plugins : List Ready) (pod : List ℕ) (node : Node) (used other : Res) → Holds plugins pod node used self →
            Holds plugins pod node other result }
    {
        Known {
            always: self.always,
            by_used: NOTHING,
        }
    }

    /// Notes what the rule at a place said.
    pub fn note(&mut self, place: usize, heard: Heard, reach: Reach)
        requires { place < 16 }
        ensures { (plugins : List Ready) (pod : List ℕ) (node : Node) (used : Res) → Holds plugins pod node used self.old →
            NewlyHeard plugins pod node used place heard reach → Holds plugins pod node used self.new }
    {
        match reach {
            Reach::Row => self.always.note(place, heard),
            Reach::Node => self.by_used.note(place, heard),
            Reach::Class | Reach::Here => {}
        }
    }
}
