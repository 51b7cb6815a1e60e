//! What holds of every translation. The functions do nothing: their contracts are the laws.
ghost use Rattle.translator.specs.Laws.{OneAnswerALine, TranslationIsScript};

/// What a translation writes is a script without a faulty line, with as many lines as it was given,
/// and a run of it is asked for just the events that these give, in their order, with the versions
/// from 1 on.
pub fn translations_are_scripts()
    ensures { TranslationIsScript }
{}

/// Each line that is translated has one answer, on one line, also where it is an object that says
/// what is left out.
pub fn one_answer_a_line()
    ensures { OneAnswerALine }
{}
