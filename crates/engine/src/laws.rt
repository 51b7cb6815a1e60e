//! What holds of every script. The functions do nothing: their contracts are the laws.
ghost use Rattle.engine.specs.Laws.{OneOutput, FrontsBeginOutput, FrontsAgree, SameOutput, ExplainedOutput, PlainOutput, AskingChangesNothing};

use rules::Rules;

/// A script has one output: it depends on the script, the rules, and their names and weights as
/// they are told, and on no order in which threads took their turns. What a run writes that is cut
/// short begins it.
pub fn one_output<K: Rules>(_kit: &K)
    ensures whole { OneOutput (K.answers _kit.now) }
    ensures front { FrontsBeginOutput (K.answers _kit.now) }
    ensures fronts { FrontsAgree (K.answers _kit.now) }
{}

/// By kits that judge alike, and rule alike where it is asked what the rules alone say, a script
/// has the same output. A run goes by its decider's first kit, which stands for all of them: so the
/// same script gives the same bytes by any decider, with any number of workers.
pub fn same_output<K: Rules>(_one: &K, _other: &K)
    ensures { SameOutput K.answers _one.now _other.now }
{}

/// What explains the cycles of a script is its output, with lines put in that begin with two
/// spaces. Without all lines that begin so both are the same, and where nothing is asked of the
/// rules alone that is the output, byte for byte, since no line of it begins so.
pub fn explained_output<K: Rules>(_kit: &K)
    ensures explained { ExplainedOutput (K.answers _kit.now) }
    ensures plain { PlainOutput (K.answers _kit.now) }
{}

/// To ask what the rules alone say changes nothing: a script's output is the one without the
/// questions, with their answers put in.
pub fn asking_changes_nothing<K: Rules>(_kit: &K)
    ensures { AskingChangesNothing (K.answers _kit.now) }
{}
