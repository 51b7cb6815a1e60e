//! What holds of all lines that tell of a cluster. The functions do nothing: their contracts are the
//! laws.
ghost use Rattle.live.specs.Laws.{FrontsBeginIt, LinesAreKept, OneLiveOutput};

use rules::Rules;

/// Whatever lines were answered, in whatever order, and whatever was decided by these rules: the
/// ledger was told one history, and each pod counts as it was last told or as a bind of it was asked
/// for, once, and no other counts.
pub fn live_counts_once<K: Rules>(_kit: &K)
    ensures { LinesAreKept (K.answers _kit.now) }
{}

/// There is one output of an input by these rules, whoever reads it and whenever; and what was
/// written of it before an early end begins it.
pub fn one_live_output<K: Rules>(_kit: &K)
    ensures one { OneLiveOutput (K.answers _kit.now) }
    ensures front { FrontsBeginIt (K.answers _kit.now) }
{}
