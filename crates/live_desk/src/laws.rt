//! What holds whatever is told and decided. The function does nothing: its contract is the law.
ghost use Rattle.live_desk.specs.Laws.{NoneIsLost};

use rules::Rules;

/// Whatever is told, and decided by these rules: each pod that the desk has to place, or has placed,
/// is in its queue, waiting there or in flight, by the row by which it was told. And a pod that was
/// told to wait is one of them, unless it is answered that it is left out.
#[tactic(auto, using(crate::proofs::Queued::none_is_lost))]
pub fn none_is_lost<K: Rules>(_kit: &K)
    ensures { NoneIsLost (K.answers _kit.now) }
{}
