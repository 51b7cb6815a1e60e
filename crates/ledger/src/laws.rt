//! What holds of every history. The functions do nothing: their contracts are the laws.
ghost use Rattle.ledger.specs.Keeping.{EachIsKept};
ghost use Rattle.ledger.specs.Laws.{AlwaysCountsOnce, GrantsAreRight, OneAnswer};
ghost use Rattle.ledger.specs.World.{NeverOverfull};

/// Whatever was told, in whatever order: each pod counts on the one node that was told last, or
/// that a bind of it was asked for, with what it takes; and nothing else counts.
pub fn each_pod_counts_once()
    ensures { AlwaysCountsOnce }
{}

/// A bind is granted where the pod was last told to wait, no bind of it is open, both kinds are
/// heard, and the node is there and has room beside all that counts on it; and nowhere else.
pub fn grants_are_right()
    ensures { GrantsAreRight }
{}

/// A pod that is told is known from then on, but where it is answered that there is no room for it,
/// until it ends. What waits is bound by a grant alone; a bind is over once its pod has a node, or a
/// read of that bind finds that it has none; and nothing takes its node from a pod.
pub fn each_pod_is_kept()
    ensures { EachIsKept }
{}

/// What is answered depends on what was told before, and on nothing else: each event has one
/// answer, and leads to one state.
pub fn one_answer()
    ensures { OneAnswer }
{}

/// However late the server's changes are told, whichever binds land or don't, and however often the
/// ledger is made anew: where all is told that is owed, the pods that stand on a node never take
/// more than it has.
pub fn never_overfull()
    ensures { NeverOverfull }
{}
