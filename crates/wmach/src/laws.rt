//! What holds of every call, whatever machine makes it. These functions do nothing: each promises a
//! law of the definitions by which the contract of a machine's call says how it ends.

ghost use Rattle.wmach.specs.Call.{NeverStuck, WhatACallLeaves, CallsEnd, OneOutcome, CostWithinFuel, MoreFuelChangesNothing, FirstStoreFits};

/// No call of an accepted module ever gets stuck.
pub fn never_stuck()
    ensures { NeverStuck }
{}

/// However a call of an accepted module ends, the store fits the module; a function that returned
/// leaves just its result.
pub fn what_a_call_leaves()
    ensures { WhatACallLeaves }
{}

/// The store that an accepted module has at first fits it.
pub fn first_store_fits()
    ensures { FirstStoreFits }
{}

/// Every call of an accepted module has an outcome, however much fuel it is given.
pub fn calls_end()
    ensures { CallsEnd }
{}

/// A call ends in one way: its outcome and the store that it leaves are the only ones.
pub fn one_outcome()
    ensures { OneOutcome }
{}

/// No call costs more than its fuel.
pub fn cost_within_fuel()
    ensures { CostWithinFuel }
{}

/// A call that ended before its fuel did ends alike with more.
pub fn more_fuel_changes_nothing()
    ensures { MoreFuelChangesNothing }
{}
