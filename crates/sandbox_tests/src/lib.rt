//! The tests of the machine beside the definition of calls (`wmach` beside `wplain`). Of the
//! sandbox's other crates the tests stand in tests/rows and tests/suite. Nothing stands on this
//! crate.
//!
//! A table is a constant of a few dozen rows that a function of its own gives out: what loops over
//! it is then not proved in the midst of the table's parts.
#![tactic(auto)]

#[cfg(test)]
mod comparison;
#[cfg(test)]
mod outcome;
