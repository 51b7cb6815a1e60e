//! The call that a pass is about to make.
use crate::desk_core::Core;
use crate::step::Step;

/// A call of a pass of this desk, by its number among the pass's calls.
#[derive(Clone, Copy)]
pub struct NextCall<'a> {
    /// The state before the call.
    pub desk: &'a Core,
    /// The pass.
    pub pass: usize,
    /// The call's number, from 1.
    pub number: u64,
    /// The step.
    pub step: &'a Step,
}
