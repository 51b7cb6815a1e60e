//! Deciders of two kinds as one.
ghost use Rattle.std.specs.Prelude.{◌≡◌, List};
ghost use Rattle.choose.specs.declared.one_of.OneOf.TheVariants.{First, Second};

use crate::decider::Decider;
use crate::decision::{Decision, Verdict};
use desk::{NoMemory, Snapshot};
use quant::SharedPod;
use std::sync::Wait;
use std::thread::Threads;

/// One of two deciders, which decides as that one does: so that a list of deciders may have some of
/// each kind.
#[derive(Drop)]
pub enum OneOf<A: Drop, B: Drop> {
    First(A),
    Second(B),
}

impl<A: Decider + Drop, B: Decider<Kit = A::Kit> + Drop> Decider for OneOf<A, B> {
    type Kit = A::Kit;

    ghost kits = { λ d. elim d [ First a ↦ A.kits a | Second b ↦ B.kits b ] };

    ghost last = { λ d. elim d [ First a ↦ A.last a | Second b ↦ B.last b ] };

    fn decide<R: Threads + Wait + Sync>(
        &mut self,
        rt: &R,
        snapshot: Snapshot,
        pod: &SharedPod,
        explains: bool,
    ) -> Result<Decision, NoMemory> {
        match self {
            OneOf::First(one) => one.decide(rt, snapshot, pod, explains),
            OneOf::Second(one) => one.decide(rt, snapshot, pod, explains),
        }
    }

    fn judge(
        &mut self,
        snapshot: &Snapshot,
        pod: &SharedPod,
        filters_alone: bool,
    ) -> Result<(), NoMemory> {
        match self {
            OneOf::First(one) => one.judge(snapshot, pod, filters_alone),
            OneOf::Second(one) => one.judge(snapshot, pod, filters_alone),
        }
    }

    fn verdicts(&self) -> &[Verdict] {
        match self {
            OneOf::First(one) => one.verdicts(),
            OneOf::Second(one) => one.verdicts(),
        }
    }
}
