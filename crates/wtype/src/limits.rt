//! The sizes of tables and memories.

ghost use Rattle.std.specs.Prelude.{◌≡◌, ◌≤◌, MatchBool};
ghost use Rattle.std.specs.List.{AllByRecursion};
ghost use Rattle.wtype.specs.Accepted.{LimitsRight};

use wmodule::Limits;

// The least size is at most the greatest, and both are at most this.
fn is_right(limits: Limits, range: u64) -> bool
    ensures { MatchBool result (LimitsRight range limits) (LimitsRight range limits → ⊥) }
{
    let least = limits.least as u64;
    match limits.most {
        None => least <= range,
        Some(most) => least <= range && least <= most as u64 && most as u64 <= range,
    }
}

// That is so of each.
pub fn are_right(all: &[Limits], range: u64) -> bool
    ensures { MatchBool result (AllByRecursion (LimitsRight range) all.now)
        (AllByRecursion (LimitsRight range) all.now → ⊥) }
{
    for limits in all {
        if !is_right(*limits, range) {
            return false;
        }
    }
    true
}

// Each begins with no more than this.
pub fn are_small(all: &[Limits], most: u32) -> bool
    ensures { MatchBool result (AllByRecursion (λ l. l.least ≤ most) all.now)
        (AllByRecursion (λ l. l.least ≤ most) all.now → ⊥) }
{
    for limits in all {
        if limits.least > most {
            return false;
        }
    }
    true
}
