//! What a plugin says, read from how its call ended.
ghost use Rattle.std.specs.Prelude.{◌≡◌, ◌≤◌, Some};
ghost use Rattle.wcode.specs.declared.value.ValueType.TheVariants.{I32, I64};
ghost use Rattle.wmach.specs.Call.{ResultFits};
ghost use Rattle.wmach.specs.Outcome.{cost_of};
ghost use Rattle.rules.specs.Verdict.{IsWithin};
ghost use Rattle.plugin.specs.Verdict.{filter_said, score_said};

use rules::{Cause, FilterVerdict, Rejection, ScoreVerdict};
use wcode::Value;
use wmach::Outcome;

/// How much fuel a call used.
pub fn fuel_used(outcome: Outcome) -> u64
    ensures { result ≡ cost_of outcome }
{
    match outcome {
        Outcome::Value(_, cost) | Outcome::Trap(_, cost) | Outcome::Exhausted(cost) => cost,
    }
}

/// What a filter said, by how its call ended: the code 0 passes, 2 is `Unschedulable` and 3 is
/// `UnschedulableAndUnresolvable`; every other number, a trap and used-up fuel are errors.
pub fn filter_verdict(outcome: Outcome) -> FilterVerdict
    requires { ResultFits (Some I32) outcome }
    ensures { result ≡ filter_said outcome }
{
    match outcome {
        Outcome::Value(Some(Value::I32(bits)), _) => match bits {
            0 => FilterVerdict::Passes,
            2 => FilterVerdict::Rejects(Rejection::Unschedulable),
            3 => FilterVerdict::Rejects(Rejection::UnschedulableAndUnresolvable),
            _ => FilterVerdict::Errs(Cause::Code(bits.cast_signed())),
        },
        Outcome::Value(_, _) => unreachable!(),
        Outcome::Trap(trap, _) => FilterVerdict::Errs(Cause::Trap(trap)),
        Outcome::Exhausted(_) => FilterVerdict::Errs(Cause::Exhausted),
    }
}

/// What a score said, by how its call ended: a number from 0 to 100 is good; every other number, a
/// trap and used-up fuel are errors.
pub fn score_verdict(outcome: Outcome) -> ScoreVerdict
    requires { ResultFits (Some I64) outcome }
    ensures value { result ≡ score_said outcome }
    ensures within { IsWithin result }
{
    match outcome {
        Outcome::Value(Some(Value::I64(bits)), _) => {
            if bits <= 100 {
                ScoreVerdict::Good(bits as u8)
            } else {
                ScoreVerdict::Errs(Cause::Score(bits.cast_signed()))
            }
        }
        Outcome::Value(_, _) => unreachable!(),
        Outcome::Trap(trap, _) => ScoreVerdict::Errs(Cause::Trap(trap)),
        Outcome::Exhausted(_) => ScoreVerdict::Errs(Cause::Exhausted),
    }
}
