//! The score by which emptier nodes come first.
ghost use Rattle.std.specs.Prelude.{◌≡◌, ◌≤◌};
ghost use Rattle.fit.specs.Score.{least_allocated_score};

use crate::allocatable::Allocatable;
use quant::{Request, Res};

/// How free a node would be with the pod on it, from 0 to 100: the mean, rounded down, of the
/// hundredths that would be left of CPU and of memory, each rounded down. A resource of which
/// nothing is allocatable, or of which more would be used than allocatable, counts as 0.
///
/// `used` is what the node's pods use without this one.
pub fn least_allocated(allocatable: Res, used: Res, request: Request) -> u8
    ensures value { result ≡ least_allocated_score allocatable used request }
    ensures most { result ≤ 100 }
{
    Allocatable::of(allocatable).least_allocated(used, request)
}
