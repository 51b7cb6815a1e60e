//! What holds of every fleet. The function does nothing: its contract is the law.
ghost use Rattle.std.specs.Prelude.{◌≡◌};

use pool::MAX_KITS;

/// A fleet has at most so many kits.
pub fn most_kits_are_these()
    ensures { MAX_KITS ≡ 64 }
{}
