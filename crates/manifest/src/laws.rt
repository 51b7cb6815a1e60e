//! What holds of this crate's constant. The function does nothing: its contract is the law.
ghost use Rattle.std.specs.Prelude.{◌≡◌};

use crate::line::MAX_LINE;

/// The longest line has this many bytes. The crate's contracts name the limit, and this one says
/// what it is, so that it can't be made smaller or greater unseen.
pub fn longest_line_is_this()
    ensures { MAX_LINE ≡ 65536 }
{}
