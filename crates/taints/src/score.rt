//! The score by which nodes with fewer untolerated taints come first.
ghost use Rattle.std.specs.Prelude.{◌≡◌, ◌≤◌};
ghost use Rattle.taints.specs.TaintScore.{taint_score};

/// The score from 0 to 100 of a node with `count` untolerated `PreferNoSchedule` taints, where the
/// most that any node has which the pod may stand on is `most`: 100 where no node has any, and
/// else 100 less `100 * count / most`, rounded down. A count above the most scores 0.
#[tactic(auto, unfolding(crate::specs::TaintScore::taint_score))]
pub fn normalize(count: u8, most: u8) -> u8
    ensures value { result ≡ taint_score count most }
    ensures bounded { result ≤ 100 }
{
    if most == 0 {
        return 100;
    }
    let hundredths = 100 * u16::from(count) / u16::from(most);
    100u16.saturating_sub(hundredths) as u8
}
