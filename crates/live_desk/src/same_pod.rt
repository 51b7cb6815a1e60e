//! Whether two rows of pods are the same.
ghost use Rattle.std.specs.Prelude.{◌≡◌};
ghost use Rattle.live_desk.specs.SamePod.{are_all, is_same_label, is_same_toleration, is_same_operator, is_same_effect, is_same_request, is_same_pod};

use quant::{Effect, Label, Operator, Pod, Request, Toleration};

// Whether two labels are the same.
fn is_same_label(one: &Label, other: &Label) -> bool
    ensures { result ≡ is_same_label one.now other.now }
{
    one.key == other.key && one.value == other.value
}

// Whether two ways to compare are the same.
fn is_same_operator(one: Operator, other: Operator) -> bool
    ensures { result ≡ is_same_operator one other }
{
    matches!(
        (one, other),
        (Operator::Equal, Operator::Equal) | (Operator::Exists, Operator::Exists)
    )
}

// Whether two effects are the same, or none.
fn is_same_effect(one: Option<Effect>, other: Option<Effect>) -> bool
    ensures { result ≡ is_same_effect one other }
{
    matches!(
        (one, other),
        (None, None)
            | (Some(Effect::NoSchedule), Some(Effect::NoSchedule))
            | (
                Some(Effect::PreferNoSchedule),
                Some(Effect::PreferNoSchedule)
            )
            | (Some(Effect::NoExecute), Some(Effect::NoExecute))
    )
}

// Whether two tolerations are the same.
fn is_same_toleration(one: &Toleration, other: &Toleration) -> bool
    ensures { result ≡ is_same_toleration one.now other.now }
{
    one.key == other.key
        && is_same_operator(one.operator, other.operator)
        && one.value == other.value
        && is_same_effect(one.effect, other.effect)
}

// Whether two lists of labels are the same.
fn are_same_labels(one: &[Label], other: &[Label]) -> bool
    ensures { result ≡ are_all is_same_label one.now other.now }
{
    if one.len() != other.len() {
        return false;
    }
    for at in 0..one.len() {
        if !is_same_label(&one[at], &other[at]) {
            return false;
        }
    }
    true
}

// Whether two lists of tolerations are the same.
fn are_same_tolerations(one: &[Toleration], other: &[Toleration]) -> bool
    ensures { result ≡ are_all is_same_toleration one.now other.now }
{
    if one.len() != other.len() {
        return false;
    }
    for at in 0..one.len() {
        if !is_same_toleration(&one[at], &other[at]) {
            return false;
        }
    }
    true
}

/// Whether two pods ask for the same.
pub(crate) fn is_same_request(one: Request, other: Request) -> bool
    ensures { result ≡ is_same_request one other }
{
    one.cpu.0 == other.cpu.0 && one.mem.0 == other.mem.0
}

/// Whether two rows of pods tell the same.
#[tactic(auto, unfolding(crate::specs::SamePod::is_same_pod))]
pub(crate) fn is_same_pod(one: &Pod, other: &Pod) -> bool
    ensures { result ≡ is_same_pod one.now other.now }
{
    one.uid == other.uid
        && one.priority == other.priority
        && is_same_request(one.request, other.request)
        && are_same_labels(one.labels.as_slice(), other.labels.as_slice())
        && are_same_tolerations(one.tolerations.as_slice(), other.tolerations.as_slice())
}
