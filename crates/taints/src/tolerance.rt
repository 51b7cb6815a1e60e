//! Which taints a pod tolerates, and which keep it off a node.
ghost use Rattle.std.specs.Prelude.{◌≡◌, ◌≤◌, ◌&&◌, not};
ghost use Rattle.std.specs.List.{list_any};
ghost use Rattle.std.specs.Option.{option_copied};
ghost use Rattle.taints.specs.Tolerance.{takes_effect, matches, tolerated_by, tolerated, keeps_off, unschedulable_mark, rejection, first_untolerated, prefer_not};

use quant::{Effect, Node, Operator, Pod, Taint, Toleration};

/// The key of the taint that stands for a node's mark as unschedulable (the Kubernetes page "Taints
/// and Tolerations"). Its value is empty and its effect is `NoSchedule`.
pub const UNSCHEDULABLE: &str = "node.kubernetes.io/unschedulable";

/// Why a node's marks keep off a pod.
#[derive(Clone, Copy)]
pub enum Rejection {
    /// The node is marked unschedulable, and the pod does not tolerate that.
    Marked,
    /// The node has a taint `NoSchedule` or `NoExecute` that the pod does not tolerate.
    Tainted,
}

/// Whether a toleration tolerates a taint: the keys and the effects are equal, and the operator is
/// `Exists`, or `Equal` with equal values. An empty key with `Exists` stands for every key and
/// value, and no effect for every effect (the Kubernetes page "Taints and Tolerations").
#[tactic(auto, unfolding(crate::specs::Tolerance::tolerated_by))]
pub fn tolerates(toleration: &Toleration, taint: &Taint) -> bool
    ensures { result ≡ tolerated_by taint.now toleration.now }
{
    matches(
        toleration,
        taint.key.as_bytes(),
        taint.value.as_bytes(),
        taint.effect,
    )
}

/// Why a node's marks keep off a pod, if they do: its mark as unschedulable, and else a taint
/// `NoSchedule` or `NoExecute`, that the pod does not tolerate.
#[tactic(auto, unfolding(crate::specs::Tolerance::rejection))]
pub fn rejected_by(node: &Node, pod: &Pod) -> Option<Rejection>
    ensures { result ≡ rejection node.now pod.now }
{
    let tolerations = pod.tolerations.as_slice();
    if node.unschedulable && !tolerate_mark(tolerations) {
        return Some(Rejection::Marked);
    }
    if is_kept_off(node.taints.as_slice(), tolerations) {
        return Some(Rejection::Tainted);
    }
    None
}

/// The first of a node's taints `NoSchedule` or `NoExecute` that a pod does not tolerate, if there
/// is one.
#[tactic(auto, unfolding(crate::specs::Tolerance::first_untolerated))]
pub fn first_untolerated<'a>(node: &'a Node, pod: &Pod) -> Option<&'a Taint>
    ensures { option_copied result ≡ first_untolerated node.now pod.now }
{
    let tolerations = pod.tolerations.as_slice();
    node.taints.as_slice().iter().find(|taint| keeps_off(taint.effect)
        && !tolerate(tolerations, taint))
}

/// How many of a node's taints `PreferNoSchedule` a pod does not tolerate.
#[tactic(auto, unfolding(crate::specs::Tolerance::prefer_not))]
pub fn prefer_count(node: &Node, pod: &Pod) -> u8
    ensures value { result ≡ prefer_not node.now pod.now }
    ensures most { result ≤ 8 }
{
    let tolerations = pod.tolerations.as_slice();
    let untolerated = node
        .taints
        .as_slice()
        .iter()
        .filter(|taint| {
            taint.effect == Effect::PreferNoSchedule && !tolerate(tolerations, taint)
        })
        .count();
    untolerated as u8
}

// Whether one of the taints keeps off the pods that do not tolerate it, and none of the tolerations
// tolerates it.
fn is_kept_off(taints: &[Taint], tolerations: &[Toleration]) -> bool
    ensures { result ≡ list_any
        (λ taint. keeps_off taint.effect && not (tolerated tolerations.now taint)) taints.now }
{
    taints.iter().any(|taint| keeps_off(taint.effect) && !tolerate(tolerations, taint))
}

// Whether one of the tolerations tolerates the taint.
#[tactic(auto, unfolding(crate::specs::Tolerance::tolerated))]
fn tolerate(tolerations: &[Toleration], taint: &Taint) -> bool
    ensures { result ≡ tolerated tolerations.now taint.now }
{
    tolerations
        .iter()
        .any(|toleration| tolerates(toleration, taint))
}

// Whether one of the tolerations tolerates a node's mark as unschedulable.
#[tactic(auto, unfolding(crate::specs::Tolerance::tolerated, crate::specs::Tolerance::tolerated_by))]
fn tolerate_mark(tolerations: &[Toleration]) -> bool
    ensures { result ≡ tolerated tolerations.now unschedulable_mark }
{
    let key = UNSCHEDULABLE.as_bytes();
    tolerations.iter().any(|toleration| matches(toleration, key, &[], Effect::NoSchedule))
}

// Whether a toleration matches a taint with this key, value and effect.
fn matches(toleration: &Toleration, key: &[u8], value: &[u8], effect: Effect) -> bool
    ensures { result ≡ matches toleration.now key.now value.now effect }
{
    let every_value = toleration.operator == Operator::Exists;
    let own_key = toleration.key.as_bytes();
    (own_key == key || own_key.is_empty() && every_value)
        && (every_value || toleration.value.as_bytes() == value)
        && takes_effect(toleration.effect, effect)
}

// Whether a toleration's effect, where none stands for every effect, is the taint's.
fn takes_effect(own: Option<Effect>, effect: Effect) -> bool
    ensures { result ≡ takes_effect own effect }
{
    match own {
        None => true,
        Some(own) => own == effect,
    }
}

// Whether a taint with this effect keeps off the pods that do not tolerate it.
fn keeps_off(effect: Effect) -> bool
    ensures { result ≡ keeps_off effect }
{
    match effect {
        Effect::NoSchedule | Effect::NoExecute => true,
        Effect::PreferNoSchedule => false,
    }
}
