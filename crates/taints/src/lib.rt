//! Taints and tolerations: which nodes a pod is kept off, and which are less preferred.
#![tactic(auto)]

mod laws;
mod score;
mod tolerance;

pub use laws::worked_examples;
pub use score::normalize;
pub use tolerance::{
    Rejection, UNSCHEDULABLE, first_untolerated, prefer_count, rejected_by, tolerates,
};
