//! The filter that a node's free resources make.
ghost use Rattle.std.specs.Prelude.{◌≡◌};
ghost use Rattle.fit.specs.Fit.{has_room, fit_of};

use quant::{Request, Res};

/// The first resource of which a node has too little for a pod.
#[derive(Clone, Copy)]
pub enum Shortage {
    /// Too little CPU.
    Cpu,
    /// Too little memory.
    Memory,
    /// No place for one more pod.
    Pods,
}

/// Whether a pod fits on a node that has `allocatable` in all, of which its pods use `used`.
///
/// Of CPU and of memory, a request of 0 fits even where more is used than allocatable; any other
/// fits where it and what is used are together at most what is allocatable. The pod's own place is
/// always tested.
///
/// Errors: the first resource of which there is too little, in the order CPU, memory, pods.
#[tactic(auto, unfolding(crate::specs::Fit::fit_of))]
pub fn fits(allocatable: Res, used: Res, request: Request) -> Result<(), Shortage>
    ensures { result ≡ fit_of allocatable used request }
{
    if !has_room(allocatable.cpu.0, used.cpu.0, request.cpu.0) {
        return Err(Shortage::Cpu);
    }
    if !has_room(allocatable.mem.0, used.mem.0, request.mem.0) {
        return Err(Shortage::Memory);
    }
    if used.pods >= allocatable.pods {
        return Err(Shortage::Pods);
    }
    Ok(())
}

// Whether there is room for what is asked of a resource.
fn has_room(allocatable: u64, used: u64, asked: u64) -> bool
    ensures { result ≡ has_room allocatable used asked }
{
    asked == 0
        || used
            .checked_add(asked)
            .is_some_and(|sum| sum <= allocatable)
}
