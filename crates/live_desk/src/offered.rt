//! The pods that a desk was told to place.
use quant::{SharedPod, Ticket};

/// A pod that the desk has to place, or has placed.
#[derive(Drop)]
pub struct Offered {
    /// The row by which the desk decides.
    pub pod: SharedPod,
    /// What names the desk's choice, where a bind was asked for.
    pub ticket: Option<Ticket>,
}
