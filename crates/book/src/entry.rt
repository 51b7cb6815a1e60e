//! What the queue knows of a pod that is to be placed.
use quant::Request;

/// What the queue has of a pod that a pass wants to place.
#[derive(Clone, Copy)]
pub enum Entry {
    /// No entry.
    Missing,
    /// An entry that this pass hasn't popped, or has given back since.
    Elsewhere,
    /// An entry that this pass has popped, of a pod with this request.
    Held(Request),
}
