//! Who is told when a piece begins.

/// What is told of the pieces of a decision as they begin, from the threads that judge them: a test
/// can hold them up there.
pub trait Gate {
    /// A piece begins. This comes once for each piece that has a node, before its first node is
    /// judged.
    fn enter(&self, piece: usize);
}

/// A gate that holds nothing up.
#[derive(Clone, Copy, Drop)]
pub struct NoGate;

impl Gate for NoGate {
    fn enter(&self, _piece: usize) {}
}
