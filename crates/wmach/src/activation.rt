//! Where the call of a function stands.

/// A function that runs, or that waits for one that it called: its place among those of the module,
/// the place in the bytes where it goes on, the slot where its locals begin, how many of its notes
/// stand before that place, and the slot where its operands begin.
#[derive(Clone, Copy)]
pub struct Activation {
    pub function: usize,
    pub at: usize,
    pub base: usize,
    pub cursor: usize,
    pub operands: usize,
}
