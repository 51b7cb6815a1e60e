//! Where the blocks of a body go on.

/// A block, loop or `if` in bytes: where its else arm begins, behind the `else`, if it has one, and
/// the place behind its `end`.
#[derive(Clone, Copy)]
pub struct Block {
    pub else_arm: Option<usize>,
    pub after: usize,
}
