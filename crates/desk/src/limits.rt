//! How many passes a desk has, and how many calls each.
use thiserror::Error;

/// How many passes a desk hands out.
pub const MAX_PASSES: usize = 64;

/// How many calls of one pass are answered.
pub const MAX_CALLS: u64 = 1_000_000_000_000_000_000;

/// All passes were handed out.
#[derive(Clone, Copy, Debug, Error)]
#[error("no place")]
pub struct NoPlace;
