//! Why an evaluation stops before a call has ended.

use std::alloc::{AllocError, AllocFailed};

// No rule of reduction applies, or memory ran out.
#[derive(Clone, Copy)]
pub enum Stop {
    Stuck,
    NoMemory,
}

impl From<AllocError> for Stop {
    fn from(_refused: AllocError) -> Self {
        Stop::NoMemory
    }
}

impl<T: Drop> From<AllocFailed<T>> for Stop {
    fn from(_refused: AllocFailed<T>) -> Self {
        Stop::NoMemory
    }
}
