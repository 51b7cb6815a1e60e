//! Why the typing of a body stops.

// The body has no typing, or memory ran out.
#[derive(Clone, Copy)]
pub enum Stop {
    Untyped,
    NoMemory,
}
