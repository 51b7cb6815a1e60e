//! The numbers that order what happens to a cluster.

/// A version of the watch, a count with no unit: the events of a cluster carry rising versions, 1
/// to 10^18, and 0 stands before the first. The type holds any number; what reads one tests its
/// range.
#[derive(Clone, Copy, PartialEq, Eq, PartialOrd)]
pub struct Version(pub u64);

/// A ticket of an assumed place, 1 to 10^18. No two assumed places are given the same.
#[derive(Clone, Copy, PartialEq, Eq)]
pub struct Ticket(pub u64);
