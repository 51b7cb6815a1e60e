//! What a test asserts last.
use std::process::Abort;

/// No row is otherwise than it is to be, of which this is the first.
pub fn assert_none<R: Abort>(rt: &R, other: Option<usize>) {
    assert_eq!(rt; other, None);
}
