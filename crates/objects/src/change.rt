//! What is told of an object, by its kind and by what has come of it.

/// A kind of object.
#[derive(Clone, Copy)]
pub(crate) enum Kind {
    /// A node.
    Node,
    /// A pod.
    Pod,
}

/// What has come of an object.
#[derive(Clone, Copy)]
pub(crate) enum Change {
    /// It is there.
    There,
    /// It was there already, and is now as it is told.
    Changed,
    /// It is no longer there.
    Gone,
}
