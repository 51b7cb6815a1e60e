//! Whose pods are placed in a cluster that is told line by line, and what its rules read.

/// Whose pods are placed, and what the site's rules read: a `Site` of `objects` that tells no labels
/// beside an object's own, since these come with a line.
///
/// It names no value of JSON. Whoever names a `Site` has all that is stated of those in its library.
#[derive(Clone, Copy)]
pub struct Scope<'a> {
    /// The scheduler whose pods wait. A pod that names none is for `default-scheduler`.
    pub scheduler: &'a str,
    /// The keys of the labels that the site's rules read, with commas between them.
    pub labels: &'a str,
}
