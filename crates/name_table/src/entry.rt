//! What a slot holds.

use quant::Name;

/// A name and its value.
#[derive(Drop)]
pub struct Entry<V> {
    pub name: Name,
    pub value: V,
}
