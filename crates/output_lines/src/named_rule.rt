//! A rule of the decider, as the output tells it.
use quant::Name;

/// A rule's name, and how much its scores count.
#[derive(Drop)]
pub struct NamedRule {
    pub name: Name,
    pub weight: u8,
}
