//! What holds of this crate's constants. The function does nothing: its contract is the law.
ghost use Rattle.std.specs.Prelude.{◌≡◌, ◌^◌};

use crate::limits::{
    LATEST_MOMENT, MAX_CONTAINERS, MAX_CPU, MAX_FUEL, MAX_INIT_CONTAINERS, MAX_LABELS, MAX_MEM,
    MAX_NAME, MAX_NODES, MAX_PLACED, MAX_PLUGINS, MAX_QUEUED, MAX_TAINTS, MAX_TICKET,
    MAX_TOLERATIONS, MAX_VERSION, MAX_WEIGHT, MAX_WORKERS,
};

/// The limits are these numbers. Contracts everywhere name the limits, and this one says what they
/// are, so that none can be made smaller or greater unseen.
pub fn limits_are_these()
    ensures rows { (MAX_NAME ≡ 63) × (MAX_LABELS ≡ 32) × (MAX_TAINTS ≡ 8) × (MAX_TOLERATIONS ≡ 16) }
    ensures containers { (MAX_CONTAINERS ≡ 16) × (MAX_INIT_CONTAINERS ≡ 16) }
    ensures amounts { (MAX_CPU ≡ 2 ^ 30) × (MAX_MEM ≡ 2 ^ 44) }
    ensures cluster { (MAX_NODES ≡ 1000) × (MAX_PLACED ≡ 150000) × (MAX_QUEUED ≡ 10000) }
    ensures site { (MAX_PLUGINS ≡ 16) × (MAX_WEIGHT ≡ 10) × (MAX_FUEL ≡ 10 ^ 9) × (MAX_WORKERS ≡ 64) }
    ensures counted { (MAX_VERSION ≡ 10 ^ 18) × (MAX_TICKET ≡ 10 ^ 18) × (LATEST_MOMENT ≡ 10 ^ 15) }
{}
