//! Amounts of CPU, memory and time, and the sums of them that nodes and pods carry.
ghost use Rattle.std.specs.Prelude.{◌^◌, ◌≤◌};

/// An amount of CPU, in thousandths of a core.
#[derive(Clone, Copy, PartialEq, Eq)]
pub struct Cpu(pub u64);

/// An amount of memory, in bytes.
#[derive(Clone, Copy, PartialEq, Eq)]
pub struct Bytes(pub u64);

/// A point of the scheduler's own clock, in milliseconds.
#[derive(Clone, Copy, PartialEq, Eq, PartialOrd)]
pub struct Moment(pub u64);

/// What a node allocates, or what the pods on it use together.
#[derive(Clone, Copy)]
pub struct Res {
    /// Thousandths of a core.
    pub cpu: Cpu,
    /// Bytes.
    pub mem: Bytes,
    /// How many pods.
    pub pods: u32,
}

/// What one container asks, or one pod of a node beside its one place among the node's pods: at
/// most 2^30 thousandths of a core and 2^44 bytes, as the ghost fields say.
#[derive(Clone, Copy, PartialEq, Eq)]
pub struct Request {
    /// Thousandths of a core.
    pub cpu: Cpu,
    /// Bytes.
    pub mem: Bytes,
    pub ghost within_cpu: { cpu.0 ≤ 2 ^ 30 },
    pub ghost within_mem: { mem.0 ≤ 2 ^ 44 },
}
