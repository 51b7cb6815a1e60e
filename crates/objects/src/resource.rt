//! The resources that a node has and a pod asks for.
ghost use Rattle.std.specs.Prelude.{◌≡◌, ◌≤◌, ◌^◌};
ghost use Rattle.objects.specs.Quantity.{key_of, places, most};
ghost use Rattle.objects.specs.Containers.{of};

use quant::{MAX_CPU, MAX_MEM, MAX_PLACED, Request};

/// A resource of which a node has so much.
#[derive(Clone, Copy)]
pub(crate) enum Resource {
    /// Thousandths of a core.
    Cpu,
    /// Bytes.
    Memory,
    /// Places for pods.
    Pods,
}

impl Resource {
    // The field that tells it.
    pub(crate) fn key(self) -> &'static str
        ensures { result.now ≡ key_of self }
    {
        match self {
            Resource::Cpu => "cpu",
            Resource::Memory => "memory",
            Resource::Pods => "pods",
        }
    }

    // How many decimal places its unit has in the one that the API counts in.
    pub(crate) fn places(self) -> usize
        ensures value { result ≡ places self }
        ensures few { result ≤ 3 }
    {
        match self {
            Resource::Cpu => 3,
            Resource::Memory => 0,
            Resource::Pods => 0,
        }
    }

    // The most of it that a line can say.
    pub(crate) fn most(self) -> u64
        ensures value { result ≡ most self }
        ensures bounded { result ≤ 2 ^ 44 }
    {
        match self {
            Resource::Cpu => MAX_CPU,
            Resource::Memory => MAX_MEM,
            Resource::Pods => MAX_PLACED as u64,
        }
    }

    // How much of it a request asks for.
    pub(crate) fn of(self, request: &Request) -> u64
        ensures value { result ≡ of self request.now }
        ensures bounded { result ≤ 2 ^ 44 }
    {
        match self {
            Resource::Cpu => request.cpu.0,
            Resource::Memory => request.mem.0,
            Resource::Pods => 1,
        }
    }
}
