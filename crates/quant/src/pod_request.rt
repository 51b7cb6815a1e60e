//! What a pod asks of a node, by what its containers ask.
ghost use Rattle.std.specs.Prelude.{◌≡◌, ◌^◌, ◌≤◌, ◌↔◌, length, max, sum_by, IsOk, IfOk, IfErr};
ghost use Rattle.quant.specs.Request.{asked, greatest_by, request_of, pod_request};

use crate::amount::{Bytes, Cpu, Request};
use crate::fault::QuantFault;
use crate::limits::{MAX_CPU, MAX_MEM};

impl Request {
    /// The request of these amounts.
    ///
    /// Errors: `TooLarge` above 2^30 thousandths of a core or above 2^44 bytes.
    pub fn new(cpu: Cpu, mem: Bytes) -> Result<Request, QuantFault>
        ensures accepted { IsOk result ↔ ((cpu.0 ≤ 2 ^ 30) × (mem.0 ≤ 2 ^ 44)) }
        ensures cpu { IfOk result (λ request. request.cpu ≡ cpu) }
        ensures mem { IfOk result (λ request. request.mem ≡ mem) }
        ensures fault { IfErr result (λ fault. fault ≡ QuantFault.TooLarge) }
        ensures value { result ≡ request_of cpu mem }
    {
        if cpu.0 > MAX_CPU || mem.0 > MAX_MEM {
            return Err(QuantFault::TooLarge);
        }
        Ok(Request { cpu, mem })
    }
}

/// A request of nothing, which stands in the unused places of a list of requests.
impl Default for Request {
    ghost is_default = { λ request. (request.cpu.0 ≡ 0) × (request.mem.0 ≡ 0) };

    fn default() -> Self {
        Request {
            cpu: Cpu(0),
            mem: Bytes(0),
        }
    }
}

/// What a pod asks of a node: for each resource the greater of the sum over its containers and
/// the greatest of its init containers, which run one after the other before them (the Kubernetes
/// page "Init Containers", "Resource sharing within containers"). No container asks 0.
///
/// Errors: `TooLarge` above 2^30 thousandths of a core or above 2^44 bytes.
#[tactic(auto, unfolding(crate::specs::Request::asked, crate::specs::Request::pod_request))]
pub fn request(containers: &[Request], init: &[Request]) -> Result<Request, QuantFault>
    requires containers { length containers.now ≤ 16 }
    requires init { length init.now ≤ 16 }
    ensures accepted { IsOk result ↔ ((asked (λ r. r.cpu.0) containers.now init.now ≤ 2 ^ 30)
        × (asked (λ r. r.mem.0) containers.now init.now ≤ 2 ^ 44)) }
    ensures cpu { IfOk result (λ request. request.cpu.0 ≡ asked (λ r. r.cpu.0) containers.now init.now) }
    ensures mem { IfOk result (λ request. request.mem.0 ≡ asked (λ r. r.mem.0) containers.now init.now) }
    ensures fault { IfErr result (λ fault. fault ≡ QuantFault.TooLarge) }
    ensures value { result ≡ pod_request containers.now init.now }
{
    let cpu = sum_of_cpu(containers).max(greatest_cpu(init));
    let mem = sum_of_mem(containers).max(greatest_mem(init));
    Request::new(Cpu(cpu), Bytes(mem))
}

// The thousandths of a core that some containers ask together.
fn sum_of_cpu(containers: &[Request]) -> u64
    requires { length containers.now ≤ 16 }
    ensures { result ≡ sum_by (λ r. r.cpu.0) containers.now }
{
    containers.iter().map(|r| r.cpu.0).sum()
}

// The bytes that some containers ask together.
fn sum_of_mem(containers: &[Request]) -> u64
    requires { length containers.now ≤ 16 }
    ensures { result ≡ sum_by (λ r. r.mem.0) containers.now }
{
    containers.iter().map(|r| r.mem.0).sum()
}

// The most thousandths of a core that one of some containers asks.
fn greatest_cpu(containers: &[Request]) -> u64
    ensures { result ≡ greatest_by (λ r. r.cpu.0) containers.now }
{
    containers.iter().fold(0, |most, r| most.max(r.cpu.0))
}

// The most bytes that one of some containers asks.
fn greatest_mem(containers: &[Request]) -> u64
    ensures { result ≡ greatest_by (λ r. r.mem.0) containers.now }
{
    containers.iter().fold(0, |most, r| most.max(r.mem.0))
}
