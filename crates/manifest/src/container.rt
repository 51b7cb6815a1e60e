//! What the containers of a pod ask.
ghost use Rattle.std.specs.Prelude.{◌≡◌, ◌≤◌, ◌^◌, Ok};
ghost use Rattle.quant.specs.Request.{request_of};
ghost use Rattle.manifest.specs.Rows.{container};

use crate::fault::LineFault;
use crate::field::Field;
use crate::item::{Item, part, parts};
use crate::reading::{cpu_from, memory_from};
use quant::{Bytes, Cpu, Request};
use serde_json::Value;

impl Item for Request {
    ghost reading = { container };

    #[tactic(auto, unfolding(crate::specs::Rows::container, crate::specs::Reading::request))]
    fn read(item: &Value, _before: &[Request], field: Field) -> Result<Request, LineFault> {
        let Some(found) = parts(item, 2) else {
            return Err(LineFault::BadField(field));
        };
        let Some(cpu) = part(found, 0) else {
            return Err(LineFault::BadField(field));
        };
        let Some(mem) = part(found, 1) else {
            return Err(LineFault::BadField(field));
        };
        let cpu = match cpu_from(cpu, field) {
            Ok(cpu) => cpu,
            Err(fault) => return Err(fault),
        };
        match memory_from(mem, field) {
            Ok(mem) => Ok(request_within(cpu, mem)),
            Err(fault) => Err(fault),
        }
    }
}

// The request of two amounts that are within their limits.
pub(crate) fn request_within(cpu: Cpu, mem: Bytes) -> Request
    requires cpu { cpu.0 ≤ 2 ^ 30 }
    requires mem { mem.0 ≤ 2 ^ 44 }
    ensures { request_of cpu mem ≡ Ok result }
{
    Request { cpu, mem }
}
