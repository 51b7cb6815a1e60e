//! What host functions hand over.

ghost use Rattle.std.specs.Prelude.{◌≡◌, ℕ, List, Option, option_map};

use crate::export::Export;

/// What host functions hand over: the bytes of a record, by the function that is called (0 is
/// `sched.pod`, 1 is `sched.node`, 2 is `sched2.pod`, 3 is `sched2.node`, 4 is `sched3.pod`, 5 is
/// `sched3.node`), or nothing.
pub trait Host {
    ghost records: { Self → ℕ → Option (List ℕ) };

    /// The record of this function, if it is given.
    fn record(&self, import: usize) -> Option<&[u8]>
        ensures { option_map (λ r. r.now) result ≡ records self.now import };
}

/// A host during a call of an export: it hands over nothing to a start function.
#[derive(Clone, Copy)]
pub struct During<'a, H> {
    pub host: &'a H,
    pub export: Export,
}

impl<'a, H: Host> Host for During<'a, H> {
    ghost use Rattle.wmach.specs.Call.{records_for};

    ghost records = { λ during. records_for during.export (H.records during.host.now) };

    fn record(&self, import: usize) -> Option<&[u8]>
        ensures { option_map (λ r. r.now) result ≡ records_for self.now.export (H.records self.now.host.now) import }
    {
        match self.export {
            Export::Filter | Export::Score => self.host.record(import),
            Export::Start => None,
        }
    }
}
