//! Which program this is.
ghost use Rattle.std.specs.Prelude.{◌≡◌, ◌≢◌, ◌⊎◌, ◌^◌, ◌<◌};
ghost use Rattle.std.specs.Io.KnownBytes.{Appends};
ghost use Rattle.streams.specs.Device.{AppendsFront};
ghost use Rattle.streams.specs.declared.fault.RunFault.TheVariants as run_fault;
ghost use Rattle.fault_line.specs.declared.fault.Fault.TheVariants.{Run};
ghost use Rattle.fault_line.specs.Message.{Tells, message_of};
ghost use Rattle.site_modules.specs.Version.{version_line};

use fault_line::{Fault, report};
use streams::{RunFault, Sink, write_all};

// The program's name, its version (Semantic Versioning 2.0.0), and the kit that it is proved with.
const VERSION: &[u8] = b"wsched 0.5.0 rattle-kit-13f\n";

/// Says on `out` which program this is, as one line, and gives the exit status: 0, or 4 where a
/// write failed, which goes to `err`.
#[tactic(auto, using(crate::proofs::Verdicts::whole_front))]
pub fn tell_version<W: Sink, E: Sink>(out: &mut W, err: &mut E) -> u8
    requires writes { W.failure_count out.old < 10 ^ 18 }
    requires tells { E.failure_count err.old < 10 ^ 18 }
    ensures status { (result ≡ 0) ⊎ (result ≡ 4) }
    ensures told { result ≡ 0 → Appends (W.written out.old) (W.written out.new) version_line × (err.new ≡ err.old) }
    ensures failed { result ≡ 4 → Tells (E.written err.old) (E.written err.new) (E.failure_count err.old)
        (E.failure_count err.new) (message_of (Run run_fault.Write))
        × (W.failure_count out.old < W.failure_count out.new) }
    ensures front { AppendsFront (W.written out.old) (W.written out.new) version_line }
    ensures failures_told { result ≢ 4 → W.failure_count out.new ≡ W.failure_count out.old }
{
    match write_all(out, VERSION) {
        Ok(()) => 0,
        Err(_) => report(Fault::Run(RunFault::Write), err),
    }
}
