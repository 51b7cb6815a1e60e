//! What a translation has yet to write.
ghost use Rattle.std.specs.Prelude.{◌≡◌, ◌<◌, ◌++◌, ◌^◌, [], vec_len, IsTrue, OnOk, OnErr, IfErr};
ghost use Rattle.std.specs.Io.KnownBytes.{Appends};
ghost use Rattle.streams.specs.Device.{AppendsFront};
ghost use Rattle.streams.specs.declared.fault.RunFault.TheVariants as run_fault;
ghost use Rattle.fault_line.specs.declared.fault.Fault.TheVariants as faults;
ghost use Rattle.translator.specs.declared.waiting.Stopped.TheVariants as stops;
ghost use Rattle.streams.specs.inside.Device.{WritesSome};
ghost use Rattle.translator.specs.inside.Waiting.{IsUnwritten};

use fault_line::Fault;
use std::alloc::{AllocError, Global};
use streams::{NoMemory, RunFault, Sink, write_all};

// So much may wait before it is written, while whole lines are there to be answered.
const MAX_WAITING: usize = 65_536;

/// Why a translation ends early.
#[derive(Drop)]
pub(crate) enum Stopped {
    /// By this fault, which is to be told.
    By(Fault),
    /// What is left out couldn't be told.
    Untold,
}

impl From<AllocError> for Stopped {
    ghost from_gives = { λ _ stopped. stopped ≡ stops.By (faults.Run run_fault.NoMemory) };

    fn from(_refused: AllocError) -> Self {
        Stopped::By(Fault::Run(RunFault::NoMemory))
    }
}

impl From<RunFault> for Stopped {
    ghost from_gives = { λ fault stopped. stopped ≡ stops.By (faults.Run fault) };

    fn from(fault: RunFault) -> Self {
        Stopped::By(Fault::Run(fault))
    }
}

/// Answers that aren't yet written, and what isn't yet told of what they leave out.
#[derive(Drop)]
pub(crate) struct Waiting {
    pub(crate) answers: Vec<u8>,
    pub(crate) left_out: Vec<u8>,
}

impl Waiting {
    // Nothing waits.
    pub(crate) fn new(alloc: Global) -> Waiting
        ensures answers { result.answers.items ≡ [] }
        ensures left_out { result.left_out.items ≡ [] }
    {
        Waiting {
            answers: Vec::new(alloc),
            left_out: Vec::new(alloc),
        }
    }

    // Adds an answer, and what is told beside it.
    pub(crate) fn add(&mut self, answer: &[u8], left_out: &[u8]) -> Result<(), NoMemory>
        ensures answers { OnOk result (self.new.answers.items ≡ self.old.answers.items ++ answer.now) }
        ensures left_out { OnOk result (self.new.left_out.items ≡ self.old.left_out.items ++ left_out.now) }
        ensures kept { OnErr result ((self.new.answers.items ≡ self.old.answers.items)
            × (self.new.left_out.items ≡ self.old.left_out.items)) }
    {
        let len = self.answers.len();
        let Ok(()) = self.answers.extend_from_slice(answer) else {
            return Err(NoMemory);
        };
        match self.left_out.extend_from_slice(left_out) {
            Ok(()) => Ok(()),
            Err(_) => {
                self.answers.truncate(len);
                Err(NoMemory)
            }
        }
    }

    // Writes all that waits. What is left out of an answer is told before the answer is written, so
    // that whoever has the answer can read it.
    pub(crate) fn flush<W: Sink, E: Sink>(
        &mut self,
        out: &mut W,
        err: &mut E,
    ) -> Result<(), Stopped>
        requires writes { W.failure_count out.old < 10 ^ 18 }
        requires tells { E.failure_count err.old < 10 ^ 18 }
        ensures empty { OnOk result ((self.new.answers.items ≡ []) × (self.new.left_out.items ≡ [])) }
        ensures written { OnOk result (Appends (W.written out.old) (W.written out.new) self.old.answers.items) }
        ensures told { OnOk result (Appends (E.written err.old) (E.written err.new) self.old.left_out.items) }
        ensures counts { OnOk result ((W.failure_count out.new ≡ W.failure_count out.old)
            × (E.failure_count err.new ≡ E.failure_count err.old)) }
        ensures fronts { OnErr result (AppendsFront (W.written out.old) (W.written out.new) self.old.answers.items
            × AppendsFront (E.written err.old) (E.written err.new) self.old.left_out.items) }
        ensures stopped { IfErr result (IsUnwritten (W.failure_count out.old) (W.failure_count out.new)
            (E.failure_count err.old) (E.failure_count err.new)) }
    {
        let Ok(()) = write_all(err, &self.left_out) else {
            return Err(Stopped::Untold);
        };
        let Ok(()) = write_all(out, &self.answers) else {
            return Err(Stopped::By(Fault::Run(RunFault::Write)));
        };
        self.answers.clear();
        self.left_out.clear();
        Ok(())
    }

    // Writes what waits, where it is due or has grown to the most that may wait: less than that
    // waits then.
    pub(crate) fn flush_if<W: Sink, E: Sink>(
        &mut self,
        due: bool,
        out: &mut W,
        err: &mut E,
    ) -> Result<(), Stopped>
        requires { (W.failure_count out.old < 10 ^ 18) × (E.failure_count err.old < 10 ^ 18) }
        ensures due { OnOk result (IsTrue due → self.new.answers.items ≡ []) }
        ensures few { OnOk result ((vec_len self.new.answers < 65536) × (vec_len self.new.left_out < 65536)) }
        ensures written { OnOk result (WritesSome (W.written out.old) (W.written out.new)
            self.old.answers.items self.new.answers.items) }
        ensures told { OnOk result (WritesSome (E.written err.old) (E.written err.new)
            self.old.left_out.items self.new.left_out.items) }
        ensures counts { OnOk result ((W.failure_count out.new ≡ W.failure_count out.old)
            × (E.failure_count err.new ≡ E.failure_count err.old)) }
        ensures fronts { OnErr result (AppendsFront (W.written out.old) (W.written out.new) self.old.answers.items
            × AppendsFront (E.written err.old) (E.written err.new) self.old.left_out.items) }
        ensures stopped { IfErr result (IsUnwritten (W.failure_count out.old) (W.failure_count out.new)
            (E.failure_count err.old) (E.failure_count err.new)) }
    {
        if due || self.answers.len() >= MAX_WAITING || self.left_out.len() >= MAX_WAITING {
            return self.flush(out, err);
        }
        Ok(())
    }
}
