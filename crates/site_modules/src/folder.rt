//! The files that are read, over std's files.
ghost use Rattle.std.specs.Prelude.{◌≡◌, ◌+◌, ◌^◌, ◌<◌, ◌≤◌, ◌⊎◌, ℕ, List, Option, Some, None, IfErr, IfOk, IfSome, OnOk, length, take};
ghost use Rattle.streams.specs.Device.{CountsFailure};
ghost use Rattle.streams.specs.declared.fault.RunFault.TheVariants.{Read, NoMemory};

use crate::device::Input;
use fault_line::Cause;
use std::alloc::Global;
use std::fs;
use std::io::ErrorKind;
use streams::{DeviceFailed, RunFault, Source};

/// Files that are found by their names.
pub trait Files {
    // What the file of this name has, where that is known.
    ghost contents: { Self → List ℕ → Option (List ℕ) };

    // How many files couldn't be opened or read.
    ghost failure_count: { Self → ℕ };

    /// Reads the file of this name: all of its bytes, or its first ones, so many at most.
    ///
    /// Errors: `Read` where the file can't be opened or read, and `NoMemory`.
    fn read_front(&mut self, alloc: Global, name: &str, most: usize) -> Result<Vec<u8>, RunFault>
        requires { failure_count self.old < 10 ^ 18 }
        ensures front { IfOk result (λ bytes. IfSome (contents self.old name.now) (λ whole. bytes.items
            ≡ take most whole)) }
        ensures faults { IfErr result (λ e. (e ≡ Read) ⊎ (e ≡ NoMemory)) }
        ensures failed { IfErr result (λ e. e ≡ Read → failure_count self.old < failure_count self.new) }
        ensures wanting { IfErr result (λ e. e ≡ NoMemory → failure_count self.new ≡ failure_count self.old) }
        ensures read { OnOk result (failure_count self.new ≡ failure_count self.old) }
        ensures same { contents self.new ≡ contents self.old };

    /// Why the last file that couldn't be opened or read couldn't, as far as the system says it.
    fn cause(&self) -> Cause;
}

/// The files of a runtime. What they have isn't known.
#[derive(Drop)]
pub struct Folder<'a, R: fs::Files> {
    files: &'a R,
    failures: u64,
    cause: Cause,
}

impl<'a, R: fs::Files> Folder<'a, R> {
    /// The files, of which none is read yet.
    pub fn new(files: &'a R) -> Folder<'a, R>
        ensures { result.failures ≡ 0 }
    {
        Folder {
            files,
            failures: 0,
            cause: Cause::Other,
        }
    }

    // That one more file couldn't be opened or read, for this cause.
    fn failed(&mut self, cause: Cause) -> RunFault
        requires { self.old.failures < 10 ^ 18 }
        ensures fault { result ≡ Read }
        ensures counted { self.new.failures ≡ self.old.failures + 1 }
    {
        self.failures += 1;
        self.cause = cause;
        RunFault::Read
    }
}

// What the system's error says of a file that can't be opened.
fn cause_of(error: ErrorKind) -> Cause {
    match error {
        ErrorKind::NotFound => Cause::Missing,
        ErrorKind::PermissionDenied => Cause::Denied,
        ErrorKind::NotADirectory | ErrorKind::InvalidFilename | ErrorKind::InvalidInput => {
            Cause::BadName
        }
        _ => Cause::Other,
    }
}

impl<R: fs::Files> Files for Folder<'_, R> {
    ghost contents = { λ s name. None };

    ghost failure_count = { λ s. s.failures };

    fn read_front(&mut self, alloc: Global, name: &str, most: usize) -> Result<Vec<u8>, RunFault> {
        let Ok(mut bytes) = vec![in alloc; 0; most] else {
            return Err(RunFault::NoMemory);
        };
        let file = match fs::open(self.files, name) {
            Ok(file) => file,
            Err(error) => return Err(self.failed(cause_of(error.kind()))),
        };
        let Ok(len) = fill(&mut Input::new(file), bytes.as_mut_slice()) else {
            return Err(self.failed(Cause::Unreadable));
        };
        bytes.truncate(len);
        Ok(bytes)
    }

    fn cause(&self) -> Cause {
        self.cause
    }
}

// Fills the buffer from a source, and says how much of it was there to be read.
#[tactic(auto, using(crate::proofs::Fronts::ended, crate::proofs::Fronts::full))]
fn fill<R: Source>(source: &mut R, buffer: &mut [u8]) -> Result<usize, DeviceFailed>
    requires { R.failure_count source.old < 10 ^ 18 }
    ensures within { IfOk result (λ n. n ≤ length buffer.new) }
    ensures front { IfOk result (λ n. IfSome (R.remaining source.old) (λ whole. take n buffer.new
        ≡ take (length buffer.new) whole)) }
    ensures failed { CountsFailure (R.failure_count source.old) (R.failure_count source.new) result }
{
    let mut at = 0;
    while at < buffer.len() {
        let n = source.read(&mut buffer[at..])?;
        if n == 0 {
            break;
        }
        at += n;
    }
    Ok(at)
}
