//! The lines of a source, which is read in pieces.
ghost use Rattle.std.specs.Prelude.{◌≡◌, ◌≢◌, ◌==◌, ◌⊎◌, ◌+◌, ◌^◌, ◌<◌, ◌≤◌, ◌++◌, [], nat_lt, true, false, Ok, Err, IfErr, IsErrOf, ℕ, List, length, take, slice_index, vec_len, Contains, IsTrue, IfOk, OnOk, IfSome, IfNone};
ghost use Rattle.std.specs.Io.KnownBytes.{Consumes, IsAtEnd, prepend_known};
ghost use Rattle.streams.specs.Device.{CountsFailure};
ghost use Rattle.streams.specs.Lines.{IsLine, TakesFront, TakesLine};
ghost use Rattle.streams.specs.inside.Lines.{TakesPiece};

use crate::device::{DeviceFailed, Source};
use crate::fault::RunFault;
use manifest::MAX_LINE;
use memchr::memchr;
use std::alloc::{AllocError, Global};
use std::marker::Model;

// How many bytes are read at a time, at most.
const PIECE: usize = 65_536;

// The most bytes of a line that are kept: one more than a line may have.
const MAX_KEPT: usize = MAX_LINE + 1;

/// What was read of a source and is not yet taken.
#[derive(Drop)]
pub struct LineReader {
    buffer: Vec<u8>,
    start: usize,
    end: usize,
}

impl Model for LineReader {
    ghost use Rattle.std.specs.Prelude.{List, ℕ, ◌≤◌, ◌<◌, slice_range, vec_len};

    ghost Value = { List ℕ };

    ghost view = { λ r. slice_range r.buffer.items r.start r.end };

    ghost invariant = { λ r. (r.start ≤ r.end) × (r.end ≤ vec_len r.buffer) × (0 < vec_len r.buffer) };
}

impl LineReader {
    /// A reader of which nothing was read.
    ///
    /// Errors: `AllocError` where there is no memory for a piece of 64 KiB.
    pub fn new(alloc: Global) -> Result<LineReader, AllocError>
        ensures { IfOk result (λ reader. reader ≡ []) }
    {
        Ok(LineReader {
            buffer: vec![in alloc; 0; PIECE]?,
            start: 0,
            end: 0,
        })
    }

    // Whether all that was read is taken.
    pub(crate) fn is_empty(&self) -> bool
        ensures { result ≡ (length self.now == 0) }
    {
        self.start == self.end
    }

    /// Whether a whole line was read and is not yet taken.
    pub fn has_line(&self) -> bool
        ensures some { IsTrue result → Contains self.now 10 }
        ensures none { result ≡ false → IsLine self.now }
    {
        newline_at(&self.buffer[self.start..self.end]).is_some()
    }

    /// Takes the next line of a source, of which it keeps the first 65,537 bytes, and says whether
    /// there was one. `waits` is the output that is not yet written: nothing, where the source is
    /// read.
    ///
    /// Errors: `Read`, and `NoMemory` where there is none for the line.
    pub fn next_line<R: Source>(
        &mut self,
        source: &mut R,
        line: &mut Vec<u8>,
        waits: &[u8],
    ) -> Result<bool, RunFault>
        requires reads { R.failure_count source.old < 10 ^ 18 }
        requires told { IsLine self.old → waits.now ≡ [] }
        ensures found { result ≡ Ok true → TakesLine (prepend_known self.old (R.remaining source.old))
            (prepend_known self.new (R.remaining source.new)) line.new.items }
        ensures ended { result ≡ Ok false → (self.new ≡ []) × IsAtEnd (R.remaining source.new)
            × Consumes (prepend_known self.old (R.remaining source.old))
            (prepend_known self.new (R.remaining source.new)) [] }
        ensures less { result ≡ Ok true → R.bytes_left source.new + length self.new
            < R.bytes_left source.old + length self.old }
        ensures failed { IsErrOf result RunFault.Read → R.failure_count source.old < R.failure_count source.new }
        ensures kept { result ≢ Err RunFault.Read → R.failure_count source.new ≡ R.failure_count source.old }
        ensures short { OnOk result (vec_len line.new ≤ 65537) }
        ensures faults { IfErr result (λ e. (e ≡ RunFault.Read) ⊎ (e ≡ RunFault.NoMemory)) }
    {
        self.next_front(MAX_KEPT, source, line, waits)
    }

    /// Takes the next line of a source, as `next_line` does, but keeps so many bytes of it at most.
    ///
    /// Errors: `Read`, and `NoMemory` where there is none for the line.
    pub fn next_front<R: Source>(
        &mut self,
        most: usize,
        source: &mut R,
        line: &mut Vec<u8>,
        waits: &[u8],
    ) -> Result<bool, RunFault>
        requires reads { R.failure_count source.old < 10 ^ 18 }
        requires told { IsLine self.old → waits.now ≡ [] }
        ensures found { result ≡ Ok true → TakesFront most (prepend_known self.old (R.remaining source.old))
            (prepend_known self.new (R.remaining source.new)) line.new.items }
        ensures ended { result ≡ Ok false → (self.new ≡ []) × IsAtEnd (R.remaining source.new)
            × Consumes (prepend_known self.old (R.remaining source.old))
            (prepend_known self.new (R.remaining source.new)) [] }
        ensures less { result ≡ Ok true → R.bytes_left source.new + length self.new
            < R.bytes_left source.old + length self.old }
        ensures failed { IsErrOf result RunFault.Read → R.failure_count source.old < R.failure_count source.new }
        ensures kept { result ≢ Err RunFault.Read → R.failure_count source.new ≡ R.failure_count source.old }
        ensures short { OnOk result (vec_len line.new ≤ most) }
        ensures faults { IfErr result (λ e. (e ≡ RunFault.Read) ⊎ (e ≡ RunFault.NoMemory)) }
    {
        line.clear();
        let mut begun = false;
        'pieces: loop {
            let Ok(more) = self.has_more(source, waits) else {
                return Err(RunFault::Read);
            };
            if !more {
                return Ok(begun);
            }
            begun = true;
            let Ok(ended) = self.take_piece(most, line) else {
                return Err(RunFault::NoMemory);
            };
            if ended {
                return Ok(true);
            }
        }
    }

    // Whether any byte of a source is left. It reads a piece where all that was read is taken.
    #[tactic(auto, using(crate::proofs::Taking::filled, crate::proofs::Taking::unread))]
    fn has_more<R: Source>(&mut self, source: &mut R, waits: &[u8]) -> Result<bool, RunFault>
        requires reads { R.failure_count source.old < 10 ^ 18 }
        requires told { self.old ≡ [] → waits.now ≡ [] }
        ensures some { IfOk result (λ more. more ≡ nat_lt 0 (length self.new)) }
        ensures read { OnOk result (Consumes (prepend_known self.old (R.remaining source.old))
            (prepend_known self.new (R.remaining source.new)) []) }
        ensures ended { result ≡ Ok false → (self.new ≡ []) × IsAtEnd (R.remaining source.new) }
        ensures kept { 0 < length self.old → self.new ≡ self.old }
        ensures left { OnOk result (R.bytes_left source.new + length self.new
            ≤ R.bytes_left source.old + length self.old) }
        ensures failed { CountsFailure (R.failure_count source.old) (R.failure_count source.new) result }
        ensures faults { IfErr result (λ e. e ≡ RunFault.Read) }
    {
        if !self.is_empty() {
            return Ok(true);
        }
        let Ok(()) = self.fill(source, waits) else {
            return Err(RunFault::Read);
        };
        Ok(!self.is_empty())
    }

    // Reads the next piece of a source, where all that was read is taken and all answers to it are
    // written: who writes the script may wait for them.
    fn fill<R: Source>(&mut self, source: &mut R, waits: &[u8]) -> Result<(), DeviceFailed>
        requires empty { self.old ≡ [] }
        requires told { waits.now ≡ [] }
        requires failures { R.failure_count source.old < 10 ^ 18 }
        ensures read { OnOk result (Consumes (R.remaining source.old) (R.remaining source.new) self.new) }
        ensures end { OnOk result (self.new ≡ [] → IsAtEnd (R.remaining source.new)) }
        ensures left { OnOk result (R.bytes_left source.new + length self.new ≤ R.bytes_left source.old) }
        ensures failed { CountsFailure (R.failure_count source.old) (R.failure_count source.new) result }
    {
        prove!(waits.is_empty());
        self.start = 0;
        self.end = 0;
        let Ok(end) = source.read(self.buffer.as_mut_slice()) else {
            return Err(DeviceFailed);
        };
        self.end = end;
        Ok(())
    }

    // Takes what there is of a line, of which so many bytes are kept at most, and says whether its
    // end was there.
    fn take_piece(&mut self, most: usize, line: &mut Vec<u8>) -> Result<bool, AllocError>
        requires { vec_len line.old ≤ most }
        ensures { IfOk result (λ ended. (text : List ℕ) × IsLine text
            × (line.new.items ≡ take most (line.old.items ++ text)) × TakesPiece ended self.old self.new text) }
    {
        let piece = &self.buffer[self.start..self.end];
        match newline_at(piece) {
            Some(at) => {
                let Ok(()) = keep(most, line, &piece[..at]) else {
                    return Err(AllocError);
                };
                self.start += at + 1;
                Ok(true)
            }
            None => {
                let Ok(()) = keep(most, line, piece) else {
                    return Err(AllocError);
                };
                self.start = self.end;
                Ok(false)
            }
        }
    }
}

// Where the first newline stands.
fn newline_at(bytes: &[u8]) -> Option<usize>
    ensures found { IfSome result (λ at. (at < length bytes.now) × (slice_index bytes.now at ≡ 10)) }
    ensures first { IfSome result (λ at. IsLine (take at bytes.now)) }
    ensures none { IfNone result (IsLine bytes.now) }
{
    memchr(b'\n', bytes)
}

// Adds a piece to what is kept of a line, so many bytes at most.
#[tactic(auto, using(crate::proofs::Pieces::kept_push))]
fn keep(most: usize, line: &mut Vec<u8>, piece: &[u8]) -> Result<(), AllocError>
    requires { vec_len line.old ≤ most }
    ensures { OnOk result (line.new.items ≡ take most (line.old.items ++ piece.now)) }
{
    let room = most - line.len();
    line.extend_from_slice(&piece[..piece.len().min(room)])
}
