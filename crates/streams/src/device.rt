//! What a script is read from, and what the output is written to, after std's `Read` and `Write`.
ghost use Rattle.std.specs.Prelude.{◌≡◌, ◌+◌, ◌^◌, ◌<◌, ◌≤◌, ◌++◌, ℕ, List, Option, length, IfOk, OnOk, OnErr};
ghost use Rattle.std.specs.Io.{ReadsAtMost, WritesAtMost};
ghost use Rattle.std.specs.Io.KnownBytes.{ReadConsumes, WriteAppends, Appends};
ghost use Rattle.streams.specs.Device.{CountsFailure, AppendsFront};

/// A read or a write failed.
#[derive(Clone, Copy)]
pub struct DeviceFailed;

/// What a script is read from.
pub trait Source {
    // The bytes that reads will give from here on, where they are known.
    ghost remaining: { Self → Option (List ℕ) };

    // How many bytes reads may give from here on, at most.
    ghost bytes_left: { Self → ℕ };

    // How many reads have failed.
    ghost failure_count: { Self → ℕ };

    /// How many reads have failed.
    fn failures(&self) -> u64
        ensures { result ≡ failure_count self.now };

    /// Reads some bytes to the front of the buffer, and says how many. Into a buffer that has room
    /// it reads none only at the end. A failed read takes no bytes.
    fn read(&mut self, buffer: &mut [u8]) -> Result<usize, DeviceFailed>
        requires { failure_count self.old < 10 ^ 18 }
        ensures bound { ReadsAtMost result buffer.new }
        ensures bytes { ReadConsumes (remaining self.old) (remaining self.new) result buffer.new }
        ensures left { IfOk result (λ n. bytes_left self.new + n ≤ bytes_left self.old) }
        ensures failed { CountsFailure (failure_count self.old) (failure_count self.new) result };
}

/// What the output is written to.
pub trait Sink {
    // The bytes that were written, where they are known.
    ghost written: { Self → Option (List ℕ) };

    // How many writes have failed.
    ghost failure_count: { Self → ℕ };

    /// How many writes have failed.
    fn failures(&self) -> u64
        ensures { result ≡ failure_count self.now };

    /// Writes some bytes from the front of those given, and says how many: at least one, where
    /// there is one. A failed write writes nothing.
    fn write(&mut self, bytes: &[u8]) -> Result<usize, DeviceFailed>
        requires { failure_count self.old < 10 ^ 18 }
        ensures bound { WritesAtMost result bytes.now }
        ensures some { IfOk result (λ n. 0 < length bytes.now → 0 < n) }
        ensures bytes { WriteAppends (written self.old) (written self.new) result bytes.now }
        ensures failed { CountsFailure (failure_count self.old) (failure_count self.new) result };
}

/// Writes all of the bytes, or a beginning of them before a write fails.
pub fn write_all<W: Sink>(sink: &mut W, bytes: &[u8]) -> Result<(), DeviceFailed>
    requires { W.failure_count sink.old < 10 ^ 18 }
    ensures ok { OnOk result (Appends (W.written sink.old) (W.written sink.new) bytes.now) }
    ensures err { OnErr result (AppendsFront (W.written sink.old) (W.written sink.new) bytes.now) }
    ensures failed { CountsFailure (W.failure_count sink.old) (W.failure_count sink.new) result }
{
    let mut at = 0;
    while at < bytes.len() {
        at += sink.write(&bytes[at..])?;
    }
    Ok(())
}
