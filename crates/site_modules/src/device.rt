//! What a script is read from and the output is written to, over std's readers and writers.
ghost use Rattle.std.specs.Prelude.{◌≡◌, ◌+◌, ◌^◌, ◌<◌, length, IfOk};
ghost use Rattle.std.specs.Io.{ReadsAtMost, WritesAtMost};
ghost use Rattle.std.specs.Io.KnownBytes.{ReadConsumes, WriteAppends};

use std::io::{ErrorKind, Read, Write};
use streams::{DeviceFailed, Sink, Source};

/// The most bytes that are read of one input. No clause says where standard input ends, and a run
/// needs an end.
pub(crate) const MAX_INPUT: u64 = 1 << 63;

/// A script that a reader gives. A read that is interrupted is tried again. Past the most bytes
/// that are read a read fails, since it would else look like the end.
#[derive(Drop)]
pub struct Input<R> {
    reader: R,
    left: u64,
    failures: u64,
}

impl<R> Input<R> {
    /// All that the reader gives from here on.
    pub fn new(reader: R) -> Input<R>
        ensures { result ≡ record { reader = reader; left = 2 ^ 63; failures = 0 } }
    {
        Input {
            reader,
            left: MAX_INPUT,
            failures: 0,
        }
    }
}

impl<R: Read> Source for Input<R> {
    ghost remaining = { λ s. R.remaining s.reader };

    ghost bytes_left = { λ s. s.left };

    ghost failure_count = { λ s. s.failures };

    fn failures(&self) -> u64 {
        self.failures
    }

    fn read(&mut self, buffer: &mut [u8]) -> Result<usize, DeviceFailed> {
        if let Ok(n) = read_bounded(&mut self.reader, &mut self.left, buffer) {
            return Ok(n);
        }
        self.failures += 1;
        Err(DeviceFailed)
    }
}

/// Output that a writer takes. It is never flushed, so the writer must hold nothing back. A write
/// that is interrupted is tried again, and one that takes nothing has failed.
#[derive(Drop)]
pub struct Output<W> {
    writer: W,
    failures: u64,
}

impl<W> Output<W> {
    /// The writer, of which no write has failed.
    pub fn new(writer: W) -> Output<W>
        ensures { result ≡ record { writer = writer; failures = 0 } }
    {
        Output {
            writer,
            failures: 0,
        }
    }

    /// The writer, as the last write left it.
    pub fn into_inner(self) -> W
        ensures { result ≡ self.writer }
    {
        let Output {
            writer,
            failures: _,
        } = self;
        writer
    }
}

impl<W: Write> Sink for Output<W> {
    ghost written = { λ s. W.contents s.writer };

    ghost failure_count = { λ s. s.failures };

    fn failures(&self) -> u64 {
        self.failures
    }

    fn write(&mut self, bytes: &[u8]) -> Result<usize, DeviceFailed> {
        if let Ok(n) = write_some(&mut self.writer, bytes)
            && (n > 0 || bytes.is_empty())
        {
            return Ok(n);
        }
        self.failures += 1;
        Err(DeviceFailed)
    }
}

/// Reads some bytes, of which so many may yet be read, and else fails.
pub(crate) fn read_bounded<R: Read>(
    reader: &mut R,
    left: &mut u64,
    buffer: &mut [u8],
) -> Result<usize, DeviceFailed>
    ensures bound { ReadsAtMost result buffer.new }
    ensures bytes { ReadConsumes (R.remaining reader.old) (R.remaining reader.new) result buffer.new }
    ensures less { IfOk result (λ n. left.new + n ≡ left.old) }
{
    let room = (*left).min(buffer.len() as u64) as usize;
    if room > 0 {
        let n = read_some(reader, &mut buffer[..room])?;
        *left -= n as u64;
        return Ok(n);
    }
    Err(DeviceFailed)
}

// Reads some bytes, as often as the read is interrupted.
fn read_some<R: Read>(reader: &mut R, buffer: &mut [u8]) -> Result<usize, DeviceFailed>
    ensures bound { ReadsAtMost result buffer.new }
    ensures bytes { ReadConsumes (R.remaining reader.old) (R.remaining reader.new) result buffer.new }
{
    for _ in 0..u64::MAX {
        match reader.read(buffer) {
            Ok(n) => return Ok(n),
            Err(error) if error.kind() == ErrorKind::Interrupted => {}
            Err(_) => break,
        }
    }
    Err(DeviceFailed)
}

// Writes some bytes, as often as the write is interrupted.
fn write_some<W: Write>(writer: &mut W, bytes: &[u8]) -> Result<usize, DeviceFailed>
    ensures bound { WritesAtMost result bytes.now }
    ensures bytes { WriteAppends (W.contents writer.old) (W.contents writer.new) result bytes.now }
{
    for _ in 0..u64::MAX {
        match writer.write(bytes) {
            Ok(n) => return Ok(n),
            Err(error) if error.kind() == ErrorKind::Interrupted => {}
            Err(_) => break,
        }
    }
    Err(DeviceFailed)
}
