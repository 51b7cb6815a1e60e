//! What a run reads and writes: the lines of a source, a sink, and why it ends early.
//!
//! - `Source` and `Sink` are traits after std's `Read` and `Write`; `write_all` writes to a sink
//!   what must be written whole.
//! - A `LineReader` cuts lines off a source, which it reads in pieces of 64 KiB. Of a line no more
//!   is kept than a line may have and one byte, by which it is known to be too long.
//! - A `TextBuilder` is a text that is built piece by piece, and says at the end whether memory was
//!   wanting for one of them.
//! - Each way to end early is a `RunFault`, which has a number and a name.
//! - What the lines of a script ask for, up to the first faulty one, is defined in `specs/Script`:
//!   a run, a storm and a translation take the same lines, each in its own way.
#![tactic(auto)]

mod device;
mod fault;
mod lines;
mod text_builder;

pub use desk::NoMemory;
pub use device::{DeviceFailed, Sink, Source, write_all};
pub use fault::RunFault;
pub use lines::LineReader;
pub use text_builder::TextBuilder;
