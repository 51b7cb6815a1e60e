//! The line by which the program tells a fault.
ghost use Rattle.std.specs.Prelude.{◌≡◌, ◌+◌, ◌^◌, ◌<◌, ◌≤◌, ◌++◌, codes, length, decimal};
ghost use Rattle.fault_line.specs.Fault.{status_of};
ghost use Rattle.fault_line.specs.declared.fault.Fault.TheVariants.{Misused, Uncounted, Unread, UnreadModule};
ghost use Rattle.fault_line.specs.Text.{fault_text};
ghost use Rattle.fault_line.specs.Unread.{file_text, object_or_it};
ghost use Rattle.fault_line.specs.Refusal.{refusal_text};
ghost use Rattle.fault_line.specs.Message.{Tells, line_fault_text, run_text, part_name, count_letter, misuse_text, usage, text_of, message_of};

use crate::fault::Fault;
use crate::refusal::{Refusal, push_refusal};
use crate::unread::{FileFault, LineUncounted, PluginUnread};
use arrayvec::ArrayVec;
use command::{Count, Misuse, Part, WordFault};
use itoa::Buffer;
use manifest::LineFault;
use quant::Name;
use streams::{RunFault, Sink, write_all};

// Room for the longest line: a number has up to 20 digits, a fault's name up to 20 bytes, a field's
// key up to 13, and a plugin's name up to 63. Each `push_..` says how much of the room it wants at
// most.
const MAX_MESSAGE: usize = 500;

// What the program's words may be, a command a line.
const USAGE: &[u8] =
    b"\nusage: wsched run [--workers N] [SPEC]...\n       wsched explain [--workers N] [SPEC]...\n       wsched storm [--cycles C] [--binders B] [--flaky] [SPEC]...\n       wsched check MODULE\n       wsched translate [--scheduler NAME] [--labels KEY,..] [--by-uid] [--answers]\n       wsched live [--scheduler NAME] [--labels KEY,..] [--workers N] [SPEC]...\n       wsched version\na SPEC is NAME:WEIGHT:FUEL:FILE";

// What is to be done about a line that may be a pod on a node that can't be counted.
const COUNT_IT: &[u8] =
    b" may be a pod on a node, and no script line can count it: --answers says why, and kubectl get .. -o json | jq -c '.items[]' gives one object a line";

/// A line that is made without memory, so that want of memory can be told.
pub type Message = ArrayVec<u8, MAX_MESSAGE>;

/// Adds a piece to a message.
pub fn push(message: &mut Message, piece: &[u8])
    requires { length message.old.items + length piece.now ≤ 500 }
    ensures text { message.new.items ≡ message.old.items ++ piece.now }
    ensures len { length message.new.items ≡ length message.old.items + length piece.now }
{
    message.try_extend_from_slice(piece).unwrap();
}

/// Adds a number in decimal.
pub(crate) fn push_number(message: &mut Message, n: u64)
    requires { length message.old.items + 20 ≤ 500 }
    ensures text { message.new.items ≡ message.old.items ++ decimal n }
    ensures len { length message.new.items ≤ length message.old.items + 20 }
{
    let mut buffer = Buffer::new();
    push(message, buffer.format(n).as_bytes());
}

/// Adds a fault's number and its name.
pub(crate) fn push_fault(message: &mut Message, number: u8, name: &str)
    requires { length message.old.items + (length name.now + 21) ≤ 500 }
    ensures text { message.new.items ≡ message.old.items ++ fault_text number name.now }
    ensures len { length message.new.items ≤ length message.old.items + (length name.now + 21) }
{
    push_number(message, u64::from(number));
    push(message, b" ");
    push(message, name.as_bytes());
}

// Adds a line's fault, with the field in which it stands.
#[tactic(auto, using(crate::proofs::Lengths::line_name_short, crate::proofs::Lengths::key_short), unfolding(crate::specs::Message::line_fault_text))]
fn push_line_fault(message: &mut Message, fault: LineFault)
    requires { length message.old.items + 45 ≤ 500 }
    ensures text { message.new.items ≡ message.old.items ++ line_fault_text fault }
    ensures len { length message.new.items ≤ length message.old.items + 45 }
{
    push_fault(message, fault.number(), fault.name());
    if let Some(field) = fault.field() {
        push(message, b" ");
        push(message, field.key().as_bytes());
    }
}

// Adds why a run ended early.
#[tactic(auto, using(crate::proofs::Lengths::run_name_short), unfolding(crate::specs::Message::run_text))]
fn push_run_fault(message: &mut Message, fault: RunFault)
    requires { length message.old.items + 80 ≤ 500 }
    ensures text { message.new.items ≡ message.old.items ++ run_text fault }
    ensures len { length message.new.items ≤ length message.old.items + 80 }
{
    if let RunFault::Line(number, fault) = fault {
        push(message, b"line ");
        push_number(message, number);
        push(message, b": ");
        push_line_fault(message, fault);
    } else {
        push_fault(message, fault.number(), fault.name());
    }
}

// The name of a plugin's part.
fn part_name(part: Part) -> &'static str
    ensures name { result.now ≡ part_name part }
    ensures short { length result.now ≤ 6 }
{
    match part {
        Part::Spec => "SPEC",
        Part::Name => "NAME",
        Part::Weight => "WEIGHT",
        Part::Fuel => "FUEL",
    }
}

// The number that an option asks for, as the usage names it.
fn count_letter(count: Count) -> &'static str
    ensures name { result.now ≡ count_letter count }
    ensures short { length result.now ≤ 6 }
{
    match count {
        Count::Workers => "N",
        Count::Cycles => "C",
        Count::Binders => "B",
    }
}

// Adds what is wrong in the word of this number.
fn push_place(message: &mut Message, what: &str, number: usize)
    requires what { length what.now ≤ 6 }
    requires room { length message.old.items + 40 ≤ 500 }
    ensures text { message.new.items ≡ message.old.items ++
        (codes " " ++ what.now ++ codes " of word " ++ decimal number) }
    ensures len { length message.new.items ≤ length message.old.items + 40 }
{
    push(message, b" ");
    push(message, what.as_bytes());
    push(message, b" of word ");
    push_number(message, number as u64);
}

// Adds what is wrong with words.
#[tactic(auto, unfolding(crate::specs::Message::misuse_text))]
fn push_misuse(message: &mut Message, misuse: Misuse)
    requires { length message.old.items + 40 ≤ 500 }
    ensures text { message.new.items ≡ message.old.items ++ misuse_text misuse }
    ensures len { length message.new.items ≤ length message.old.items + 40 }
{
    match misuse {
        Misuse::Command => push(message, b" COMMAND"),
        Misuse::Number(count, number) => push_place(message, count_letter(count), number),
        Misuse::Plugin(part, number) => push_place(message, part_name(part), number),
        Misuse::Scheduler(number) => push_place(message, "NAME", number),
        Misuse::Unknown(number) => push_place(message, "OPTION", number),
        Misuse::Together => {}
    }
}

// Adds that words ask for nothing, what is wrong with them, and what they may be.
fn push_words_fault(message: &mut Message, misuse: Misuse)
    requires { length message.old.items + 471 ≤ 500 }
    ensures text { message.new.items ≡ message.old.items ++ text_of (Misused misuse) }
    ensures len { length message.new.items ≤ length message.old.items + 471 }
{
    let fault = WordFault::BadWords;
    push_fault(message, fault.number(), fault.name());
    push_misuse(message, misuse);
    push(message, USAGE);
}

// Adds which plugin is refused, and why.
fn push_plugin_fault(message: &mut Message, name: &Name, refusal: Refusal)
    requires { length message.old.items + 200 ≤ 500 }
    ensures text { message.new.items ≡ message.old.items ++
        (codes "plugin " ++ name.now ++ codes ": " ++ refusal_text refusal) }
    ensures len { length message.new.items ≤ length message.old.items + 200 }
{
    push(message, b"plugin ");
    push(message, name.as_bytes());
    push(message, b": ");
    push_refusal(message, refusal);
}

// Adds that a read failed.
#[tactic(auto, using(crate::proofs::Lengths::run_name_short))]
fn push_read(message: &mut Message)
    requires { length message.old.items + 31 ≤ 500 }
    ensures text { message.new.items ≡ message.old.items ++ fault_text 3 (codes "Read") }
    ensures len { length message.new.items ≤ length message.old.items + 31 }
{
    let fault = RunFault::Read;
    push_fault(message, fault.number(), fault.name());
}

// Adds which file couldn't be read, and why.
#[tactic(auto, unfolding(crate::specs::Unread::file_text))]
fn push_file(message: &mut Message, fault: &FileFault)
    requires { length message.old.items + 214 ≤ 500 }
    ensures text { message.new.items ≡ message.old.items ++ file_text fault.now }
    ensures len { length message.new.items ≤ length message.old.items + 214 }
{
    push(message, b"; ");
    push(message, fault.file.as_slice());
    push(message, b": ");
    push(message, fault.cause.words().as_bytes());
}

// Adds which module's file couldn't be read, and why.
fn push_unread_module(message: &mut Message, fault: &FileFault)
    requires { length message.old.items + 245 ≤ 500 }
    ensures text { message.new.items ≡ message.old.items ++ text_of (UnreadModule fault.now) }
    ensures len { length message.new.items ≤ length message.old.items + 245 }
{
    push_read(message);
    push_file(message, fault);
}

// Adds which plugin's file couldn't be read, and why.
fn push_unread(message: &mut Message, unread: &PluginUnread)
    requires { length message.old.items + 317 ≤ 500 }
    ensures text { message.new.items ≡ message.old.items ++ text_of (Unread unread.now) }
    ensures len { length message.new.items ≤ length message.old.items + 317 }
{
    push(message, b"plugin ");
    push(message, unread.plugin.as_bytes());
    push(message, b": ");
    push_read(message);
    push_file(message, &unread.fault);
}

// What can't be counted, as people know it.
fn object_or_it(object: &[u8]) -> &[u8]
    requires { length object.now ≤ 160 }
    ensures text { result.now ≡ object_or_it object.now }
    ensures short { length result.now ≤ 160 }
{
    if object.is_empty() { b"it" } else { object }
}

// Adds which line can't be counted, and what is to be done.
fn push_uncounted(message: &mut Message, line: &LineUncounted)
    requires { length message.old.items + 390 ≤ 500 }
    ensures text { message.new.items ≡ message.old.items ++ text_of (Uncounted line.now) }
    ensures len { length message.new.items ≤ length message.old.items + 390 }
{
    push(message, b"line ");
    push_number(message, line.number);
    push(message, b": 6 Uncounted; ");
    push(message, object_or_it(line.object.as_slice()));
    push(message, COUNT_IT);
}

// The line that tells a fault.
#[tactic(auto, using(crate::proofs::Lengths::word_name_short), unfolding(crate::specs::Message::message_of))]
fn fault_message(fault: &Fault) -> Message
    ensures { result.items ≡ message_of fault.now }
{
    let mut message = Message::new();
    push(&mut message, b"wsched: ");
    match fault {
        Fault::Words(fault) => push_fault(&mut message, fault.number(), fault.name()),
        Fault::Misused(misuse) => push_words_fault(&mut message, *misuse),
        Fault::Plugin(name, refusal) => push_plugin_fault(&mut message, name, *refusal),
        Fault::Unread(unread) => push_unread(&mut message, unread),
        Fault::UnreadModule(fault) => push_unread_module(&mut message, fault),
        Fault::Run(fault) => push_run_fault(&mut message, *fault),
        Fault::Uncounted(line) => push_uncounted(&mut message, line),
    }
    push(&mut message, b"\n");
    message
}

/// Tells a fault as one line, and gives the exit status that goes with it. Where a write fails, a
/// beginning of the line is told; that changes no status.
pub fn report<E: Sink>(fault: Fault, err: &mut E) -> u8
    requires { E.failure_count err.old < 10 ^ 18 }
    ensures status { result ≡ status_of fault }
    ensures told { Tells (E.written err.old) (E.written err.new) (E.failure_count err.old)
        (E.failure_count err.new) (message_of fault) }
{
    let _ = write_all(err, fault_message(&fault).as_slice());
    fault.status()
}
