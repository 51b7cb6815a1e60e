//! The texts that answer lines.
ghost use Rattle.std.specs.Prelude.{◌≡◌, ◌++◌, [], IfOk, codes, length, map};
ghost use Rattle.desk.specs.Shown.{shown};
ghost use Rattle.streams.specs.TextBuilder.{Adds};
ghost use Rattle.output_lines.specs.Text.{cycle_line};
ghost use Rattle.live_desk.specs.declared.turn.Turn.TheVariants as turns;
ghost use Rattle.live.specs.Answer.{answer_text, aside_text, dump_text, explained_text, faulty_text, is_told, is_withheld, nothing_text, taken_text, taken_word, tick_text, told_word, turn_text, word};

use choose::Verdict;
use cycle::Cycled;
use desk::{NoMemory, Reply, Row, Snapshot};
use ledger::{Answer, Event};
use live_desk::{Taken, Turn};
use live_line::Field;
use output_lines::{NamedRule, push_cycled, push_judged, push_reply, push_snapshot, push_verdicts};
use quant::{Name, Pod};
use std::alloc::Global;
use streams::TextBuilder;

// Adds the word by which the ledger answers.
#[tactic(auto, unfolding(crate::specs::Answer::word))]
fn push_word(text: &mut TextBuilder, answer: Answer)
    ensures { Adds text.old text.new (word answer) }
{
    match answer {
        Answer::Granted(ticket) => text.put_number(b"granted ", ticket.0),
        Answer::Refused(why) => {
            text.put_number(b"refused ", u64::from(why.number()));
            text.put_two(b" ", why.name().as_bytes());
        }
        Answer::Told => text.put(b"told"),
        Answer::Old => text.put(b"old"),
        Answer::Full => text.put(b"full"),
        Answer::Shut => text.put(b"shut"),
        Answer::NotWaiting => text.put(b"not-waiting"),
        Answer::Read => text.put(b"read"),
    }
}

/// How an answer of the ledger is spelled.
///
/// Errors: `NoMemory`, which may come in place of any answer.
#[tactic(auto, unfolding(crate::specs::Answer::answer_text))]
pub(crate) fn answer_text(alloc: Global, answer: Answer) -> Result<Vec<u8>, NoMemory>
    ensures { IfOk result (λ text. text.items ≡ answer_text answer) }
{
    let mut text = TextBuilder::new(alloc);
    push_word(&mut text, answer);
    text.put(b"\n");
    text.build()
}

/// Whether an event is that a pod isn't to be placed.
pub(crate) fn is_withheld(event: &Event) -> bool
    ensures { result ≡ is_withheld event.now }
{
    matches!(event, Event::Withheld { .. })
}

// Whether the ledger answers that it was told.
fn is_told(answer: Answer) -> bool
    ensures { result ≡ is_told answer }
{
    matches!(answer, Answer::Told)
}

// Adds the word that answers an event.
fn push_told(text: &mut TextBuilder, is_withheld: bool, answer: Answer)
    ensures { Adds text.old text.new (told_word is_withheld answer) }
{
    if is_withheld && is_told(answer) {
        text.put(b"withheld");
    } else {
        push_word(text, answer);
    }
}

/// What is answered to an event, of whose object this isn't told.
///
/// Errors: `NoMemory`, which may come in place of any answer.
pub(crate) fn told_text(
    alloc: Global,
    is_withheld: bool,
    answer: Answer,
    reasons: &[u8],
) -> Result<Vec<u8>, NoMemory>
    ensures { IfOk result (λ text. text.items ≡ told_word is_withheld answer ++ reasons.now ++ codes "\n") }
{
    let mut text = TextBuilder::new(alloc);
    push_told(&mut text, is_withheld, answer);
    text.put_two(reasons, b"\n");
    text.build()
}

/// What is answered to an order with a fault in this field.
///
/// Errors: `NoMemory`, which may come in place of any answer.
#[tactic(auto, unfolding(crate::specs::Answer::faulty_text))]
pub(crate) fn faulty_text(alloc: Global, field: Field) -> Result<Vec<u8>, NoMemory>
    ensures { IfOk result (λ text. text.items ≡ faulty_text field) }
{
    let mut text = TextBuilder::new(alloc);
    text.put_two(b"faulty ", field.key().as_bytes());
    text.put(b"\n");
    text.build()
}

/// What is answered to what tells nothing.
///
/// Errors: `NoMemory`, which may come in place of any answer.
pub(crate) fn nothing_text(alloc: Global, reasons: &[u8]) -> Result<Vec<u8>, NoMemory>
    ensures { IfOk result (λ text. text.items ≡ nothing_text reasons.now) }
{
    let mut text = TextBuilder::new(alloc);
    text.put(b"nothing");
    text.put_two(reasons, b"\n");
    text.build()
}

// Adds the word that answers a pod that waits.
fn push_taken(text: &mut TextBuilder, taken: Taken)
    ensures { Adds text.old text.new (taken_word taken) }
{
    match taken {
        Taken::Answers(answer) => push_word(text, answer),
        Taken::LeftOut => text.put(b"left-out"),
    }
}

/// What is answered of a pod that waits, of whose object this isn't told.
///
/// Errors: `NoMemory`, which may come in place of any answer.
pub(crate) fn taken_text(alloc: Global, taken: Taken, reasons: &[u8]) -> Result<Vec<u8>, NoMemory>
    ensures { IfOk result (λ text. text.items ≡ taken_text taken reasons.now) }
{
    let mut text = TextBuilder::new(alloc);
    push_taken(&mut text, taken);
    text.put_two(reasons, b"\n");
    text.build()
}

/// What is answered of a pod that is put aside.
///
/// Errors: `NoMemory`, which may come in place of any answer.
pub(crate) fn aside_text(alloc: Global, was_there: bool) -> Result<Vec<u8>, NoMemory>
    ensures { IfOk result (λ text. text.items ≡ aside_text was_there) }
{
    let answer = if was_there { Answer::Told } else { Answer::Old };
    answer_text(alloc, answer)
}

/// What is answered to a moment.
///
/// Errors: `NoMemory`, which may come in place of any answer.
pub(crate) fn tick_text(alloc: Global, reply: Reply) -> Result<Vec<u8>, NoMemory>
    ensures { IfOk result (λ text. text.items ≡ tick_text reply) }
{
    match reply {
        Reply::Refused(why) => answer_text(alloc, Answer::Refused(why)),
        Reply::Done | Reply::Idle | Reply::Popped(_) | Reply::Ticket(_) | Reply::Counts(_) => {
            answer_text(alloc, Answer::Told)
        }
    }
}

/// What is answered to a cycle, where the rules have these names in their order.
///
/// Errors: `NoMemory`, which may come in place of any answer.
#[tactic(auto, unfolding(crate::specs::Answer::turn_text))]
pub(crate) fn turn_text(alloc: Global, named: &[NamedRule], turn: Turn) -> Result<Vec<u8>, NoMemory>
    ensures { IfOk result (λ text. text.items ≡ turn_text named.now turn) }
{
    match turn {
        Turn::Shut => answer_text(alloc, Answer::Shut),
        Turn::Granted {
            uid,
            node,
            total,
            ticket,
        } => cycled_text(
            alloc,
            named,
            &Cycled::Assumed {
                uid,
                node,
                total,
                ticket,
            },
        ),
        Turn::Denied { uid, node, answer } => denied_text(alloc, &uid, &node, answer),
        Turn::Without(came) => cycled_text(alloc, named, &came),
    }
}

// The line of a cycle.
fn cycled_text(alloc: Global, named: &[NamedRule], came: &Cycled) -> Result<Vec<u8>, NoMemory>
    ensures { IfOk result (λ text. text.items ≡ cycle_line named.now came.now) }
{
    let mut text = TextBuilder::new(alloc);
    push_cycled(&mut text, named, came);
    text.build()
}

// That the ledger doesn't allow a bind.
#[tactic(auto, unfolding(crate::specs::Answer::turn_text, crate::specs::Answer::answer_text))]
fn denied_text(alloc: Global, uid: &Name, node: &Name, answer: Answer) -> Result<Vec<u8>, NoMemory>
    ensures { IfOk result (λ text. text.items ≡ turn_text [] (turns.Denied uid.now node.now answer)) }
{
    let mut text = TextBuilder::new(alloc);
    text.put_two(b"denied ", uid.as_bytes());
    text.put_two(b" on ", node.as_bytes());
    text.put(b" ");
    push_word(&mut text, answer);
    text.put(b"\n");
    text.build()
}

/// What is told of each node for a pod to place, with these verdicts on the nodes.
///
/// Errors: `NoMemory`, which may come in place of any answer.
pub(crate) fn explained_text(
    alloc: Global,
    named: &[NamedRule],
    pod: &Pod,
    uid: &Name,
    rows: &[Row],
    verdicts: &[Verdict],
) -> Result<Vec<u8>, NoMemory>
    requires { length verdicts.now ≡ length rows.now }
    ensures { IfOk result (λ text. text.items
        ≡ explained_text named.now pod.now uid.now (map shown rows.now) verdicts.now) }
{
    let mut text = TextBuilder::new(alloc);
    push_verdicts(&mut text, named, pod, rows, verdicts);
    push_judged(&mut text, uid, verdicts.len() as u64);
    text.build()
}

/// The nodes that are shown, and the numbers of the desk.
///
/// Errors: `NoMemory`, which may come in place of any answer.
pub(crate) fn dump_text(alloc: Global, nodes: &Snapshot, reply: Reply) -> Result<Vec<u8>, NoMemory>
    ensures { IfOk result (λ text. text.items ≡ dump_text nodes.now reply) }
{
    let mut text = TextBuilder::new(alloc);
    push_snapshot(&mut text, nodes);
    push_reply(&mut text, reply);
    text.build()
}
