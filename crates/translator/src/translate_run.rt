//! A translation of objects of the Kubernetes API to the lines of a script, one for each.
ghost use Rattle.std.specs.Prelude.{◌≡◌, ◌^◌, ◌<◌, ◌≤◌, ◌++◌, ◌&&◌, not, None, IfOk, IfErr, OnOk, OnErr};
ghost use Rattle.streams.specs.Device.{use_of};
ghost use Rattle.objects.specs.Told.{Told};
ghost use Rattle.objects.specs.Translation.{IsTranslation};
ghost use Rattle.translator.specs.Translate.{IsTranslated, answer_text, left_out_text, manner_of, next_version, told_under};
ghost use Rattle.translator.specs.inside.Translate.{IsLineAnswered, IsLineEnd, IsStopped, TranslatesTo};

use crate::answer_text::{answer_text, left_out_text};
use crate::waiting::{Stopped, Waiting};
use command::TranslatePlan;
use fault_line::{Fault, LineUncounted, excerpt_of, report};
use objects::{MAX_OBJECT, Site, Translation, object_name, translate};
use quant::{MAX_VERSION, Version};
use std::alloc::Global;
use streams::{LineReader, NoMemory, RunFault, Sink, Source};

// The most bytes of a line that are kept: one more than an object may have, by which it is known to
// be too long.
const MAX_KEPT: usize = MAX_OBJECT + 1;

/// Reads objects from `source`, one a line, writes what each gives a script to `out`, also one a
/// line, and gives the exit status. What is left out of an object goes to `err`, unless the answers
/// say it. So does a fault, as one line, and a failed write of that line changes nothing. A line
/// that may be a pod on a node which no line of a script can count ends the translation, unless the
/// answers say that. What is told of an object names it, where it has a name.
pub fn serve_translation<R: Source, W: Sink, E: Sink>(
    alloc: Global,
    plan: &TranslatePlan<'_>,
    source: &mut R,
    out: &mut W,
    err: &mut E,
) -> u8
    requires reads { R.failure_count source.old < 10 ^ 18 }
    requires writes { W.failure_count out.old < 10 ^ 18 }
    requires tells { E.failure_count err.old < 10 ^ 18 }
    requires finite { R.bytes_left source.old < 2 ^ 64 }
    ensures { IsTranslated (manner_of plan.now) (use_of R.remaining R.failure_count source.old source.new)
        (use_of W.written W.failure_count out.old out.new) (use_of E.written E.failure_count err.old err.new) result }
{
    match translate_lines(alloc, plan, source, out, err) {
        Ok(()) => 0,
        Err(Stopped::By(fault)) => report(fault, err),
        Err(Stopped::Untold) => Fault::Run(RunFault::Write).status(),
    }
}

// Answers the lines of a source, up to one that can't be counted.
fn translate_lines<R: Source, W: Sink, E: Sink>(
    alloc: Global,
    plan: &TranslatePlan<'_>,
    source: &mut R,
    out: &mut W,
    err: &mut E,
) -> Result<(), Stopped>
    requires reads { R.failure_count source.old < 10 ^ 18 }
    requires writes { W.failure_count out.old < 10 ^ 18 }
    requires tells { E.failure_count err.old < 10 ^ 18 }
    requires finite { R.bytes_left source.old < 2 ^ 64 }
    ensures { IsStopped (manner_of plan.now) (use_of R.remaining R.failure_count source.old source.new)
        (use_of W.written W.failure_count out.old out.new) (use_of E.written E.failure_count err.old err.new) result }
{
    let Ok(mut reader) = LineReader::new(alloc) else {
        return Err(Stopped::By(Fault::Run(RunFault::NoMemory)));
    };
    let Ok(mut line) = Vec::with_capacity(alloc, MAX_KEPT) else {
        return Err(Stopped::By(Fault::Run(RunFault::NoMemory)));
    };
    let mut waits = Waiting::new(alloc);
    let mut number = 0u64;
    let mut version = 1u64;
    'lines: loop {
        waits.flush_if(!reader.has_line(), out, err)?;
        match reader.next_front(MAX_KEPT, source, &mut line, &waits.answers) {
            Ok(true) => {}
            Ok(false) => return waits.flush(out, err),
            Err(fault) => return Err(Stopped::By(Fault::Run(fault))),
        }
        number += 1;
        if let Err(fault) = answer_line(alloc, plan, &line, number, &mut version, &mut waits) {
            return match waits.flush(out, err) {
                Ok(()) => Err(Stopped::By(fault)),
                Err(stopped) => Err(stopped),
            };
        }
    }
}

// Answers a line: its answer, and what is told beside it, wait then, and the next version is one
// more where the line gives an event.
fn answer_line(
    alloc: Global,
    plan: &TranslatePlan<'_>,
    line: &[u8],
    number: u64,
    version: &mut u64,
    waits: &mut Waiting,
) -> Result<(), Fault>
    requires { 1 ≤ version.old }
    ensures answered { OnOk result (IsLineAnswered (manner_of plan.now) number version.old line.now version.new
        waits.old waits.new) }
    ensures kept { OnErr result ((waits.new.answers.items ≡ waits.old.answers.items)
        × (waits.new.left_out.items ≡ waits.old.left_out.items)) }
    ensures next { version.old ≤ version.new }
    ensures ends { IfErr result (IsLineEnd number line.now (told_under (manner_of plan.now) version.old line.now)) }
{
    let translation = translation_under(alloc, plan, line, number, *version)?;
    match wait_for(alloc, plan.answers, number, line, &translation, waits) {
        Ok(()) => {
            *version = version_behind(*version, &translation);
            Ok(())
        }
        Err(_) => Err(Fault::Run(RunFault::NoMemory)),
    }
}

// What a line gives under the next version.
#[tactic(auto, using(crate::proofs::Given::given))]
fn translation_under(
    alloc: Global,
    plan: &TranslatePlan<'_>,
    line: &[u8],
    number: u64,
    version: u64,
) -> Result<Translation, Fault>
    requires { 1 ≤ version }
    ensures given { IfOk result (TranslatesTo (told_under (manner_of plan.now) version line.now)) }
    ensures within { IfOk result (λ _. version ≤ MAX_VERSION) }
    ensures ends { IfErr result (IsLineEnd number line.now (told_under (manner_of plan.now) version line.now)) }
{
    if version > MAX_VERSION {
        return Err(uncounted(alloc, line, number));
    }
    let site = Site {
        scheduler: plan.scheduler,
        labels: plan.labels,
        beside: None,
    };
    let Ok(translation) = translate(alloc, line, &site, plan.by_uid, Version(version)) else {
        return Err(Fault::Run(RunFault::NoMemory));
    };
    if is_unanswered(plan.answers, &translation) {
        return Err(uncounted(alloc, line, number));
    }
    Ok(translation)
}

// That a line can't be counted, with its object's name, if there is memory to find it.
fn uncounted(alloc: Global, line: &[u8], number: u64) -> Fault
    ensures { IsLineEnd number line.now None result }
{
    match object_name(alloc, line) {
        Ok(object) => Fault::Uncounted(LineUncounted {
            number,
            object: excerpt_of(&object),
        }),
        Err(_) => Fault::Run(RunFault::NoMemory),
    }
}

// Whether a line may be a pod on a node that can't be counted, and no answer says so.
fn is_unanswered(answers: bool, translation: &Translation) -> bool
    ensures { result ≡ (translation.now.uncounted && not answers) }
{
    translation.uncounted && !answers
}

// Adds the answer to a line to what waits, and what is told beside it.
fn wait_for(
    alloc: Global,
    answers: bool,
    number: u64,
    line: &[u8],
    translation: &Translation,
    waits: &mut Waiting,
) -> Result<(), NoMemory>
    ensures answers { OnOk result (waits.new.answers.items
        ≡ waits.old.answers.items ++ answer_text answers translation.now) }
    ensures left_out { OnOk result (waits.new.left_out.items
        ≡ waits.old.left_out.items ++ left_out_text answers number line.now translation.now) }
    ensures kept { OnErr result ((waits.new.answers.items ≡ waits.old.answers.items)
        × (waits.new.left_out.items ≡ waits.old.left_out.items)) }
{
    let Ok(answer) = answer_text(alloc, answers, translation) else {
        return Err(NoMemory);
    };
    let Ok(left_out) = left_out_text(alloc, answers, number, line, translation) else {
        return Err(NoMemory);
    };
    waits.add(&answer, &left_out)
}

// The next version behind a translation: one more where it gives an event, which has a line then.
fn version_behind(version: u64, translation: &Translation) -> u64
    requires { version ≤ MAX_VERSION }
    ensures next { (told : Told) → IsTranslation told translation.now → result ≡ next_version version told.event }
    ensures least { version ≤ result }
{
    if translation.line.is_empty() {
        version
    } else {
        version + 1
    }
}
