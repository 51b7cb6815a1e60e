//! The texts that answer a line of a translation.
ghost use Rattle.std.specs.Prelude.{◌≡◌, ◌++◌, IfOk};
ghost use Rattle.streams.specs.TextBuilder.{Adds};
ghost use Rattle.translator.specs.Translate.{answer_object, answer_text, left_out_text, left_out_words, in_parentheses, line_or_null};

use objects::{Translation, object_name};
use std::alloc::Global;
use streams::{NoMemory, TextBuilder};

// The line of a script, or `null` where there is none, in an object of JSON.
fn line_or_null(line: &[u8]) -> &[u8]
    ensures { result.now ≡ line_or_null line.now }
{
    if line.is_empty() { b"null" } else { line }
}

// What is said of a line that gives a script's line, and of one that gives none.
fn left_out_words(line: &[u8]) -> &'static [u8]
    ensures { result.now ≡ left_out_words line.now }
{
    if line.is_empty() {
        b" is left out: "
    } else {
        b": left out: "
    }
}

// The answer to a line: the script's line, or an object with it and with what is left out.
#[tactic(auto, unfolding(crate::specs::Translate::answer_text))]
pub(crate) fn answer_text(
    alloc: Global,
    answers: bool,
    translation: &Translation,
) -> Result<Vec<u8>, NoMemory>
    ensures { IfOk result (λ text. text.items ≡ answer_text answers translation.now) }
{
    if answers {
        return answer_object(alloc, translation);
    }
    let mut text = TextBuilder::new(alloc);
    text.put_two(&translation.line, b"\n");
    text.build()
}

// The object that answers a line. Where the line may be a pod on a node that can't be counted,
// nobody can take it for nothing.
fn answer_object(alloc: Global, translation: &Translation) -> Result<Vec<u8>, NoMemory>
    ensures { IfOk result (λ text. text.items ≡ answer_object translation.now.uncounted translation.now.line.items
        translation.now.left_out.items) }
{
    let mut text = TextBuilder::new(alloc);
    if translation.uncounted {
        text.put(b"{\"uncounted\": [");
    } else {
        text.put_two(b"{\"line\": ", line_or_null(&translation.line));
        text.put(b", \"left_out\": [");
    }
    text.put_two(&translation.left_out, b"]}\n");
    text.build()
}

// Puts a line's object, as people know it, where it has a name.
fn put_object(text: &mut TextBuilder, object: &[u8])
    ensures { Adds text.old text.new (in_parentheses object.now) }
{
    if !object.is_empty() {
        text.put_two(b" (", object);
        text.put(b")");
    }
}

// What is told beside the answer to the line of this number: what is left out of its object, where
// no answer says it.
#[tactic(auto, unfolding(crate::specs::Translate::left_out_text))]
pub(crate) fn left_out_text(
    alloc: Global,
    answers: bool,
    number: u64,
    line: &[u8],
    translation: &Translation,
) -> Result<Vec<u8>, NoMemory>
    ensures { IfOk result (λ text. text.items ≡ left_out_text answers number line.now translation.now) }
{
    if answers || translation.left_out.is_empty() {
        return Ok(Vec::new(alloc));
    }
    let Ok(object) = object_name(alloc, line) else {
        return Err(NoMemory);
    };
    let mut text = TextBuilder::new(alloc);
    text.put_number(b"line ", number);
    put_object(&mut text, &object);
    text.put_two(left_out_words(&translation.line), &translation.left_out);
    text.put(b"\n");
    text.build()
}
