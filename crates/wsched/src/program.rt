//! What the program does, from its words to its exit status.
ghost use Rattle.std.specs.Prelude.{◌≡◌, ◌^◌, ◌<◌, ℕ, List, None, Ok, map};
ghost use Rattle.streams.specs.Device.{use_of};
ghost use Rattle.site_modules.specs.Files.{files_of};
ghost use Rattle.wsched.specs.Answer.{IsAnswer};

use command::{WordFault, Words, misuse_of, words};
use fault_line::{Fault, report};
use live_site::live_plan;
use site::serve_plan;
use site_modules::{Files, check_file, tell_version};
use std::alloc::Global;
use std::convert::AsStr;
use std::hash::RandomState;
use std::sync::Wait;
use std::thread::Threads;
use storm_site::storm_plan;
use streams::{Sink, Source};
use translator::serve_translation;

/// Does what the words that follow the program's name ask for, and gives the exit status. Words
/// that could not be read, or that ask for nothing, are told on `err`, and nothing is read or
/// written. For `run` and `explain` it is what `serve_plan` does under the keys, for `storm` what
/// `storm_plan` does, for `check` what `check_file` does, for `translate` what `serve_translation`
/// does, for `live` what `live_plan` does, and for `version` what `tell_version` does.
pub fn answer<
    T: Wait + Threads + Copy + Send + Sync + 'static,
    S: AsStr + Drop,
    F: Files,
    R: Source,
    W: Sink,
    E: Sink,
>(
    rt: &T,
    alloc: Global,
    args: Result<Vec<S>, WordFault>,
    keys: Option<RandomState>,
    files: &mut F,
    source: &mut R,
    out: &mut W,
    err: &mut E,
) -> u8
    requires opens { F.failure_count files.old < 10 ^ 18 }
    requires reads { R.failure_count source.old < 10 ^ 18 }
    requires writes { W.failure_count out.old < 10 ^ 18 }
    requires tells { E.failure_count err.old < 10 ^ 18 }
    requires finite { R.bytes_left source.old < 2 ^ 64 }
    ensures { IsAnswer (λ given. map S.text given.items) args (keys ≡ None)
        (files_of F.contents F.failure_count files.old files.new)
        (use_of R.remaining R.failure_count source.old source.new) (use_of W.written W.failure_count out.old out.new)
        (use_of E.written E.failure_count err.old err.new) result }
{
    match args {
        Ok(args) => answer_words(rt, alloc, args.as_slice(), keys, files, source, out, err),
        Err(unread) => report(Fault::Words(unread), err),
    }
}

// Does what these words ask for.
fn answer_words<
    T: Wait + Threads + Copy + Send + Sync + 'static,
    S: AsStr,
    F: Files,
    R: Source,
    W: Sink,
    E: Sink,
>(
    rt: &T,
    alloc: Global,
    args: &[S],
    keys: Option<RandomState>,
    files: &mut F,
    source: &mut R,
    out: &mut W,
    err: &mut E,
) -> u8
    requires opens { F.failure_count files.old < 10 ^ 18 }
    requires reads { R.failure_count source.old < 10 ^ 18 }
    requires writes { W.failure_count out.old < 10 ^ 18 }
    requires tells { E.failure_count err.old < 10 ^ 18 }
    requires finite { R.bytes_left source.old < 2 ^ 64 }
    ensures { IsAnswer (λ (given : List (List ℕ)). given) (Ok (map S.text args.now)) (keys ≡ None)
        (files_of F.contents F.failure_count files.old files.new)
        (use_of R.remaining R.failure_count source.old source.new) (use_of W.written W.failure_count out.old out.new)
        (use_of E.written E.failure_count err.old err.new) result }
{
    match words(alloc, args) {
        Ok(Words::Run(plan)) => {
            serve_plan(rt, alloc, keys, &plan, false, files, source, out, err)
        }
        Ok(Words::Explain(plan)) => {
            serve_plan(rt, alloc, keys, &plan, true, files, source, out, err)
        }
        Ok(Words::Storm(plan)) => storm_plan(rt, alloc, keys, &plan, files, source, out, err),
        Ok(Words::Check(file)) => check_file(alloc, file, files, out, err),
        Ok(Words::Translate(plan)) => serve_translation(alloc, &plan, source, out, err),
        Ok(Words::Live(plan)) => live_plan(rt, alloc, keys, &plan, files, source, out, err),
        Ok(Words::Version) => tell_version(out, err),
        Err(WordFault::BadWords) => report(Fault::Misused(misuse_of(args)), err),
        Err(WordFault::NoMemory) => report(Fault::Words(WordFault::NoMemory), err),
    }
}
