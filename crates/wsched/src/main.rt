//! The program `wsched`. `wsched run [--workers N] [NAME:WEIGHT:FUEL:FILE]...` reads a script from
//! standard input, decides by its own rules and by the plugins in those files, and writes the
//! answers to standard output; `wsched explain`, by the same words, tells before the answer to each
//! cycle what was decided of each node; `wsched storm [--cycles C] [--binders B] [--flaky]
//! [NAME:WEIGHT:FUEL:FILE]...` has many threads work a script of watch lines off at once, and
//! writes what they come to and an audit of it; `wsched check MODULE` says on standard output
//! whether the module in that file is accepted; `wsched translate [--scheduler NAME] [--labels
//! KEY,..] [--by-uid] [--answers]` reads objects of the Kubernetes API from standard input and
//! writes the lines of a script that they give; `wsched live [--scheduler NAME] [--labels KEY,..]
//! [--workers N] [NAME:WEIGHT:FUEL:FILE]...` reads such objects, and what becomes of binds, and
//! writes where pods go and which binds may be asked for; `wsched version` says which program this
//! is. A fault goes to standard error as one line. It ends with status 0 when all was done or the
//! module is accepted, 1 at a faulty line, a refused module, a failed audit or an object that can't
//! be counted, 2 at bad words, 3 for want of memory or of a place at the desk, and 4 when a file, a
//! read or a write failed.
//!
//! Here are the process's words, streams and files. What is done with them, from the words to the
//! status, are functions over streams and files that are handed in (`program`): a run by `site`, a
//! check by `site_modules`, a storm by `storm_site`, a translation by `translator`, and what `live`
//! answers by `live_site`.
#![tactic(auto)]

mod program;

use command::arguments;
use program::answer;
use site_modules::{Folder, Input, Output};
use std::hash::RandomState;
use std::process::ExitCode;

fn main(rt: HostRuntime) -> ExitCode {
    let mut files = Folder::new(&rt);
    let mut source = Input::new(rt.stdin());
    let mut out = Output::new(rt.stdout());
    let mut err = Output::new(rt.stderr());
    let args = arguments(&rt);
    let keys = RandomState::new(&rt).ok();
    ExitCode::from(answer(
        &rt,
        rt.alloc(),
        args,
        keys,
        &mut files,
        &mut source,
        &mut out,
        &mut err,
    ))
}
