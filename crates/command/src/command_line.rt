//! What the program's words ask for.
ghost use Rattle.std.specs.Prelude.{◌≡◌, ◌≤◌, Some, None, Err, true, false, map, option_map, IfErr, IfOk};
ghost use Rattle.clap.specs.Words.{app_of, found_of, rows_of, rule_of, subcommand_of, subcommand_rows_of};
ghost use Rattle.command.specs.Count.{most_of};
ghost use Rattle.command.specs.Words.{are_taken, asked_of, command_line, found, is_told, labels_found, meaning, number_found, plan_found, program, scheduler_found, specs_found, storm_found, storm_planned, syntax_of, translate_found, translate_planned, live_found, live_planned};
ghost use Rattle.command.specs.inside.Built.{command_by, long_rule, rule_and_reach, rule_by, shape_and_reach};
ghost use Rattle.command.specs.inside.Words.{Means, found_behind, named, planned};
ghost use Rattle.command.specs.Within.{AreWithinLimits, IsPlan, IsStormPlan, IsWithin};

use crate::asked::{LivePlan, Plan, Spec, StormPlan, TranslatePlan, Words};
use crate::count::{Count, number_for};
use crate::fault::WordFault;
use crate::plugin_words::specs_of;
use clap::error::ErrorKind;
use clap::{Arg, ArgAction, ArgMatches, Command};
use std::alloc::{AllocError, Global};
use std::convert::AsStr;
use std::rt::Env;
use std::{env, io};

// What stands behind a command's name.
#[derive(Clone, Copy)]
enum Takes {
    // An option of this name, with one value.
    Option(&'static str),
    // An option of this name, with no value.
    Flag(&'static str),
    // Any number of plugins.
    Plugins,
    // One module's file.
    Module,
}

// A command's name, and what stands behind it.
struct CommandRow {
    name: &'static str,
    takes: &'static [Takes],
}

// The program's commands.
const COMMANDS: &[CommandRow] = &[
    CommandRow {
        name: "run",
        takes: &[Takes::Option("workers"), Takes::Plugins],
    },
    CommandRow {
        name: "explain",
        takes: &[Takes::Option("workers"), Takes::Plugins],
    },
    CommandRow {
        name: "storm",
        takes: &[
            Takes::Option("cycles"),
            Takes::Option("binders"),
            Takes::Flag("flaky"),
            Takes::Plugins,
        ],
    },
    CommandRow {
        name: "check",
        takes: &[Takes::Module],
    },
    CommandRow {
        name: "translate",
        takes: &[
            Takes::Option("scheduler"),
            Takes::Option("labels"),
            Takes::Flag("by-uid"),
            Takes::Flag("answers"),
        ],
    },
    CommandRow {
        name: "live",
        takes: &[
            Takes::Option("scheduler"),
            Takes::Option("labels"),
            Takes::Option("workers"),
            Takes::Plugins,
        ],
    },
    CommandRow {
        name: "version",
        takes: &[],
    },
];

// An option, which has a value or none.
fn option<'a>(alloc: Global, name: &'a str, action: ArgAction) -> Arg<'a>
    ensures rule { rule_of result ≡ long_rule name.entry.now action }
    ensures local { result.global ≡ false }
{
    Arg::new(alloc, name).long(name).action(action)
}

// What `clap` is told of one thing that stands behind a command's name.
fn argument<'a>(alloc: Global, takes: Takes) -> Arg<'a>
    ensures { rule_and_reach result ≡ (rule_by takes, false) }
{
    match takes {
        Takes::Option(name) => option(alloc, name, ArgAction::Set),
        Takes::Flag(name) => option(alloc, name, ArgAction::SetTrue),
        Takes::Plugins => Arg::new(alloc, "SPEC").action(ArgAction::Append),
        Takes::Module => Arg::new(alloc, "MODULE").required(true),
    }
}

// What `clap` is told of all that stands behind a command's name.
fn arguments_of<'a>(alloc: Global, takes: &[Takes]) -> Result<Vec<Arg<'a>>, AllocError>
    ensures { IfOk result (λ made. map rule_and_reach made.items
        ≡ map (λ one. (rule_by one, false)) takes.now) }
{
    let Ok(mut made) = Vec::with_capacity(alloc, takes.len()) else {
        return Err(AllocError);
    };
    for one in takes {
        made.push_reserved(argument(alloc, *one));
    }
    Ok(made)
}

// A command. It is large, and what a function holds of one is proved anew at each of its steps: so
// all arguments are handed to it at once, and all commands to the program.
fn command_of<'a>(alloc: Global, row: &CommandRow) -> Result<Command<'a>, AllocError>
    ensures { IfOk result (λ command. shape_and_reach command ≡ ((command_by row.now).top, false)) }
{
    let Ok(arguments) = arguments_of(alloc, row.takes) else {
        return Err(AllocError);
    };
    Command::new(alloc, row.name).args(arguments)
}

// Several commands.
fn commands_of<'a>(alloc: Global, rows: &[CommandRow]) -> Result<Vec<Command<'a>>, AllocError>
    ensures { IfOk result (λ made. map shape_and_reach made.items
        ≡ map (λ row. ((command_by row).top, false)) rows.now) }
{
    let Ok(mut made) = Vec::with_capacity(alloc, rows.len()) else {
        return Err(AllocError);
    };
    for row in rows {
        let Ok(command) = command_of(alloc, row) else {
            return Err(AllocError);
        };
        made.push_reserved(command);
    }
    Ok(made)
}

// The program, of which one of its commands is wanted.
fn program<'a>(alloc: Global) -> Command<'a>
    ensures { app_of result ≡ program }
{
    Command::new(alloc, "wsched")
        .no_binary_name(true)
        .disable_help_flag(true)
        .disable_help_subcommand(true)
        .subcommand_required(true)
}

// The program's command line, as `clap` reads it.
fn command_line<'a>(alloc: Global) -> Result<Command<'a>, AllocError>
    ensures { IfOk result (λ command. app_of command ≡ command_line) }
{
    let Ok(commands) = commands_of(alloc, COMMANDS) else {
        return Err(AllocError);
    };
    program(alloc).subcommands(commands)
}

// The plugins that were found behind a command.
fn specs_behind<'a>(alloc: Global, matches: &ArgMatches<'a>) -> Result<Vec<Spec<'a>>, WordFault>
    ensures ok { IfOk result (λ specs. specs_found (rows_of (found_of matches.now))
        ≡ Some (map syntax_of specs.items)) }
    ensures refused { result ≡ Err WordFault.BadWords → specs_found (rows_of (found_of matches.now)) ≡ None }
    ensures within { IfOk result (λ specs. AreWithinLimits specs.items) }
{
    let words = matches.get_raw("SPEC").unwrap_or([].as_slice());
    specs_of(alloc, words)
}

// The number that an option behind a command asks for.
//
// Errors: `BadWords` where its word spells none.
fn number_behind(matches: &ArgMatches<'_>, count: Count) -> Result<usize, WordFault>
    ensures ok { IfOk result (λ number. number_found count (rows_of (found_of matches.now)) ≡ Some number) }
    ensures refused { IfErr result (λ _. number_found count (rows_of (found_of matches.now)) ≡ None) }
    ensures least { IfOk result (λ number. 1 ≤ number) }
    ensures most { IfOk result (λ number. number ≤ most_of count) }
{
    match number_for(count, matches.get_str(count.name())) {
        Some(number) => Ok(number),
        None => Err(WordFault::BadWords),
    }
}

// Whether a flag is told, for which `clap` keeps `true` or `false`.
fn is_told(word: Option<&str>) -> bool
    ensures { result ≡ is_told (option_map (λ s. s.now) word.entry) }
{
    match word {
        Some(text) => text == "true",
        None => false,
    }
}

// The run that was found behind a command.
fn plan_of<'a>(alloc: Global, matches: &ArgMatches<'a>) -> Result<Plan<'a>, WordFault>
    ensures ok { IfOk result (λ plan. plan_found (rows_of (found_of matches.now)) ≡ Some (planned plan)) }
    ensures refused { result ≡ Err WordFault.BadWords → plan_found (rows_of (found_of matches.now)) ≡ None }
    ensures within { IfOk result IsPlan }
{
    let Ok(workers) = number_behind(matches, Count::Workers) else {
        return Err(WordFault::BadWords);
    };
    match specs_behind(alloc, matches) {
        Ok(specs) => Ok(Plan { workers, specs }),
        Err(fault) => Err(fault),
    }
}

// The storm that was found behind a command.
fn storm_of<'a>(alloc: Global, matches: &ArgMatches<'a>) -> Result<StormPlan<'a>, WordFault>
    ensures ok { IfOk result (λ plan. storm_found (rows_of (found_of matches.now)) ≡ Some (storm_planned plan)) }
    ensures refused { result ≡ Err WordFault.BadWords → storm_found (rows_of (found_of matches.now)) ≡ None }
    ensures within { IfOk result IsStormPlan }
{
    let Ok(cycles) = number_behind(matches, Count::Cycles) else {
        return Err(WordFault::BadWords);
    };
    let Ok(binders) = number_behind(matches, Count::Binders) else {
        return Err(WordFault::BadWords);
    };
    let is_flaky = is_told(matches.get_str("flaky"));
    match specs_behind(alloc, matches) {
        Ok(specs) => Ok(StormPlan {
            cycles,
            binders,
            is_flaky,
            specs,
        }),
        Err(fault) => Err(fault),
    }
}

// The scheduler whose pods a translation tells, or that wait: the default one where none is named (Kubernetes,
// "Configure Multiple Schedulers").
fn scheduler_behind<'a>(matches: &ArgMatches<'a>) -> &'a str
    ensures { result.now ≡ scheduler_found (rows_of (found_of matches.now)) }
{
    match matches.get_str("scheduler") {
        Some(name) => name,
        None => "default-scheduler",
    }
}

// The keys of the labels that a site's rules read, which is empty where none are named.
fn labels_behind<'a>(matches: &ArgMatches<'a>) -> &'a str
    ensures { result.now ≡ labels_found (rows_of (found_of matches.now)) }
{
    match matches.get_str("labels") {
        Some(keys) => keys,
        None => "",
    }
}

// The translation that was found behind a command.
fn translate_of<'a>(matches: &ArgMatches<'a>) -> TranslatePlan<'a>
    ensures { translate_planned result ≡ translate_found (rows_of (found_of matches.now)) }
{
    TranslatePlan {
        scheduler: scheduler_behind(matches),
        labels: labels_behind(matches),
        by_uid: is_told(matches.get_str("by-uid")),
        answers: is_told(matches.get_str("answers")),
    }
}

// The cluster of which is to be decided by what was found behind a command.
fn live_of<'a>(alloc: Global, matches: &ArgMatches<'a>) -> Result<LivePlan<'a>, WordFault>
    ensures ok { IfOk result (λ plan. live_found (rows_of (found_of matches.now)) ≡ Some (live_planned plan)) }
    ensures refused { result ≡ Err WordFault.BadWords → live_found (rows_of (found_of matches.now)) ≡ None }
    ensures within { IfOk result (λ plan. IsPlan plan.plan) }
{
    let scheduler = scheduler_behind(matches);
    let labels = labels_behind(matches);
    match plan_of(alloc, matches) {
        Ok(plan) => Ok(LivePlan {
            scheduler,
            labels,
            plan,
        }),
        Err(fault) => Err(fault),
    }
}

// A command, by its name.
#[derive(Clone, Copy)]
enum CommandName {
    Run,
    Explain,
    Storm,
    Translate,
    Live,
    Version,
    Check,
}

// Which command this names, where it names one.
fn named(name: &str) -> CommandName
    ensures { result ≡ named name.now }
{
    match name {
        "run" => CommandName::Run,
        "explain" => CommandName::Explain,
        "storm" => CommandName::Storm,
        "translate" => CommandName::Translate,
        "live" => CommandName::Live,
        "version" => CommandName::Version,
        _ => CommandName::Check,
    }
}

// What is asked for by a command and what was found behind it.
#[tactic(auto, unfolding(crate::specs::inside::Words::Means))]
fn words_behind<'a>(
    alloc: Global,
    named: CommandName,
    behind: &ArgMatches<'a>,
) -> Result<Words<'a>, WordFault>
    ensures { Means (found_behind named (rows_of (found_of behind.now))) result }
{
    match named {
        CommandName::Run => plan_of(alloc, behind).map(Words::Run),
        CommandName::Explain => plan_of(alloc, behind).map(Words::Explain),
        CommandName::Storm => storm_of(alloc, behind).map(Words::Storm),
        CommandName::Translate => Ok(Words::Translate(translate_of(behind))),
        CommandName::Live => live_of(alloc, behind).map(Words::Live),
        CommandName::Version => Ok(Words::Version),
        CommandName::Check => check_of(behind),
    }
}

// The check that was found behind a command.
#[tactic(auto, unfolding(crate::specs::inside::Words::Means))]
fn check_of<'a>(matches: &ArgMatches<'a>) -> Result<Words<'a>, WordFault>
    ensures { Means (found_behind CommandName.Check (rows_of (found_of matches.now))) result }
{
    match matches.get_str("MODULE") {
        Some(file) => Ok(Words::Check(file)),
        None => Err(WordFault::BadWords),
    }
}

// The command that was found.
#[tactic(auto, unfolding(crate::specs::inside::Words::Means))]
fn words_of<'a>(alloc: Global, matches: &ArgMatches<'a>) -> Result<Words<'a>, WordFault>
    ensures { Means (found (subcommand_rows_of matches.now)) result }
{
    match matches.subcommand() {
        Some((name, behind)) => words_behind(alloc, named(name), behind),
        None => Err(WordFault::BadWords),
    }
}

// Has `clap` read the words.
fn found_in<'a, S: AsStr>(alloc: Global, args: &'a [S]) -> Result<ArgMatches<'a>, WordFault>
    ensures taken { IfOk result (λ _. are_taken (map S.text args.now) ≡ true) }
    ensures found { IfOk result (λ matches. subcommand_rows_of matches
        ≡ subcommand_of command_line (map S.text args.now)) }
    ensures refused { result ≡ Err WordFault.BadWords → are_taken (map S.text args.now) ≡ false }
{
    let Ok(command) = command_line(alloc) else {
        return Err(WordFault::NoMemory);
    };
    match command.try_get_matches_from(args) {
        Ok(matches) => Ok(matches),
        Err(error) => match error.kind() {
            ErrorKind::OutOfMemory => Err(WordFault::NoMemory),
            _ => Err(WordFault::BadWords),
        },
    }
}

/// Reads the words that follow the program's name: `run [--workers N] [SPEC]...`, `explain` with
/// the same words behind it, `storm [--cycles C] [--binders B] [--flaky] [SPEC]...`, `check
/// MODULE`, `translate [--scheduler NAME] [--labels KEY,..] [--by-uid] [--answers]`, `live
/// [--scheduler NAME] [--labels KEY,..] [--workers N] [SPEC]...` or `version`.
///
/// N is a whole number from 1 to 64, and 1 where it isn't told; C and B are from 1 to 8, and 2
/// where they aren't. A SPEC is `NAME:WEIGHT:FUEL:FILE`, cut at its first three colons: a name of
/// its own, a weight from 1 to 10 and fuel from 1 to 10^9 in digits alone, and a file. There are at
/// most 16. A scheduler's NAME is any text, and `default-scheduler` where it isn't told. A `--`
/// ends the options. No command, a request for help, and `--version` are bad words.
///
/// Errors: `BadWords`, and `NoMemory`, which says nothing of the words.
pub fn words<'a, S: AsStr>(alloc: Global, args: &'a [S]) -> Result<Words<'a>, WordFault>
    ensures ok { IfOk result (λ words. meaning (map S.text args.now) ≡ Some (asked_of words)) }
    ensures refused { result ≡ Err WordFault.BadWords → meaning (map S.text args.now) ≡ None }
    ensures within { IfOk result IsWithin }
{
    match found_in(alloc, args) {
        Ok(matches) => words_of(alloc, &matches),
        Err(fault) => Err(fault),
    }
}

/// The words that follow the program's name.
///
/// Errors: `BadWords` where one is not UTF-8, and `NoMemory`.
pub fn arguments<R: Env + AllocGlobal>(rt: &R) -> Result<Vec<String>, WordFault> {
    let words = match env::args(rt) {
        Ok(words) => words,
        Err(error) => return Err(unread(error.kind())),
    };
    match words.skip(1).collect(rt.alloc()) {
        Ok(words) => Ok(words),
        Err(AllocError) => Err(WordFault::NoMemory),
    }
}

// Why the words could not be read.
fn unread(kind: io::ErrorKind) -> WordFault {
    if kind == io::ErrorKind::InvalidData {
        WordFault::BadWords
    } else {
        WordFault::NoMemory
    }
}
