//! What a script's commands are done on.
ghost use Rattle.std.specs.Prelude.{◌≡◌, ◌++◌, ◌⊎◌, ℕ, List, [], true, false, OnOk, OnErr, IfOk, IfErr};
ghost use Rattle.manifest.specs.Line as line;
ghost use Rattle.manifest.specs.declared.command.Command.TheVariants as commands;
ghost use Rattle.desk.specs.Caller as caller;
ghost use Rattle.desk.specs.Machine as machine;
ghost use Rattle.session.specs.Answers.{after, text_of, opening, look_lines, Answered};
ghost use Rattle.streams.specs.Greatest.{limits};
ghost use Rattle.streams.specs.TextBuilder.{Adds, Holds};
ghost use Rattle.output_lines.specs.Replies.{reply_lines, snapshot_lines};
ghost use Rattle.choose.specs.Kits.{rules_of};
ghost use Rattle.cycle.specs.CycleAlone.{IsCycleAlone};
ghost use Rattle.output_lines.specs.Indented.{AreLines};
ghost use Rattle.output_lines.specs.Telling.{Judges, TellsNodes, telling};

use choose::Decider;
use cycle::{Cycled, LoneDesk};
use desk::{Blank, Limits, Naming, NoMemory, Step};
use manifest::{Command, Question};
use output_lines::{
    NamedRule, push_cycled, push_judged, push_reply, push_rulings, push_snapshot, push_verdicts,
};
use std::alloc::Global;
use std::hash::RandomState;
use std::marker::Model;
use std::sync::Wait;
use std::thread::Threads;
use streams::{RunFault, TextBuilder};

/// A desk with its one pass, and room for an answer. Contracts see the desk's state.
///
/// It isn't `Drop`: end it by `end`.
pub struct Session<J: Naming> {
    desk: LoneDesk<J>,
    text: TextBuilder,
}

impl<J: Naming> Model for Session<J> {
    ghost use Rattle.desk.specs.Machine.{State};
    ghost use Rattle.desk.specs.inside.Codes.{state_code};

    ghost Value = { State };

    ghost coded = { state_code };

    ghost view = { λ s. s.desk };
}

impl<J: Naming> Session<J> {
    /// A new desk, with room for as much as the program allows. Names are looked up under the keys.
    ///
    /// Errors: `NoMemory`, and `NoPlace` where there is no pass of it.
    pub fn new<R: Wait>(
        rt: &R,
        blank: Blank,
        alloc: Global,
        keys: RandomState,
        greatest: Limits,
    ) -> Result<Self, RunFault>
        requires named { blank.seen.book ≡ J.book }
        requires limits { greatest ≡ J.limits }
        requires greatest { greatest ≡ limits }
        ensures opening { IfOk result (λ session. session ≡ opening) }
        ensures faults { IfErr result (λ e. (e ≡ RunFault.NoMemory) ⊎ (e ≡ RunFault.NoPlace)) }
    {
        match LoneDesk::<J>::new(rt, blank, alloc, keys, greatest) {
            Ok(desk) => Ok(Session {
                desk,
                text: TextBuilder::new(alloc),
            }),
            Err(fault) => Err(fault),
        }
    }

    /// Does what a command asks for, and adds the answer to the output, whole or not at all. The
    /// decider's rules have these names and weights, in their order, and what was decided of each
    /// node is told too where a cycle is to be explained. It may wait.
    ///
    /// Errors: `NoMemory`; then the command may be done, and it isn't answered.
    pub fn answer<R: Wait + Threads + Sync, D: Decider>(
        &mut self,
        rt: &R,
        named: &[NamedRule],
        explains: bool,
        decider: &mut D,
        command: Command,
        out: &mut Vec<u8>,
    ) -> Result<(), NoMemory>
        requires { line.IsTimely command }
        ensures answered { OnOk result ((text : List ℕ) ×
            Answered (rules_of D.Kit.answers (D.kits decider.old)) (telling named.now explains)
            self.old command self.new text × (out.new.items ≡ out.old.items ++ text)) }
        ensures kept { OnErr result (out.new.items ≡ out.old.items) }
        ensures kits { D.kits decider.new ≡ D.kits decider.old }
    {
        let Session { desk, text } = self;
        text.clear();
        let Ok(()) = fill(rt, named, explains, decider, desk, command, text) else {
            return Err(NoMemory);
        };
        hand_out(text, out)
    }

    /// Ends the desk.
    pub fn end<R: Wait>(self, rt: &R) {
        let Session { desk, text: _ } = self;
        desk.end(rt);
    }
}

// Adds a text to the output, whole or not at all.
fn hand_out(text: &TextBuilder, out: &mut Vec<u8>) -> Result<(), NoMemory>
    ensures whole { OnOk result ((told : List ℕ) × Holds text.now told × (out.new.items ≡ out.old.items ++ told)) }
    ensures kept { OnErr result (out.new.items ≡ out.old.items) }
{
    let Ok(whole) = text.whole() else {
        return Err(NoMemory);
    };
    let Ok(()) = out.extend_from_slice(whole) else {
        return Err(NoMemory);
    };
    Ok(())
}

// Does what a command asks for, and adds the answer to the text.
fn fill<J: Naming, R: Wait + Threads + Sync, D: Decider>(
    rt: &R,
    named: &[NamedRule],
    explains: bool,
    decider: &mut D,
    desk: &mut LoneDesk<J>,
    command: Command,
    text: &mut TextBuilder,
) -> Result<(), NoMemory>
    requires { line.IsTimely command }
    ensures answered { OnOk result ((told : List ℕ) ×
        Answered (rules_of D.Kit.answers (D.kits decider.old)) (telling named.now explains)
        desk.old command desk.new told × Adds text.old text.new told) }
    ensures kits { D.kits decider.new ≡ D.kits decider.old }
{
    let step = match command {
        Command::Event(event) => Step::Event(event),
        Command::Tick(now) => Step::Tick(now),
        Command::Cycle => return do_cycle(rt, named, explains, decider, desk, text),
        Command::BindDone { uid, ticket } => Step::BindDone { uid, ticket },
        Command::Forget { uid, ticket } => Step::Forget { uid, ticket },
        Command::Dump => return dump(rt, desk, text),
        Command::Judge(question) => return judge(named, decider, desk, &question, text),
    };
    do_step(rt, desk, step, text)
}

// Takes a step before which no nodes are shown, and adds the lines that answer it to the text.
#[tactic(auto, unfolding(crate::specs::Answers::after, crate::specs::Answers::text_of))]
fn do_step<J: Naming, R: Wait>(
    rt: &R,
    desk: &mut LoneDesk<J>,
    step: Step,
    text: &mut TextBuilder,
) -> Result<(), NoMemory>
    requires timely { caller.IsTimely step }
    requires plain { look_lines desk.old step ≡ [] }
    ensures state { OnOk result (desk.new ≡ after desk.old step) }
    ensures text { OnOk result (Adds text.old text.new (text_of desk.old step)) }
    ensures lines { OnOk result (AreLines false (text_of desk.old step)) }
{
    let Ok(reply) = desk.apply(rt, step) else {
        return Err(NoMemory);
    };
    push_reply(text, reply);
    Ok(())
}

// Adds the lines of the nodes to the text, and those of the desk's numbers.
#[tactic(auto, unfolding(crate::specs::Answers::after, crate::specs::Answers::text_of))]
fn dump<J: Naming, R: Wait>(
    rt: &R,
    desk: &mut LoneDesk<J>,
    text: &mut TextBuilder,
) -> Result<(), NoMemory>
    ensures state { OnOk result (desk.new ≡ after desk.old Step.Count) }
    ensures text { OnOk result (Adds text.old text.new (text_of desk.old Step.Count)) }
    ensures lines { OnOk result (AreLines false (text_of desk.old Step.Count)) }
{
    let Ok(()) = show(desk, text) else {
        return Err(NoMemory);
    };
    let Ok(reply) = desk.apply(rt, Step::Count) else {
        return Err(NoMemory);
    };
    push_reply(text, reply);
    Ok(())
}

// Does a cycle, and adds the line that tells what it came to, with those of the nodes in front
// where it is to be explained.
fn do_cycle<J: Naming, R: Wait + Threads + Sync, D: Decider>(
    rt: &R,
    named: &[NamedRule],
    explains: bool,
    decider: &mut D,
    desk: &mut LoneDesk<J>,
    text: &mut TextBuilder,
) -> Result<(), NoMemory>
    ensures cycled { OnOk result ((told : List ℕ) ×
        Answered (rules_of D.Kit.answers (D.kits decider.old)) (telling named.now explains)
        desk.old commands.Cycle desk.new told × Adds text.old text.new told) }
    ensures kits { D.kits decider.new ≡ D.kits decider.old }
{
    let Ok(came) = tell_cycle(rt, named, explains, decider, desk, text) else {
        return Err(NoMemory);
    };
    push_cycled(text, named, &came);
    Ok(())
}

// Does a cycle, and adds the lines of the nodes that it saw where it is to be explained. Nobody
// else makes a call, so a look before the decision shows what it sees.
fn tell_cycle<J: Naming, R: Wait + Threads + Sync, D: Decider>(
    rt: &R,
    named: &[NamedRule],
    explains: bool,
    decider: &mut D,
    desk: &mut LoneDesk<J>,
    text: &mut TextBuilder,
) -> Result<Cycled, NoMemory>
    ensures cycled { IfOk result (λ came. IsCycleAlone (rules_of D.Kit.answers (D.kits decider.old)) desk.old
        came desk.new) }
    ensures told { OnOk result ((told : List ℕ) × TellsNodes (rules_of D.Kit.answers (D.kits decider.old)) named.now
        explains desk.old told
        × AreLines true told × Adds text.old text.new told) }
    ensures kits { D.kits decider.new ≡ D.kits decider.old }
{
    let Ok(popped) = desk.pop(rt) else {
        return Err(NoMemory);
    };
    let pod = match popped {
        Some(pod) => pod,
        None => return Ok(Cycled::Idle),
    };
    if !explains {
        return match desk.place(rt, &pod, decider, false) {
            Ok(cycled) => Ok(cycled),
            Err(_) => Err(NoMemory),
        };
    }
    let Ok(snapshot) = desk.look() else {
        return Err(NoMemory);
    };
    let Ok(came) = desk.place(rt, &pod, decider, true) else {
        return Err(NoMemory);
    };
    push_verdicts(text, named, &pod, snapshot.rows(), decider.verdicts());
    Ok(came)
}

// Adds what the rules alone say of each node to the text, and how many these are.
fn judge<J: Naming, D: Decider>(
    named: &[NamedRule],
    decider: &mut D,
    desk: &mut LoneDesk<J>,
    question: &Question,
    text: &mut TextBuilder,
) -> Result<(), NoMemory>
    ensures state { desk.new ≡ desk.old }
    ensures judged { OnOk result ((told : List ℕ) ×
        Judges (rules_of D.Kit.answers (D.kits decider.old)) named.now desk.old question.now told
        × Adds text.old text.new told) }
    ensures kits { D.kits decider.new ≡ D.kits decider.old }
{
    let Ok(snapshot) = desk.look() else {
        return Err(NoMemory);
    };
    let pod = &question.pod;
    let Ok(()) = decider.judge(&snapshot, pod, question.filters_alone) else {
        return Err(NoMemory);
    };
    push_rulings(text, named, pod, snapshot.rows(), decider.verdicts());
    push_judged(text, &pod.uid, snapshot.rows().len() as u64);
    Ok(())
}

// Adds the lines of the nodes to the text.
fn show<J: Naming>(desk: &mut LoneDesk<J>, text: &mut TextBuilder) -> Result<(), NoMemory>
    ensures state { desk.new ≡ desk.old }
    ensures text { OnOk result (Adds text.old text.new (snapshot_lines (machine.snapshot desk.old.cluster))) }
    ensures lines { OnOk result (AreLines false (snapshot_lines (machine.snapshot desk.old.cluster))) }
{
    let Ok(snapshot) = desk.look() else {
        return Err(NoMemory);
    };
    push_snapshot(text, &snapshot);
    Ok(())
}
