//! A cycle, and what is asked of the ledger then.
ghost use Rattle.std.specs.Prelude.{◌≡◌, IfOk, OnOk};
ghost use Rattle.desk.specs.Machine.{State};
ghost use Rattle.choose.specs.Kits.{rules_of};
ghost use Rattle.cycle.specs.CycleAlone.{IsCycleAlone};
ghost use Rattle.live_desk.specs.Turns.{IsAsked, IsTurn, with_desk};

use crate::live_desk::LiveDesk;
use choose::Decider;
use cycle::Cycled;
use desk::{Naming, NoMemory, Step};
use ledger::{Answer, Event};
use quant::{Name, Ticket};
use std::sync::Wait;
use std::thread::Threads;

/// What a cycle came to.
#[derive(Drop)]
pub enum Turn {
    /// No bind may be asked for now, of whichever pod, so that none was decided of.
    Shut,
    /// The pod may be bound to the node, which was chosen with this total. The ledger's ticket names
    /// the bind.
    Granted {
        uid: Name,
        node: Name,
        total: u32,
        ticket: Ticket,
    },
    /// The node was chosen, and the ledger doesn't allow the bind. The pod is tried again.
    Denied {
        uid: Name,
        node: Name,
        answer: Answer,
    },
    /// No node was chosen, or no pod waits.
    Without(Cycled),
}

impl<J: Naming> LiveDesk<J> {
    /// One cycle: where a bind may be asked for now, the desk decides of the pod that goes first, by
    /// all that the ledger took so far, and the ledger is asked whether the bind may be asked for.
    ///
    /// Errors: `NoMemory`.
    pub fn cycle<R: Wait + Threads + Sync, D: Decider>(
        &mut self,
        rt: &R,
        decider: &mut D,
    ) -> Result<Turn, NoMemory>
        ensures turn { IfOk result (λ turn. IsTurn (rules_of D.Kit.answers (D.kits decider.old)) self.old turn self.new) }
        ensures kits { D.kits decider.new ≡ D.kits decider.old }
    {
        if !self.ledger.is_open() {
            return Ok(Turn::Shut);
        }
        let Ok(came) = self.cycle_alone(rt, decider) else {
            return Err(NoMemory);
        };
        match came {
            Cycled::Assumed {
                uid,
                node,
                total,
                ticket,
            } => self.ask(rt, uid, node, total, ticket),
            without => Ok(Turn::Without(without)),
        }
    }

    // A cycle of the desk.
    fn cycle_alone<R: Wait + Threads + Sync, D: Decider>(
        &mut self,
        rt: &R,
        decider: &mut D,
    ) -> Result<Cycled, NoMemory>
        ensures cycled { IfOk result (λ came. (desk : State)
            × IsCycleAlone (rules_of D.Kit.answers (D.kits decider.old)) self.old.desk came desk
            × (self.new ≡ with_desk self.old desk)) }
        ensures kits { D.kits decider.new ≡ D.kits decider.old }
    {
        let Ok(popped) = self.desk.pop(rt) else {
            return Err(NoMemory);
        };
        let Some(pod) = popped else {
            return Ok(Cycled::Idle);
        };
        match self.desk.place(rt, &pod, decider, false) {
            Ok(came) => Ok(came),
            // (a cycle is cut short by want of memory alone)
            Err(_) => Err(NoMemory),
        }
    }

    // The ledger is asked whether a pod may be bound where its place is assumed.
    fn ask<R: Wait>(
        &mut self,
        rt: &R,
        uid: Name,
        node: Name,
        total: u32,
        ticket: Ticket,
    ) -> Result<Turn, NoMemory>
        ensures { IfOk result (λ turn. IsAsked self.old uid node total ticket turn self.new) }
    {
        let (pod, there) = (uid.copied(), node.copied());
        let answer = self.alone(Event::Bind {
            uid: pod,
            node: there,
        });
        if let Answer::Granted(bind) = answer {
            let Ok(()) = self.set_ticket(&uid, Some(ticket)) else {
                return Err(NoMemory);
            };
            return Ok(Turn::Granted {
                uid,
                node,
                total,
                ticket: bind,
            });
        }
        let pod = uid.copied();
        match self.step(rt, Step::Forget { uid: pod, ticket }) {
            Ok(()) => Ok(Turn::Denied { uid, node, answer }),
            Err(NoMemory) => Err(NoMemory),
        }
    }
}
