//! Which binds may be asked for, and what became of them.
ghost use Rattle.std.specs.Prelude.{◌≡◌, true};
ghost use Rattle.std.specs.FinMap as fin;
ghost use Rattle.std.specs.FinMap.{contains_key};
ghost use Rattle.ledger.specs.State.{is_heard, is_open};
ghost use Rattle.ledger.specs.Telling.{became, bind, bind_waiting, asking_after, answer_for, answered, read, given_up, read_in_doubt};

use crate::event::{Answer, Outcome, Said};
use crate::known::{Asking, Heard, Known, Stage};
use crate::ledger::Ledger;
use crate::tables::assume;
use quant::{Name, Request, Ticket};

impl Ledger {
    /// Whether a bind may be asked for, of whichever pod.
    pub fn is_open(&self) -> bool
        ensures { result ≡ is_open self.now }
    {
        self.of_nodes.is_heard() && self.of_pods.is_heard() && !self.left_out.any
    }

    /// May this pod be bound to this node?
    pub(crate) fn bind(&mut self, uid: Name, node: Name) -> Answer
        ensures { became result self.new ≡ bind self.old uid node }
    {
        if !self.is_open() {
            return Answer::Shut;
        }
        match self.known(&uid) {
            Some(known) => match known.stage {
                Stage::Waits(request) => self.bind_waiting(uid, node, known, request),
                Stage::Asked { .. } | Stage::Stands => Answer::NotWaiting,
            },
            None => Answer::NotWaiting,
        }
    }

    // A bind of a pod that waits.
    fn bind_waiting(&mut self, uid: Name, node: Name, known: Known, request: Request) -> Answer
        requires { contains_key self.old.pods uid ≡ true }
        ensures { became result self.new ≡ bind_waiting self.old uid node known request }
    {
        let ticket = match assume(&mut self.book, uid.copied(), node, request) {
            Ok(ticket) => ticket,
            Err(why) => return Answer::Refused(why),
        };
        let stage = Stage::Asked {
            request,
            ticket,
            asking: Asking::Sent,
        };
        self.keep(uid, Known { stage, ..known });
        Answer::Granted(ticket)
    }

    /// What became of a bind.
    pub(crate) fn answered(&mut self, uid: Name, ticket: Ticket, outcome: Outcome) -> Answer
        ensures { became result self.new ≡ answered self.old uid ticket outcome }
    {
        let Some(known) = self.known(&uid) else {
            return Answer::Old;
        };
        match known.stage {
            Stage::Asked {
                request,
                ticket: given,
                asking,
            } => {
                if given != ticket {
                    return Answer::Old;
                }
                let asking = asking.after(outcome);
                let stage = Stage::Asked {
                    request,
                    ticket,
                    asking,
                };
                self.keep(uid, Known { stage, ..known });
                asking.answer()
            }
            Stage::Waits(_) | Stage::Stands => Answer::Old,
        }
    }

    /// What a read said of a pod.
    pub(crate) fn read(&mut self, uid: Name, ticket: Ticket, said: Said) -> Answer
        ensures { became result self.new ≡ read self.old uid ticket said }
    {
        let Some(known) = self.known(&uid) else {
            return Answer::Old;
        };
        match known.stage {
            Stage::Asked {
                request,
                ticket: given,
                asking: Asking::InDoubt,
            } if given == ticket => self.read_in_doubt(uid, ticket, known, request, said),
            _ => Answer::Old,
        }
    }

    // What a read said of a pod, for a bind that is in doubt.
    fn read_in_doubt(
        &mut self,
        uid: Name,
        ticket: Ticket,
        known: Known,
        request: Request,
        said: Said,
    ) -> Answer
        requires { contains_key self.old.pods uid ≡ true }
        ensures { became result self.new ≡ read_in_doubt self.old uid ticket known request said }
    {
        match said {
            Said::Waits => self.give_up(uid, ticket, known, request),
            Said::Stands { version, .. } if version <= known.version => Answer::Old,
            Said::Stands {
                version,
                node,
                request,
            } => self.stands_new(known.list, version, uid, node, request),
            Said::Gone => self.gone(uid),
        }
    }

    // A bind is over, and its pod waits, or isn't to be bound.
    fn give_up(&mut self, uid: Name, ticket: Ticket, known: Known, request: Request) -> Answer
        requires { contains_key self.old.pods uid ≡ true }
        ensures { became result self.new ≡ given_up self.old uid ticket known request }
    {
        if self.book.forget(&uid, ticket, false).is_err() {
            return Answer::Full;
        }
        if known.withheld {
            self.pods.remove(&uid);
            return Answer::Told;
        }
        let stage = Stage::Waits(request);
        self.keep(uid, Known { stage, ..known })
    }
}

impl Heard {
    // Whether a watch is open that goes on where a list ended.
    fn is_heard(self) -> bool
        ensures { result ≡ is_heard self }
    {
        self.hears && self.listed
    }
}

impl Asking {
    // What an answer makes of a bind.
    fn after(self, outcome: Outcome) -> Self
        ensures { result ≡ asking_after self outcome }
    {
        match (self, outcome) {
            (_, Outcome::Created) | (Asking::Created, _) => Asking::Created,
            (Asking::Sent | Asking::InDoubt, Outcome::Refused | Outcome::Over) => Asking::InDoubt,
        }
    }

    // What is answered to it.
    fn answer(self) -> Answer
        ensures { result ≡ answer_for self }
    {
        match self {
            Asking::Sent | Asking::Created => Answer::Told,
            Asking::InDoubt => Answer::Read,
        }
    }
}
