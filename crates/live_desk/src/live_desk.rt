//! A desk, and the ledger that it asks.
ghost use Rattle.std.specs.Prelude.{◌≡◌, ◌⊎◌, ◌≤◌, None, OnOk, IfOk, IfErr, replicate};
ghost use Rattle.std.specs.FinMap as fin;
ghost use Rattle.quant.specs.declared.limits.TheConstants.{LATEST_MOMENT};
ghost use Rattle.desk.specs.Caller as caller;
ghost use Rattle.desk.specs.Machine as machine;
ghost use Rattle.desk.specs.declared.step.Step.TheVariants.{Count, Tick};
ghost use Rattle.ledger.specs.State.{opening as ledger_opening};
ghost use Rattle.ledger.specs.Told.{IsTold};
ghost use Rattle.live_desk.specs.State.{given_back, node_gone, numbered, offer, offer_new, opening, pod_bound, pod_gone, steps, to_place, version_of, with_ticket, without};
ghost use Rattle.live_desk.specs.Telling.{IsPending, IsTaken, is_newest, left_out, names_of, put_aside, settled, takes, with_ledger};
ghost use Rattle.live_desk.specs.inside.Change.{change_of, changed};

use crate::change::{Change, change_of};
use crate::offered::Offered;
use crate::same_pod::{is_same_pod, is_same_request};
use cycle::LoneDesk;
use desk::{Blank, Limits, Naming, NoMemory, Reply, Snapshot, Step};
use ledger::{Answer, Event, Kind, Known, Ledger, Stage};
use name_table::NameTable;
use quant::{Event as Watched, Moment, Name, Pod, Request, SharedPod, Ticket, Version};
use std::alloc::{AllocError, Global};
use std::hash::RandomState;
use std::marker::Model;
use std::sync::Wait;
use streams::RunFault;

/// What is answered to what is told.
#[derive(Clone, Copy)]
pub enum Taken {
    /// What the ledger answers.
    Answers(Answer),
    /// The ledger took it, and the desk has no room for a pod to place: it is to be told again.
    LeftOut,
}

/// A desk that decides, and the ledger that knows what was told and which binds may be asked for.
///
/// It isn't `Drop`: end it by `end`.
pub struct LiveDesk<J: Naming> {
    pub(crate) desk: LoneDesk<J>,
    pub(crate) ledger: Ledger,
    pub(crate) offered: NameTable<Offered>,
    pub(crate) told: u64,
}

impl<J: Naming> Model for LiveDesk<J> {
    ghost use Rattle.live_desk.specs.State.{Live};

    ghost Value = { Live };

    ghost use Rattle.live_desk.specs.inside.Codes.{live_code};

    ghost coded = { live_code };

    ghost use Rattle.std.specs.Prelude.{length};
    ghost use Rattle.name_table.specs.Slots.{map_of};

    ghost view = { λ d. record { ledger = d.ledger; desk = d.desk; offered = map_of d.offered; room = length d.offered; told = d.told } };
}

impl<J: Naming> LiveDesk<J> {
    /// One to which nothing was told, from what was laid out for a desk of these limits, with room
    /// for so many pods in all. Names are looked up under the keys.
    ///
    /// Errors: `NoMemory`, and `NoPlace` where there is no pass of the desk.
    pub fn new<R: Wait>(
        rt: &R,
        blank: Blank,
        alloc: Global,
        keys: RandomState,
        limits: Limits,
        known: usize,
    ) -> Result<Self, RunFault>
        requires named { blank.seen.book ≡ J.book }
        requires limits { limits ≡ J.limits }
        requires few { known ≤ 1000000 }
        ensures opening { IfOk result (λ made. made ≡ opening limits known) }
        ensures faults { IfErr result (λ e. (e ≡ RunFault.NoMemory) ⊎ (e ≡ RunFault.NoPlace)) }
    {
        let desk = match LoneDesk::<J>::new(rt, blank, alloc, keys, limits) {
            Ok(desk) => desk,
            Err(fault) => return Err(fault),
        };
        match tables(alloc, keys, limits, known) {
            Ok((ledger, offered)) => Ok(LiveDesk {
                desk,
                ledger,
                offered,
                told: 0,
            }),
            Err(NoMemory) => {
                desk.end(rt);
                Err(RunFault::NoMemory)
            }
        }
    }

    /// Ends it.
    pub fn end<R: Wait>(self, rt: &R) {
        let LiveDesk {
            desk,
            ledger,
            offered,
            told: _,
        } = self;
        // (dropped by calls, since what is left of a value taken apart is dear to drop)
        drop(ledger);
        drop(offered);
        desk.end(rt);
    }

    // ---- what the desk is told

    // The desk takes a step, and answers it.
    fn answer_step<R: Wait>(&mut self, rt: &R, step: Step) -> Result<Reply, NoMemory>
        requires { caller.IsTimely step }
        ensures reply { IfOk result (λ reply. reply ≡ machine.reply self.old.desk 0 step) }
        ensures after { OnOk result (self.new ≡ steps self.old step) }
    {
        self.desk.apply(rt, step)
    }

    // The desk takes a step, whatever it answers.
    pub(crate) fn step<R: Wait>(&mut self, rt: &R, step: Step) -> Result<(), NoMemory>
        requires { caller.IsTimely step }
        ensures { OnOk result (self.new ≡ steps self.old step) }
    {
        match self.answer_step(rt, step) {
            Ok(_) => Ok(()),
            Err(NoMemory) => Err(NoMemory),
        }
    }

    // The number of the next event that the desk is told.
    fn next_version(&mut self) -> Version
        ensures numbered { self.new ≡ numbered self.old }
        ensures version { result ≡ version_of self.new }
    {
        self.told = self.told.saturating_add(1);
        Version(self.told)
    }

    // A node is gone.
    fn drop_node<R: Wait>(&mut self, rt: &R, name: Name) -> Result<(), NoMemory>
        ensures { OnOk result (self.new ≡ node_gone self.old name) }
    {
        let version = self.next_version();
        self.step(rt, Step::Event(Watched::NodeGone { version, name }))
    }

    // A pod isn't to be placed, and takes nothing.
    fn drop_pod<R: Wait>(&mut self, rt: &R, uid: Name) -> Result<(), NoMemory>
        ensures gone { OnOk result (self.new ≡ pod_gone self.old uid) }
        ensures unknown { OnOk result (fin.get self.new.offered uid ≡ None) }
    {
        self.withdraw(&uid);
        let version = self.next_version();
        self.step(rt, Step::Event(Watched::PodGone { version, uid }))
    }

    // A pod stands on a node, and takes so much there.
    fn bind_pod<R: Wait>(
        &mut self,
        rt: &R,
        uid: Name,
        node: Name,
        request: Request,
    ) -> Result<(), NoMemory>
        ensures { OnOk result (self.new ≡ pod_bound self.old uid node request) }
    {
        self.withdraw(&uid);
        let version = self.next_version();
        let bound = Watched::PodBound {
            version,
            uid,
            node,
            request,
        };
        self.step(rt, Step::Event(bound))
    }

    // A pod isn't one to place any more.
    #[tactic(auto, using(book::proofs::SumLemmas::get_removed))]
    fn withdraw(&mut self, uid: &Name)
        ensures without { self.new ≡ without self.old uid.now }
        ensures unknown { fin.get self.new.offered uid.now ≡ None }
    {
        self.offered.remove(uid);
    }

    // A pod that the desk doesn't have is to be placed, unless it refuses it.
    fn offer_new<R: Wait>(&mut self, rt: &R, pod: SharedPod) -> Result<bool, NoMemory>
        requires { fin.get self.old.offered pod.uid ≡ None }
        ensures { IfOk result (λ there. record { is_there = there; state = self.new } ≡ offer_new self.old pod) }
    {
        if self.offered.is_full() {
            return Ok(false);
        }
        let Ok(row) = pod.share() else {
            return Err(NoMemory);
        };
        let version = self.next_version();
        let pending = Step::Event(Watched::PodPending { version, pod });
        let Ok(reply) = self.answer_step(rt, pending) else {
            return Err(NoMemory);
        };
        if let Reply::Refused(_) = reply {
            return Ok(false);
        }
        let uid = row.uid.copied();
        self.offered.insert(
            uid,
            Offered {
                pod: row,
                ticket: None,
            },
        );
        Ok(true)
    }

    // A pod is to be placed. One that the desk has by the same row stays as it is, and one by
    // another row comes anew.
    fn offer<R: Wait>(&mut self, rt: &R, pod: SharedPod) -> Result<bool, NoMemory>
        ensures { IfOk result (λ there. record { is_there = there; state = self.new } ≡ offer self.old pod) }
    {
        if let Some(before) = self.offered.get(&pod.uid) {
            if is_same_pod(&before.pod, &pod) {
                return Ok(true);
            }
            let Ok(()) = self.drop_pod(rt, pod.uid.copied()) else {
                return Err(NoMemory);
            };
        }
        self.offer_new(rt, pod)
    }

    // A bind comes to nothing: its pod is tried again, where the desk chose its place, and is else
    // none that the desk has.
    fn give_back<R: Wait>(&mut self, rt: &R, uid: Name) -> Result<(), NoMemory>
        ensures { OnOk result (self.new ≡ given_back self.old uid) }
    {
        // What names the desk's choice of its place, where a bind of it was asked for.
        let ticket = match self.offered.get(&uid) {
            Some(it) => it.ticket,
            None => None,
        };
        let Some(ticket) = ticket else {
            return self.drop_pod(rt, uid);
        };
        let Ok(()) = self.set_ticket(&uid, None) else {
            return Err(NoMemory);
        };
        self.step(rt, Step::Forget { uid, ticket })
    }

    // What names the desk's choice of a pod's place is this now.
    pub(crate) fn set_ticket(
        &mut self,
        uid: &Name,
        ticket: Option<Ticket>,
    ) -> Result<(), AllocError>
        ensures { OnOk result (self.new ≡ with_ticket self.old uid.now ticket) }
    {
        let Some(slot) = self.offered.find(uid) else {
            return Ok(());
        };
        let Ok(pod) = self.offered.value_at(slot).pod.share() else {
            return Err(AllocError);
        };
        self.offered.replace_at(slot, Offered { pod, ticket });
        Ok(())
    }

    // ---- what the ledger takes

    /// Tells the ledger an event, and the desk what of it the ledger took. A pod that waits is told
    /// by `pending`, with its row.
    ///
    /// Errors: `NoMemory`.
    pub fn tell<R: Wait>(&mut self, rt: &R, alloc: Global, event: Event) -> Result<Answer, NoMemory>
        ensures { IfOk result (λ answer. IsTaken self.old event answer self.new) }
    {
        let Ok((names, change)) = self.get_ready(alloc, &event) else {
            return Err(NoMemory);
        };
        let answer = self.alone(event);
        if !takes(answer) {
            return Ok(answer);
        }
        match self.change(rt, change, &names) {
            Ok(()) => Ok(answer),
            Err(NoMemory) => Err(NoMemory),
        }
    }

    // What the desk is told of an event, if the ledger takes it, with the names that a list leaves
    // out which ends by it.
    fn get_ready(&self, alloc: Global, event: &Event) -> Result<(Vec<Name>, Change), NoMemory>
        ensures names { IfOk result (λ ready. ready.0.items ≡ names_of self.now.ledger event.now) }
        ensures change { IfOk result (λ ready. ready.1 ≡ change_of event.now) }
    {
        let names = match event {
            Event::ListEnds(kind) => match self.ledger.unnamed(alloc, *kind) {
                Ok(names) => names,
                Err(_) => return Err(NoMemory),
            },
            _ => Vec::new(alloc),
        };
        match change_of(event) {
            Ok(change) => Ok((names, change)),
            Err(AllocError) => Err(NoMemory),
        }
    }

    // The ledger takes an event.
    pub(crate) fn alone(&mut self, event: Event) -> Answer
        ensures told { IsTold self.old.ledger event result self.new.ledger }
        ensures desk { self.new ≡ with_ledger self.old self.new.ledger }
    {
        self.ledger.tell(event)
    }

    // The desk is told what became of an event that the ledger took, where these are the names that a
    // list left out.
    fn change<R: Wait>(&mut self, rt: &R, change: Change, names: &[Name]) -> Result<(), NoMemory>
        ensures { OnOk result (self.new ≡ changed self.old change names.now) }
    {
        match change {
            Change::Nothing => Ok(()),
            Change::LeftOut(kind) => self.leave_out(rt, kind, names),
            Change::NodeSet(node) => {
                let version = self.next_version();
                self.step(rt, Step::Event(Watched::NodeSet { version, node }))
            }
            Change::NodeGone(name) => self.drop_node(rt, name),
            // A pod that isn't to be bound goes, unless the ledger knows it still.
            Change::Withheld(uid) => match self.ledger.known(&uid) {
                Some(_) => Ok(()),
                None => self.drop_pod(rt, uid),
            },
            Change::PodBound(uid, node, request) => self.bind_pod(rt, uid, node, request),
            Change::PodGone(uid) => self.drop_pod(rt, uid),
            // A bind may be asked for that the desk didn't choose: its pod counts where it may come
            // to stand.
            Change::Asked(uid, node) => match self.ledger.known(&uid) {
                Some(
                    Known {
                        stage: Stage::Asked { request, .. },
                        ..
                    },
                ) => self.bind_pod(rt, uid, node, request),
                _ => Ok(()),
            },
            Change::Settled(uid, place) => self.settle(rt, uid, place),
        }
    }

    // The nodes or pods of these names go.
    fn leave_out<R: Wait>(&mut self, rt: &R, kind: Kind, names: &[Name]) -> Result<(), NoMemory>
        ensures { OnOk result (self.new ≡ left_out self.old kind names.now) }
    {
        for name in names {
            let told = match kind {
                Kind::Nodes => self.drop_node(rt, name.copied()),
                Kind::Pods => self.drop_pod(rt, name.copied()),
            };
            let Ok(()) = told else {
                return Err(NoMemory);
            };
        }
        Ok(())
    }

    // A read settled a pod's bind: where it was read to stand, if it stands, it does so at this
    // place.
    fn settle<R: Wait>(
        &mut self,
        rt: &R,
        uid: Name,
        place: Option<(Name, Request)>,
    ) -> Result<(), NoMemory>
        ensures { OnOk result (self.new ≡ settled self.old uid place (fin.get self.old.ledger.pods uid)) }
    {
        let Some(known) = self.ledger.known(&uid) else {
            return self.drop_pod(rt, uid);
        };
        match (known.stage, place) {
            (Stage::Waits(_), _) => self.give_back(rt, uid),
            (Stage::Stands, Some((node, request))) => self.bind_pod(rt, uid, node, request),
            (Stage::Stands, None) | (Stage::Asked { .. }, _) => Ok(()),
        }
    }

    /// A pod waits, with this row: the ledger is told, and where nothing newer was told of it and no
    /// bind of it is open, the desk has it to place.
    ///
    /// Errors: `NoMemory`.
    pub fn pending<R: Wait>(
        &mut self,
        rt: &R,
        version: Version,
        pod: SharedPod,
    ) -> Result<Taken, NoMemory>
        ensures { IfOk result (λ taken. IsPending self.old version pod taken self.new) }
    {
        let answer = self.alone(Event::Waits {
            version,
            uid: pod.uid.copied(),
            request: pod.request,
        });
        if !self.is_newest(version, &pod) {
            return Ok(Taken::Answers(answer));
        }
        let Ok(there) = self.offer(rt, pod) else {
            return Err(NoMemory);
        };
        if !there {
            return Ok(Taken::LeftOut);
        }
        Ok(Taken::Answers(answer))
    }

    // Whether this is the newest that was told of a pod that waits, and asks for what it was told to
    // ask for: one version has one row, whoever tells it.
    fn is_newest(&self, version: Version, pod: &Pod) -> bool
        ensures { result ≡ is_newest version pod.now.request (fin.get self.now.ledger.pods pod.now.uid) }
    {
        let Some(known) = self.ledger.known(&pod.uid) else {
            return false;
        };
        match known.stage {
            Stage::Waits(request) => {
                known.version == version && is_same_request(request, pod.request)
            }
            Stage::Asked { .. } | Stage::Stands => false,
        }
    }

    /// A pod that waits is put aside: the desk doesn't place it until it is told again. Whether it
    /// had it to place.
    ///
    /// Errors: `NoMemory`.
    pub fn put_aside<R: Wait>(&mut self, rt: &R, uid: Name) -> Result<bool, NoMemory>
        ensures { IfOk result (λ was_there. record { was_there = was_there; state = self.new } ≡ put_aside self.old uid) }
    {
        let is_to_place = match self.offered.get(&uid) {
            Some(it) => it.ticket.is_none(),
            None => false,
        };
        if is_to_place {
            let Ok(()) = self.drop_pod(rt, uid) else {
                return Err(NoMemory);
            };
        }
        Ok(is_to_place)
    }

    /// Time goes on to this moment, at most `LATEST_MOMENT`.
    ///
    /// Errors: `NoMemory`.
    pub fn tick<R: Wait>(&mut self, rt: &R, now: Moment) -> Result<Reply, NoMemory>
        requires { now.0 ≤ LATEST_MOMENT }
        ensures reply { IfOk result (λ reply. reply ≡ machine.reply self.old.desk 0 (Tick now)) }
        ensures after { OnOk result (self.new ≡ steps self.old (Tick now)) }
    {
        self.answer_step(rt, Step::Tick(now))
    }

    // ---- what is asked of it

    /// The row of a pod that is to be placed, where no bind of it is open.
    ///
    /// Errors: `AllocError`.
    pub fn to_place(&self, uid: &Name) -> Result<Option<SharedPod>, AllocError>
        ensures { IfOk result (λ pod. pod ≡ to_place self.now uid.now) }
    {
        match self.offered.get(uid) {
            Some(Offered { pod, ticket: None }) => Ok(Some(pod.share()?)),
            _ => Ok(None),
        }
    }

    /// Shows the nodes and what is used of them, as the desk decides by them.
    ///
    /// Errors: `NoMemory`.
    pub fn look(&mut self) -> Result<Snapshot, NoMemory>
        ensures shown { IfOk result (λ shown. shown ≡ machine.snapshot self.old.desk.cluster) }
        ensures same { self.new ≡ self.old }
    {
        self.desk.look()
    }

    /// Counts the desk's pods.
    ///
    /// Errors: `NoMemory`.
    pub fn count<R: Wait>(&mut self, rt: &R) -> Result<Reply, NoMemory>
        ensures reply { IfOk result (λ reply. reply ≡ machine.reply self.old.desk 0 Count) }
        ensures after { OnOk result (self.new ≡ steps self.old Count) }
    {
        self.answer_step(rt, Step::Count)
    }
}

// A ledger to which nothing was told, and room for the pods to place.
fn tables(
    alloc: Global,
    keys: RandomState,
    limits: Limits,
    known: usize,
) -> Result<(Ledger, NameTable<Offered>), NoMemory>
    requires { known ≤ 1000000 }
    ensures ledger { IfOk result (λ made. made.0 ≡ ledger_opening limits known) }
    ensures offered { IfOk result (λ made. made.1 ≡ replicate limits.queued None) }
{
    // (of the two the ledger takes longer to drop)
    let Ok(offered) = NameTable::new(alloc, keys, limits.queued) else {
        return Err(NoMemory);
    };
    match Ledger::new(alloc, keys, limits, known) {
        Ok(ledger) => Ok((ledger, offered)),
        Err(_) => Err(NoMemory),
    }
}

// Whether what was told was taken, or a bind may be asked for.
fn takes(answer: Answer) -> bool
    ensures { result ≡ takes answer }
{
    matches!(answer, Answer::Told | Answer::Granted(_))
}
