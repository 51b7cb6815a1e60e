//! The book: the nodes, the places, the version of the last event and the last ticket.
ghost use Rattle.std.specs.Prelude.{◌≡◌, ℕ, ◌≤◌, List, IfOk, IfErr, IfSome, IfNone, MatchResult, map, length, nat_le, Bool, true, false, not, ◌∷◌, [], Ok, Err, if◌then◌else◌};
ghost use Rattle.std.specs.Bool.{IsTrue};
ghost use Rattle.std.specs.Option.{option_copied};
ghost use Rattle.std.specs.Result.{result_err};
ghost use Rattle.std.specs.FinMap as fin;
ghost use Rattle.book.specs.declared.step.Reply.TheVariants as replies;

mod slots;

use crate::NoMemory;
use crate::entry::Entry;
use crate::limits::Limits;
use crate::nodes::Nodes;
use crate::place::{Place, Status};
use crate::places::Places;
use crate::refusal::Refusal;
use crate::step::{ClusterStep, Reply};
use fit::fits;
use quant::{
    Event, MAX_TICKET, Moment, Name, Request, Res, SharedNode, SharedPod, Ticket, Version,
};
use std::alloc::Global;
use std::hash::RandomState;
use std::marker::Model;

/// What is known of a cluster: its nodes, and where its pods are placed.
///
/// Places stay when their node goes, and a pod may be placed on a node that isn't there yet.
pub struct Book {
    limits: Limits,
    version: Version,
    nodes: Nodes,
    places: Places,
    ticket: Ticket,
}

impl Model for Book {
    ghost use Rattle.book.specs.Cluster.{Cluster};

    ghost Value = { Cluster };

    ghost use Rattle.book.specs.inside.Codes.{cluster_code};

    ghost coded = { cluster_code };

    ghost use Rattle.std.specs.Prelude.{◌≡◌};
    ghost use Rattle.book.specs.inside.Tables.{IsShown};
    ghost use Rattle.book.specs.Used.{used};

    ghost view = { λ b. record { limits = b.limits; version = b.version.0; nodes = b.nodes.map; places = b.places.map; ticket = b.ticket.0 } };

    ghost invariant = { λ b. (b.nodes.room ≡ b.limits.nodes) × (b.places.room ≡ b.limits.placed) × IsShown (used b.places.map) b.nodes };
}

impl Book {
    ghost use Rattle.quant.specs.declared.event.Event.TheVariants as event;
    ghost use Rattle.book.specs.Cluster.{opening};
    ghost use Rattle.book.specs.Rows.{named, rows_in, IsRowOf, IsGapFor};
    ghost use Rattle.book.specs.Used.{used, assumed, bound};
    ghost use Rattle.book.specs.Step.{IsTaken, is_old, after, reply, next_ticket, first_of, is_placed, is_there, fits_row, refusal_by_ticket, without_place};
    ghost use Rattle.book.specs.Expiry.{is_expired, IsFirstExpired, NoneExpired};
    ghost use Rattle.book.specs.declared.step.ClusterStep.TheVariants as steps;

    /// An empty book, with room for as much as the limits say. It is the one call of a book that
    /// takes memory. The keys are of the hash by which names are found, and nobody who chooses
    /// names is to know them.
    ///
    /// Errors: `NoMemory`.
    pub fn new(alloc: Global, keys: RandomState, limits: Limits) -> Result<Self, NoMemory>
        ensures { IfOk result (λ book. book ≡ opening limits) }
    {
        let Ok(nodes) = Nodes::new(alloc, limits.nodes) else {
            return Err(NoMemory);
        };
        let Ok(places) = Places::new(alloc, keys, limits.placed) else {
            return Err(NoMemory);
        };
        Ok(Book {
            limits,
            version: Version(0),
            nodes,
            places,
            ticket: Ticket(0),
        })
    }

    /// Takes a step, or refuses it and changes nothing, as the call does that is for it.
    ///
    /// No call that takes a step takes memory. The time of a look-up among places doesn't depend on
    /// how many there are; that of one among nodes grows with the logarithm of their number.
    pub fn step(&mut self, step: ClusterStep) -> Reply
        ensures reply { result ≡ reply self.old step }
        ensures after { self.new ≡ after self.old step }
    {
        match step {
            ClusterStep::Event {
                event,
                queued,
                queue_full,
            } => self.answer_event(event, queued, queue_full),
            ClusterStep::Assume { uid, node, entry } => match self.assume(uid, node, entry) {
                Ok(ticket) => Reply::Ticket(ticket),
                Err(why) => Reply::Refused(why),
            },
            ClusterStep::BindDone {
                uid,
                ticket,
                at,
                queued,
            } => said(self.finish(&uid, ticket, at, queued)),
            ClusterStep::Forget {
                uid,
                ticket,
                queued,
            } => said(self.forget(&uid, ticket, queued)),
        }
    }

    // Takes an event, with its answer.
    fn answer_event(&mut self, event: Event, queued: bool, queue_full: bool) -> Reply
        ensures reply { result ≡ reply self.old (steps.Event event queued queue_full) }
        ensures after { self.new ≡ after self.old (steps.Event event queued queue_full) }
    {
        match event {
            Event::PodPending { version, pod } => {
                match self.await_pod(version, pod, queued, queue_full) {
                    Ok(pod) => Reply::Queue(pod),
                    Err(why) => Reply::Refused(why),
                }
            }
            event => said(self.take_event(event, queued, queue_full)),
        }
    }

    /// Takes an event, or refuses it and changes nothing, as the call does that is for it.
    ///
    /// No call that takes a step takes memory. The time of a look-up among places doesn't depend on
    /// how many there are; that of one among nodes grows with the logarithm of their number.
    pub fn take_event(
        &mut self,
        event: Event,
        queued: bool,
        queue_full: bool,
    ) -> Result<(), Refusal>
        ensures { IsTaken self.old (steps.Event event queued queue_full) result self.new }
    {
        match event {
            Event::NodeSet { version, node } => self.set_node(version, node),
            Event::NodeGone { version, name } => self.remove_node(version, &name),
            Event::PodPending { version, pod } => {
                match self.await_pod(version, pod, queued, queue_full) {
                    Ok(_) => Ok(()),
                    Err(why) => Err(why),
                }
            }
            Event::PodBound {
                version,
                uid,
                node,
                request,
            } => self.bind_pod(version, uid, node, request),
            Event::PodGone { version, uid } => self.remove_pod(version, &uid, queued),
        }
    }

    // Whether an event comes too late.
    fn is_old(&self, version: Version) -> bool
        ensures { result ≡ is_old self.now version }
    {
        version <= self.version
    }

    /// A node has this row from now on.
    pub fn set_node(&mut self, version: Version, node: SharedNode) -> Result<(), Refusal>
        ensures { IsTaken self.old (steps.Event (event.NodeSet version node) false false) result self.new }
    {
        if self.is_old(version) {
            return Err(Refusal::Old);
        }
        let used = self.places.used(&node.name);
        self.nodes.set(node, used)?;
        self.version = version;
        Ok(())
    }

    /// A node's row goes. The places there stay.
    pub fn remove_node(&mut self, version: Version, name: &Name) -> Result<(), Refusal>
        ensures { IsTaken self.old (steps.Event (event.NodeGone version name.now) false false) result self.new }
    {
        if self.is_old(version) {
            return Err(Refusal::Old);
        }
        let Ok(()) = self.nodes.remove(name) else {
            return Err(Refusal::NoNode);
        };
        self.version = version;
        Ok(())
    }

    /// A pod waits for a place. It is given back, and the queue's to keep.
    pub fn await_pod(
        &mut self,
        version: Version,
        pod: SharedPod,
        queued: bool,
        queue_full: bool,
    ) -> Result<SharedPod, Refusal>
        ensures taken { IsTaken self.old (steps.Event (event.PodPending version pod) queued queue_full) result
            self.new }
        ensures pod { IfOk result (λ same. same ≡ pod) }
    {
        if self.is_old(version) {
            return Err(Refusal::Old);
        }
        if queued || self.places.has(&pod.uid) {
            return Err(Refusal::Known);
        }
        if queue_full {
            return Err(Refusal::Full);
        }
        self.version = version;
        Ok(pod)
    }

    /// A pod is bound to a node, in place of where it was.
    pub fn bind_pod(
        &mut self,
        version: Version,
        uid: Name,
        node: Name,
        request: Request,
    ) -> Result<(), Refusal>
        ensures { IsTaken self.old (steps.Event (event.PodBound version uid node request) false false) result self.new }
    {
        if self.is_old(version) {
            return Err(Refusal::Old);
        }
        let place = Place {
            node,
            request,
            status: Status::Bound,
        };
        let Ok(()) = self.places.put(&mut self.nodes, uid, place) else {
            return Err(Refusal::Full);
        };
        self.version = version;
        Ok(())
    }

    /// A pod is gone, and its place with it.
    pub fn remove_pod(&mut self, version: Version, uid: &Name, queued: bool) -> Result<(), Refusal>
        ensures { IsTaken self.old (steps.Event (event.PodGone version uid.now) queued false) result self.new }
    {
        if self.is_old(version) {
            return Err(Refusal::Old);
        }
        if !self.places.remove(&mut self.nodes, uid) && !queued {
            return Err(Refusal::Gone);
        }
        self.version = version;
        Ok(())
    }

    /// A pod that a pass holds is placed on a node where it fits now. The ticket names the choice.
    pub fn assume(&mut self, uid: Name, node: Name, entry: Entry) -> Result<Ticket, Refusal>
        ensures taken { IsTaken self.old (steps.Assume uid node entry) result self.new }
        ensures ticket { IfOk result (λ ticket. ticket ≡ next_ticket self.old) }
    {
        if self.places.has(&uid) {
            return Err(Refusal::Placed);
        }
        let request = match entry {
            Entry::Missing => return Err(Refusal::Gone),
            Entry::Elsewhere => return Err(Refusal::NotInFlight),
            Entry::Held(request) => request,
        };
        if let Err(why) = self.check_fit(&node, request) {
            return Err(why);
        }
        if self.ticket.0 >= MAX_TICKET {
            return Err(Refusal::Full);
        }
        let ticket = Ticket(self.ticket.0 + 1);
        let place = Place {
            node,
            request,
            status: Status::Assumed {
                ticket,
                finished: None,
            },
        };
        let Ok(()) = self.places.put(&mut self.nodes, uid, place) else {
            return Err(Refusal::Full);
        };
        self.ticket = ticket;
        Ok(ticket)
    }

    // Whether a pod with this request fits on a node now, by what the places there use.
    fn check_fit(&self, node: &Name, request: Request) -> Result<(), Refusal>
        ensures { result_err result ≡ first_of ((not (is_there self.now node.now), Refusal.NoNode) ∷
            (not (fits_row self.now node.now request (fin.get self.now.nodes node.now)), Refusal.NoRoom) ∷ []) }
    {
        let Some(row) = self.nodes.get(node) else {
            return Err(Refusal::NoNode);
        };
        let used = self.places.used(node);
        if fits(row.allocatable, used, request).is_err() {
            return Err(Refusal::NoRoom);
        }
        Ok(())
    }

    // Whether the pod has an assumed place that this ticket names, and whose bind wasn't reported
    // done.
    fn check_ticket(&self, uid: &Name, ticket: Ticket, queued: bool) -> Result<(), Refusal>
        ensures { result_err result ≡ refusal_by_ticket self.now uid.now ticket queued }
    {
        match self.places.get(uid) {
            None if queued => Err(Refusal::StaleTicket),
            None => Err(Refusal::Gone),
            Some(place) => place.status.check(ticket),
        }
    }

    /// A pod's bind is reported done at this moment.
    pub fn finish(
        &mut self,
        uid: &Name,
        ticket: Ticket,
        at: Moment,
        queued: bool,
    ) -> Result<(), Refusal>
        ensures { IsTaken self.old (steps.BindDone uid.now ticket at queued) result self.new }
    {
        match self.check_ticket(uid, ticket, queued) {
            Ok(()) => {
                self.places.finish(uid, at);
                Ok(())
            }
            Err(why) => Err(why),
        }
    }

    /// An assumed place is given up.
    pub fn forget(&mut self, uid: &Name, ticket: Ticket, queued: bool) -> Result<(), Refusal>
        ensures { IsTaken self.old (steps.Forget uid.now ticket queued) result self.new }
    {
        match self.check_ticket(uid, ticket, queued) {
            Ok(()) => {
                self.places.remove(&mut self.nodes, uid);
                Ok(())
            }
            Err(why) => Err(why),
        }
    }

    /// Takes away the expired place with the least uid, and answers that uid: an assumed place
    /// expires where its bind was reported done `EXPIRY` milliseconds before this moment or
    /// earlier. It takes no memory.
    ///
    /// Where nothing expires, the time is that of one comparison for each 4,096 places that there
    /// is room for. What expires at a moment is found and put in order at the first call for it, in
    /// time that grows with its number and that number's logarithm; each call then takes one place
    /// out.
    pub fn expire(&mut self, now: Moment) -> Option<Name>
        ensures first { IfSome result (IsFirstExpired self.old.places now) }
        ensures gone { IfSome result (λ uid. self.new ≡ without_place self.old uid) }
        ensures none { IfNone result (NoneExpired self.old.places now) }
        ensures unchanged { IfNone result (self.new ≡ self.old) }
    {
        self.places.expire(&mut self.nodes, now)
    }

    /// Whether a place expires at this moment, so that `expire` would answer a uid. The time is as
    /// there where nothing expires.
    pub fn expires(&self, now: Moment) -> bool
        ensures some { IsTrue result → (uid : List ℕ) × (is_expired self.now.places now uid ≡ true) }
        ensures none { result ≡ false → NoneExpired self.now.places now }
    {
        self.places.expires(now)
    }

    /// A pod's place.
    pub fn place_of(&self, uid: &Name) -> Option<&Place>
        ensures { option_copied result ≡ fin.get self.now.places uid.now }
    {
        self.places.get(uid)
    }

    /// Where a node's row is among the rows, or where it would go. A node with pods is found at
    /// once, where no rows came or went since the last step that placed or took one there.
    pub fn find_row(&self, node: &Name) -> Result<usize, usize>
        ensures found { IfOk result (IsRowOf (rows_in self.now.nodes) node.now) }
        ensures absent { IfErr result (IsGapFor (rows_in self.now.nodes) node.now) }
        ensures in_range { IfErr result (λ at. at ≤ length (rows_in self.now.nodes)) }
        ensures listed { named (rows_in self.now.nodes) ≡ fin.entries self.now.nodes }
    {
        if self.nodes.is_last(node) {
            return self.nodes.find(node, None);
        }
        self.nodes.find(node, self.places.total_slot(node))
    }

    /// Whether a pod has a place.
    pub fn is_placed(&self, uid: &Name) -> bool
        ensures { result ≡ is_placed self.now uid.now }
    {
        self.places.has(uid)
    }

    /// The limits that the book was made with.
    pub fn limits(&self) -> Limits
        ensures { result ≡ self.now.limits }
    {
        self.limits
    }

    /// The version of the last accepted event, and 0 before the first.
    pub fn version(&self) -> Version
        ensures { result.0 ≡ self.now.version }
    {
        self.version
    }

    /// The rows of the nodes, in the order of their names' bytes.
    pub fn rows(&self) -> &[SharedNode]
        ensures { named result.now ≡ fin.entries self.now.nodes }
    {
        self.nodes.rows()
    }

    /// What the pods on each node use together, in the order of the rows.
    pub fn used_of_rows(&self) -> &[Res]
        ensures { result.now ≡ map (λ e. used self.now.places e.0) (fin.entries self.now.nodes) }
    {
        self.nodes.used()
    }

    /// What the pods on a node use together, whether the node is there or not.
    pub fn used(&self, node: &Name) -> Res
        ensures { result ≡ used self.now.places node.now }
    {
        self.places.used(node)
    }

    /// How many places the cluster told.
    pub fn bound(&self) -> usize
        ensures { result ≡ bound self.now.places }
    {
        self.places.bound()
    }

    /// How many places are assumed.
    pub fn assumed(&self) -> usize
        ensures { result ≡ assumed self.now.places }
    {
        self.places.assumed()
    }
}

// By hand, so that who drops a book calls this, and its parts' drops are proved here alone.
impl Drop for Book {
    fn drop(self) {
        let Self {
            limits: _,
            version: _,
            nodes: _nodes,
            places: _places,
            ticket: _,
        } = self;
    }
}

// What there is to say of a step that was done or refused.
fn said(done: Result<(), Refusal>) -> Reply
    ensures { MatchResult done (λ _. result ≡ replies.Done) (λ why. result ≡ replies.Refused why) }
{
    match done {
        Ok(()) => Reply::Done,
        Err(why) => Reply::Refused(why),
    }
}
