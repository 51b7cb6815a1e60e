//! The state of a desk, and each step on it. It has one owner: what passes share it by is a lock,
//! and a board for looks.
ghost use Rattle.std.specs.Prelude.{◌≡◌, ◌≢◌, ◌≤◌, ◌<◌, ◌+◌, ℕ, map, IfOk, IfSome, IsErr, IsSome, slice_index};
ghost use Rattle.std.specs.Bool.{IsTrue};
ghost use Rattle.book.specs.Expiry.{any_expired, without_expired};
ghost use Rattle.desk.specs.Machine.{after_expiry};
ghost use Rattle.desk.specs.declared.limits.TheConstants.{MAX_CALLS};

mod noting;

use crate::limits::MAX_PASSES;
use crate::step::{Counts, Reply, Step};
use book::{Book, Entry, Limits, NoMemory, Refusal};
use quant::{Event, LATEST_MOMENT, Moment, Name, Request, SharedNode, SharedPod, Ticket, Version};
use queue::{Failure, PassNumber, Queue};
use std::alloc::Global;
use std::hash::RandomState;
use std::marker::Model;

/// Book, queue and clock, and how many calls of each pass were answered. Each step is done or
/// refused here.
#[derive(Drop)]
pub struct Core {
    alloc: Global,
    book: Book,
    queue: Queue,
    clock: Moment,
    calls: [u64; MAX_PASSES],
}

impl Model for Core {
    ghost use Rattle.desk.specs.inside.Caller.{Core as State};

    ghost Value = { State };

    ghost use Rattle.desk.specs.inside.Codes.{core_code};

    ghost coded = { core_code };

    ghost use Rattle.std.specs.Prelude.{◌≡◌, ◌≤◌, length};
    ghost use Rattle.quant.specs.declared.limits.TheConstants.{LATEST_MOMENT};
    ghost use Rattle.desk.specs.declared.limits.TheConstants.{MAX_PASSES};

    ghost view = { λ d. record { state = record { cluster = d.book; queue = d.queue; clock = d.clock; calls = d.calls } } };

    ghost invariant = { λ d. (length d.calls ≡ MAX_PASSES) × (d.clock.0 ≤ LATEST_MOMENT) };
}

impl Core {
    ghost use Rattle.desk.specs.Caller.{IsTimely};
    ghost use Rattle.desk.specs.inside.Caller.{new_core, with_state, handed_by};
    ghost use Rattle.desk.specs.Machine.{entry_for, counts, reply, after, snapshot};
    ghost use Rattle.desk.specs.Machine as machine;
    ghost use Rattle.desk.specs.inside.Done.{IsSaid};
    ghost use Rattle.queue.specs.Queue.{has_entry, after_remove};
    ghost use Rattle.queue.specs.Queue as queue;

    /// No nodes and no pods. Names are looked up under the keys, so that nobody can choose names
    /// that are slow to look up.
    ///
    /// Errors: `NoMemory`.
    pub(crate) fn new(alloc: Global, keys: RandomState, limits: Limits) -> Result<Self, NoMemory>
        ensures { IfOk result (λ core. core ≡ new_core limits) }
    {
        let Ok(book) = Book::new(alloc, keys, limits) else {
            return Err(NoMemory);
        };
        match Queue::new(alloc, keys, limits.queued) {
            Ok(queue) => Ok(Core {
                alloc,
                book,
                queue,
                clock: Moment(0),
                calls: [0; MAX_PASSES],
            }),
            Err(_) => {
                // (dropped by a call, whose proof stands elsewhere)
                drop(book);
                Err(NoMemory)
            }
        }
    }

    // A node's row is set, and there is a move.
    fn set_node(&mut self, version: Version, node: SharedNode) -> Reply
        ensures { IsSaid self.old 0 (Step.Event (Event.NodeSet version node)) result self.new }
    {
        if let Err(why) = self.book.set_node(version, node) {
            return Reply::Refused(why);
        }
        self.queue.move_all(self.clock);
        Reply::Done
    }

    // A node is gone, and there is no move.
    fn drop_node(&mut self, version: Version, name: &Name) -> Reply
        ensures { IsSaid self.old 0 (Step.Event (Event.NodeGone version name.now)) result self.new }
    {
        if let Err(why) = self.book.remove_node(version, name) {
            return Reply::Refused(why);
        }
        Reply::Done
    }

    // A pod waits for a place: it has an entry from now on.
    fn add_pod(&mut self, version: Version, pod: SharedPod) -> Reply
        ensures { IsSaid self.old 0 (Step.Event (Event.PodPending version pod)) result self.new }
    {
        let queued = self.queue.has(&pod.uid);
        let queue_full = self.queue.is_full();
        match self.book.await_pod(version, pod, queued, queue_full) {
            Ok(pod) => {
                let _ = self.queue.add(pod, self.clock);
                Reply::Done
            }
            Err(why) => Reply::Refused(why),
        }
    }

    // A pod's entry goes, if there is one.
    fn unqueue(&mut self, queued: bool, uid: &Name)
        requires { queued ≡ has_entry self.old.state.queue uid.now }
        ensures { self.new ≡ with_state self.old (record self.old.state
            { queue = after_remove self.old.state.queue uid.now }) }
    {
        if queued {
            self.queue.remove(uid);
        }
    }

    // A pod is bound: it is there, in place of where it was, and its entry goes.
    fn bind_pod(&mut self, version: Version, uid: Name, node: Name, request: Request) -> Reply
        ensures { IsSaid self.old 0 (Step.Event (Event.PodBound version uid node request)) result self.new }
    {
        let bound = uid.copied();
        let queued = self.queue.has(&uid);
        if let Err(why) = self.book.bind_pod(version, uid, node, request) {
            return Reply::Refused(why);
        }
        self.unqueue(queued, &bound);
        Reply::Done
    }

    // A pod is gone: its place and its entry go, with a move if it had a place.
    fn drop_pod(&mut self, version: Version, uid: &Name) -> Reply
        ensures { IsSaid self.old 0 (Step.Event (Event.PodGone version uid.now)) result self.new }
    {
        let was_placed = self.book.is_placed(uid);
        let queued = self.queue.has(uid);
        if let Err(why) = self.book.remove_pod(version, uid, queued) {
            return Reply::Refused(why);
        }
        self.queue.remove(uid);
        if was_placed {
            self.queue.move_all(self.clock);
        }
        Reply::Done
    }

    // What the queue has of a pod that a pass wants to place.
    fn entry_of(&self, pass: PassNumber, uid: &Name) -> Entry
        ensures { result ≡ entry_for pass (queue.entry_of self.now.state.queue uid.now) }
    {
        match self.queue.pod_of(uid) {
            None => Entry::Missing,
            Some(pod) if self.queue.is_in_flight(uid, pass) => Entry::Held(pod.request),
            Some(_) => Entry::Elsewhere,
        }
    }

    // A pod that the pass popped is assumed on a node, and its entry stays in flight.
    fn assume(&mut self, pass: usize, uid: Name, node: Name) -> Reply
        ensures { IsSaid self.old pass (Step.Assume uid node) result self.new }
    {
        let entry = self.entry_of(PassNumber(pass as u64), &uid);
        match self.book.assume(uid, node, entry) {
            Ok(ticket) => Reply::Ticket(ticket),
            Err(why) => Reply::Refused(why),
        }
    }

    // An assumed place is marked as finished now.
    fn finish_bind(&mut self, uid: &Name, ticket: Ticket) -> Reply
        ensures { IsSaid self.old 0 (Step.BindDone uid.now ticket) result self.new }
    {
        let queued = self.queue.has(uid);
        if let Err(why) = self.book.finish(uid, ticket, self.clock, queued) {
            return Reply::Refused(why);
        }
        Reply::Done
    }

    // An assumed place is given up: its entry backs off, and there is a move.
    fn forget(&mut self, uid: &Name, ticket: Ticket) -> Reply
        ensures { IsSaid self.old 0 (Step.Forget uid.now ticket) result self.new }
    {
        let queued = self.queue.has(uid);
        if let Err(why) = self.book.forget(uid, ticket, queued) {
            return Reply::Refused(why);
        }
        let _ = self.queue.forget_back(uid, self.clock);
        self.queue.move_all(self.clock);
        Reply::Done
    }

    // A pass gives a pod back that it popped and found no place for.
    #[tactic(auto, unfolding(queue::specs::Queue::refusal_to_fail, queue::specs::Queue::after_fail))]
    fn fail(&mut self, pass: usize, uid: Name, how: Failure) -> Reply
        ensures { IsSaid self.old pass (Step.Fail uid how) result self.new }
    {
        if self.book.is_placed(&uid) {
            return Reply::Refused(Refusal::Placed);
        }
        if !self.queue.has(&uid) {
            return Reply::Refused(Refusal::Gone);
        }
        match self
            .queue
            .fail(&uid, PassNumber(pass as u64), how, self.clock)
        {
            Ok(()) => Reply::Done,
            Err(_) => Reply::Refused(Refusal::NotInFlight),
        }
    }

    // Time goes on to this moment: what expires goes, with a move if anything does, and what waited
    // long enough is active.
    fn tick(&mut self, now: Moment) -> Reply
        requires { now.0 ≤ LATEST_MOMENT }
        ensures { IsSaid self.old 0 (Step.Tick now) result self.new }
    {
        if now < self.clock {
            return Reply::Refused(Refusal::ClockBack);
        }
        self.clock = now;
        if expire_all(&mut self.book, &mut self.queue, now) {
            self.queue.move_all(now);
        }
        self.queue.tick(now);
        Reply::Done
    }

    // One more owner of the pod that a step hands out, if it hands one out.
    pub(crate) fn pod_for(&self, step: &Step) -> Result<Option<SharedPod>, NoMemory>
        ensures pod { IfOk result (λ pod. pod ≡ handed_by self.now.state step.now) }
        ensures no_memory { IsErr result → IsSome (handed_by self.now.state step.now) }
    {
        if !matches!(step, Step::Pop) {
            return Ok(None);
        }
        match self.queue.peek() {
            None => Ok(None),
            Some(first) => match first.share() {
                Ok(pod) => Ok(Some(pod)),
                Err(_) => Err(NoMemory),
            },
        }
    }

    // The pod that goes first is the pass's now, if there is one: this one.
    #[tactic(auto, unfolding(queue::specs::Queue::after_pop))]
    fn pop(&mut self, pass: usize, first: Option<SharedPod>) -> Reply
        requires { first ≡ handed_by self.old.state Step.Pop }
        ensures { IsSaid self.old pass Step.Pop result self.new }
    {
        let _ = self.queue.pop(PassNumber(pass as u64));
        match first {
            Some(pod) => Reply::Popped(pod),
            None => Reply::Idle,
        }
    }

    // Does a step for a pass, or refuses it, and says so. It takes no memory, and hands out the pod
    // that goes first, if the step hands one out. No call is counted.
    fn do_step(&mut self, pass: usize, step: Step, first: Option<SharedPod>) -> Reply
        requires timely { IsTimely step }
        requires first { first ≡ handed_by self.old.state step }
        ensures { IsSaid self.old pass step result self.new }
    {
        match step {
            Step::Pop => self.pop(pass, first),
            other => self.take_step(pass, other),
        }
    }

    // Does a step for a pass that hands out no pod, or refuses it. No call is counted.
    fn take_step(&mut self, pass: usize, asked: Step) -> Reply
        requires timely { IsTimely asked }
        requires other { asked ≢ Step.Pop }
        ensures { IsSaid self.old pass asked result self.new }
    {
        match asked {
            Step::Event(event) => self.take_event(event),
            Step::Assume { uid, node } => self.assume(pass, uid, node),
            Step::BindDone { uid, ticket } => self.finish_bind(&uid, ticket),
            Step::Forget { uid, ticket } => self.forget(&uid, ticket),
            Step::Fail { uid, how } => self.fail(pass, uid, how),
            Step::Tick(now) => self.tick(now),
            Step::Count => Reply::Counts(self.counts()),
            Step::Pop => unreachable!(),
        }
    }

    // Takes what the watch tells, or refuses it.
    fn take_event(&mut self, event: Event) -> Reply
        ensures { IsSaid self.old 0 (Step.Event event) result self.new }
    {
        match event {
            Event::NodeSet { version, node } => self.set_node(version, node),
            Event::NodeGone { version, name } => self.drop_node(version, &name),
            Event::PodPending { version, pod } => self.add_pod(version, pod),
            Event::PodBound {
                version,
                uid,
                node,
                request,
            } => self.bind_pod(version, uid, node, request),
            Event::PodGone { version, uid } => self.drop_pod(version, &uid),
        }
    }

    fn counts(&self) -> Counts
        ensures { result ≡ counts self.now.state }
    {
        let queued = self.queue.counts();
        let assumed = self.book.assumed();
        Counts {
            bound: self.book.bound(),
            assumed,
            active: queued.active,
            backoff: queued.backoff,
            unschedulable: queued.unschedulable,
            in_flight: queued.in_flight.saturating_sub(assumed),
            clock: self.clock,
            version: self.book.version(),
        }
    }

    /// The book as it is.
    pub(crate) fn into_book(self) -> Book
        ensures { result ≡ self.state.cluster }
    {
        let Core { book, .. } = self;
        book
    }

    // Does a step for a pass, or refuses it, says so, and counts the call. It takes no memory, and
    // hands out the pod that goes first, if the step hands one out.
    pub(crate) fn take_call(&mut self, pass: usize, step: Step, first: Option<SharedPod>) -> Reply
        requires handed { pass < MAX_PASSES }
        requires fits { slice_index self.old.state.calls pass < MAX_CALLS }
        requires timely { IsTimely step }
        requires first { first ≡ handed_by self.old.state step }
        ensures said { result ≡ reply self.old.state pass step }
        ensures after { self.new ≡ with_state self.old (after self.old.state pass step) }
        ensures counted { slice_index self.new.state.calls pass ≡ slice_index self.old.state.calls pass + 1 }
    {
        // A pass's number is within its desk's counts.
        let _ = &self.calls;
        let said = self.do_step(pass, step, first);
        self.calls[pass] += 1;
        said
    }
}

// The places that expire at this moment go, the one with the least uid first, and their pods back
// off from now on. Whether there were any.
fn expire_all(book: &mut Book, queue: &mut Queue, now: Moment) -> bool
    requires { now.0 ≤ LATEST_MOMENT }
    ensures any { result ≡ any_expired book.old.places now }
    ensures book { book.new ≡ without_expired book.old now }
    ensures queue { queue.new ≡ after_expiry queue.old book.old.places now }
{
    let mut any = false;
    while let Some(uid) = book.expire(now) {
        let _ = queue.forget_back(&uid, now);
        any = true;
    }
    any
}
