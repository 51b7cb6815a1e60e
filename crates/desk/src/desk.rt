//! The desk that many passes share, from any thread.
ghost use Rattle.std.specs.Prelude.{◌≡◌, ◌≤◌, ◌+◌, [], IfOk, OnOk, OnErr, IsErr};
ghost use Rattle.desk.specs.Caller.{IsTimely};
ghost use Rattle.desk.specs.Machine.{given, popped};
ghost use Rattle.desk.specs.Shared.{IsPassOf, IsApplied, IsLooked, Met, Closed};
ghost use Rattle.desk.specs.declared.limits.TheConstants.{MAX_PASSES, MAX_CALLS};

use crate::history::{Blank, Head, Naming, Prefix};
use crate::limits::{MAX_PASSES, NoPlace};
use crate::pass::Pass;
use crate::snapshot::Snapshot;
use crate::step::{Counts, Reply, Step};
use crate::under_lock::UnderLock;
use book::{Book, Limits, NoMemory, Refusal};
use quant::{Name, Request, SharedPod, Ticket};
use std::alloc::Global;
use std::hash::RandomState;
use std::hint::spin_loop;
use std::marker::Model;
use std::sync::{Mutex, MutexGuard, Wait};

// How often the lock is tried before a thread sleeps: some tens of steps. In the pauses between two
// tries it isn't looked at, since each look takes the memory around it from the thread that has it.
const TRIES: u32 = 100;

const PAUSES: u32 = 10;

/// A desk that many passes share, each from one thread at a time. A step is decided, written and
/// published under the one lock; a look reads what is published, without the lock, and waits for
/// nobody.
///
/// It isn't `Drop`: end it by `close` or `discard`.
pub struct Desk<J: Naming> {
    head: Head<J>,
    nothing: Prefix,
    // It is there, but while a call under the lock has it.
    lock: Mutex<Option<UnderLock<J>>>,
    handed: usize,
}

impl<J: Naming> Model for Desk<J> {
    ghost use Rattle.std.specs.Prelude.{◌≡◌, ◌≤◌, []};
    ghost use Rattle.desk.specs.Shared.{Desk as Lent};
    ghost use Rattle.desk.specs.inside.SharedCodes.{desk_code};
    ghost use Rattle.desk.specs.declared.limits.TheConstants.{MAX_PASSES};

    ghost Value = { Lent };

    ghost coded = { desk_code };

    ghost view = { λ d. record { limits = J.limits; handed = d.handed } };

    ghost invariant = { λ d. (d.handed ≤ MAX_PASSES) × (d.nothing ≡ record { book = J.book; list = [] }) };
}

impl<J: Naming> Desk<J> {
    /// A desk with no nodes and no pods, that has handed out no pass, over a history that is empty
    /// yet. Names are looked up under the keys, so that nobody can choose names that are slow to
    /// look up.
    ///
    /// Errors: `NoMemory`.
    pub fn new(
        blank: Blank,
        alloc: Global,
        keys: RandomState,
        limits: Limits,
    ) -> Result<Self, NoMemory>
        requires named { blank.seen.book ≡ J.book }
        requires limits { limits ≡ J.limits }
        ensures { IfOk result (λ desk. desk ≡ record { limits = limits; handed = 0 }) }
    {
        Desk::for_passes(blank, alloc, keys, limits, MAX_PASSES)
    }

    /// The same for one to `MAX_PASSES` passes, with a reader's place for each and no more: a call
    /// that is published goes through all readers' places, whether they were handed out or not.
    ///
    /// Errors: `NoMemory`.
    pub fn for_passes(
        blank: Blank,
        alloc: Global,
        keys: RandomState,
        limits: Limits,
        passes: usize,
    ) -> Result<Self, NoMemory>
        requires named { blank.seen.book ≡ J.book }
        requires limits { limits ≡ J.limits }
        ensures { IfOk result (λ desk. desk ≡ record { limits = limits; handed = 0 }) }
    {
        let (head, nothing) = blank.named::<J>();
        let readers = passes.max(1).min(MAX_PASSES);
        let Ok(held) = UnderLock::new(alloc, keys, limits, &nothing, readers) else {
            return Err(NoMemory);
        };
        Ok(Desk {
            head,
            nothing,
            lock: Mutex::new(Some(held)),
            handed: 0,
        })
    }

    /// Hands out a pass, which has made no call and seen nothing. All passes are handed out before
    /// the desk is shared.
    ///
    /// Errors: `NoPlace` where all were handed out, and where no reader's place was got; nothing
    /// changes.
    pub fn pass(&mut self) -> Result<Pass<J>, NoPlace>
        ensures pass { IfOk result (λ pass. pass ≡ record {
          caller = record { number = self.old.handed; calls = 0 };
          seen = [];
        }) }
        ensures handed { OnOk result (self.new ≡ record self.old { handed = self.old.handed + 1 }) }
        ensures of { IfOk result (λ pass. IsPassOf pass self.new) }
        ensures all_handed { self.old.handed ≡ MAX_PASSES → IsErr result }
        ensures err { OnErr result (self.new ≡ self.old) }
    {
        if self.handed == MAX_PASSES {
            return Err(NoPlace);
        }
        let Some(held) = self.lock.get_mut() else {
            return Err(NoPlace);
        };
        let Ok(reader) = held.reader() else {
            return Err(NoPlace);
        };
        let pass = Pass::new(self.handed, self.nothing.again(), reader);
        self.handed += 1;
        Ok(pass)
    }

    /// Does a step, or refuses it and changes nothing but the pass's count of calls. It waits for
    /// the lock.
    ///
    /// Errors: `NoMemory` where `MAX_CALLS` calls of the pass were answered, where a popped pod or
    /// a node that is told of can have no further owner, where places expire and there is no memory
    /// for what is used of each node, and where there is no room to publish a call; nothing
    /// changes.
    pub fn apply<R: Wait>(&self, rt: &R, pass: &mut Pass<J>, step: Step) -> Result<Reply, NoMemory>
        requires of { IsPassOf pass.old self.now }
        requires timely { IsTimely step }
        ensures applied { IfOk result (λ answer. IsApplied self.now pass.old step answer pass.new) }
        ensures used_up { MAX_CALLS ≤ pass.old.caller.calls → IsErr result }
        ensures err { OnErr result (pass.new ≡ pass.old) }
    {
        let mut place = self.held(rt);
        let answer = match place.take() {
            None => {
                // (dropped by a call, whose proof stands elsewhere)
                drop(step);
                Err(NoMemory)
            }
            Some(held) => {
                let (held, answer) = held.apply(rt, &self.head, self.handed, pass, step);
                put_back(rt, &mut *place, held);
                answer
            }
        };
        MutexGuard::unlock(place);
        answer
    }

    /// Pops a pod to place, where one waits: it is the pass's, until it is placed, fails or goes.
    ///
    /// Errors: as those of `apply`.
    pub fn pop<R: Wait>(&self, rt: &R, pass: &mut Pass<J>) -> Result<Option<SharedPod>, NoMemory>
        requires { IsPassOf pass.old self.now }
        ensures popped { IfOk result (λ pod. IsApplied self.now pass.old Step.Pop (popped pod) pass.new) }
        ensures used_up { MAX_CALLS ≤ pass.old.caller.calls → IsErr result }
        ensures err { OnErr result (pass.new ≡ pass.old) }
    {
        let Ok(reply) = self.apply(rt, pass, Step::Pop) else {
            return Err(NoMemory);
        };
        match reply {
            Reply::Popped(pod) => Ok(Some(pod)),
            _ => Ok(None),
        }
    }

    /// Assumes a pod that the pass popped on the node that was chosen for it, which a ticket then
    /// names; or tells why it is refused.
    ///
    /// Errors: as those of `apply`.
    pub fn assume<R: Wait>(
        &self,
        rt: &R,
        pass: &mut Pass<J>,
        uid: Name,
        node: Name,
    ) -> Result<Result<Ticket, Refusal>, NoMemory>
        requires { IsPassOf pass.old self.now }
        ensures assumed { IfOk result (λ ticket. IsApplied self.now pass.old (Step.Assume uid node) (given ticket)
            pass.new) }
        ensures used_up { MAX_CALLS ≤ pass.old.caller.calls → IsErr result }
        ensures err { OnErr result (pass.new ≡ pass.old) }
    {
        let Ok(reply) = self.apply(rt, pass, Step::Assume { uid, node }) else {
            return Err(NoMemory);
        };
        match reply {
            Reply::Ticket(ticket) => Ok(Ok(ticket)),
            Reply::Refused(why) => Ok(Err(why)),
            _ => unreachable!(),
        }
    }

    /// Tells the desk's numbers.
    ///
    /// Errors: as those of `apply`.
    pub fn count<R: Wait>(&self, rt: &R, pass: &mut Pass<J>) -> Result<Counts, NoMemory>
        requires { IsPassOf pass.old self.now }
        ensures counted { IfOk result (λ counts. IsApplied self.now pass.old Step.Count (Reply.Counts counts)
            pass.new) }
        ensures used_up { MAX_CALLS ≤ pass.old.caller.calls → IsErr result }
        ensures err { OnErr result (pass.new ≡ pass.old) }
    {
        let Ok(reply) = self.apply(rt, pass, Step::Count) else {
            return Err(NoMemory);
        };
        match reply {
            Reply::Counts(counts) => Ok(counts),
            _ => unreachable!(),
        }
    }

    // Takes the lock. A step takes less time than a thread to go to sleep, so it is tried for a
    // while first.
    fn held<R: Wait>(&self, rt: &R) -> MutexGuard<'_, Option<UnderLock<J>>> {
        for _ in 0..TRIES {
            if let Some(place) = self.lock.try_lock() {
                return place;
            }
            for _ in 0..PAUSES {
                spin_loop();
            }
        }
        self.lock.lock(rt)
    }

    /// Shows the nodes and what is used of them, as they are published. It takes no lock and waits
    /// for nobody. It copies the totals of each node, and a pointer to each; but no pointer where
    /// the pass's last snapshot was dropped, and no call since then told of a node; and then only
    /// what the pass's own calls changed, where they are few and no other pass made one.
    ///
    /// Errors: `NoMemory`; nothing changes.
    pub fn look(&self, pass: &mut Pass<J>) -> Result<Snapshot, NoMemory>
        requires of { IsPassOf pass.old self.now }
        ensures looked { IfOk result (λ shown. IsLooked self.now pass.old shown pass.new) }
        ensures err { OnErr result (pass.new ≡ pass.old) }
    {
        pass.look(self.handed, None)
    }

    /// Shows the same, and seeks what goes first among the plain nodes for pods of a request: what
    /// nodes are worth to the requests that came last is kept from one look of a pass to the next,
    /// and nodes of which something else is used are judged again. Memory is taken for that, and
    /// where there is none nothing is sought.
    ///
    /// Errors: as those of `look`.
    pub fn look_for(&self, pass: &mut Pass<J>, request: Request) -> Result<Snapshot, NoMemory>
        requires of { IsPassOf pass.old self.now }
        ensures looked { IfOk result (λ shown. IsLooked self.now pass.old shown pass.new) }
        ensures err { OnErr result (pass.new ≡ pass.old) }
    {
        pass.look(self.handed, Some(request))
    }

    /// Tells each of two passes what the other has seen: both then have seen one history. It waits
    /// for the lock.
    pub fn meet<R: Wait>(&self, rt: &R, first: &mut Pass<J>, second: &mut Pass<J>)
        requires first { IsPassOf first.old self.now }
        requires second { IsPassOf second.old self.now }
        ensures { Met self.now first.old second.old first.new second.new }
    {
        for _ in rt.forever() {
            let place = self.lock.lock(rt);
            let have_met = match place.as_ref() {
                Some(held) => held.meet(self.handed, first, second),
                None => false,
            };
            MutexGuard::unlock(place);
            if have_met {
                return;
            }
        }
        unreachable!()
    }

    /// Ends the desk, and gives its book. The pass then has seen the history that left the book so:
    /// all calls that it made or was told of are among it.
    pub fn close<R: Wait>(self, rt: &R, pass: &mut Pass<J>) -> Book
        requires { IsPassOf pass.old self }
        ensures { Closed self pass.old pass.new result }
    {
        let Desk {
            head: _head,
            nothing: _nothing,
            lock,
            handed,
        } = self;
        if let Some(held) = lock.into_inner() {
            return held.close(rt, handed, pass);
        }
        for _ in rt.forever() {}
        unreachable!()
    }

    /// Ends the desk, and drops its book.
    pub fn discard<R: Wait>(self, rt: &R) {
        let Desk {
            head: _head,
            nothing: _nothing,
            lock,
            handed: _,
        } = self;
        if let Some(held) = lock.into_inner() {
            held.discard(rt);
        }
    }
}

// What was taken from under the lock is there again.
fn put_back<J: Naming, R: Wait>(rt: &R, place: &mut Option<UnderLock<J>>, held: UnderLock<J>) {
    if let Some(other) = place.replace(held) {
        other.discard(rt);
    }
}
