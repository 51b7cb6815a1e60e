//! A worker that stays: it judges the pieces that come, until no more can come.
ghost use Rattle.std.specs.Prelude.{◌≡◌, IfErr, IfSome};
ghost use Rattle.pool.specs.Speaking.{SpeaksFor};

use crate::way::{Holds, Inbox, Outbox, way};
use pieces::{Done, Gate, Job, Site, judge_job};
use rules::Rules;
use std::alloc::{AllocError, Global};
use std::marker::PhantomData;
use std::sync::{Arc, Wait};
use std::thread;
use std::thread::Threads;

/// Each kit on the way to a worker and back is one of the pool's: it says what they say.
pub struct OfPool<J> {
    of: PhantomData<J>,
}

impl<J: Site, K: Rules + Drop> Holds<Job<J, K>> for OfPool<J> {
    ghost use Rattle.pool.specs.Speaking.{SpeaksFor};

    ghost of = { λ m. SpeaksFor J.Says (K.answers m.kit) };
}

impl<J: Site, K: Rules + Drop> Holds<Done<J, K>> for OfPool<J> {
    ghost use Rattle.pool.specs.Speaking.{SpeaksFor};

    ghost of = { λ m. SpeaksFor J.Says (K.answers m.kit) };
}

/// A pool's ends of the ways to a worker and back.
pub struct Hand<J: Site, K: Rules + Drop> {
    jobs: Outbox<Job<J, K>, OfPool<J>>,
    results: Inbox<Done<J, K>, OfPool<J>>,
}

/// A worker's ends of them.
struct Bench<J: Site, K: Rules + Drop> {
    jobs: Inbox<Job<J, K>, OfPool<J>>,
    results: Outbox<Done<J, K>, OfPool<J>>,
}

// (written out, as those of each end are)
impl<J: Site, K: Rules + Drop> Drop for Hand<J, K> {
    fn drop(self) {
        let Self { jobs, results } = self;
        drop(jobs);
        drop(results);
    }
}

impl<J: Site, K: Rules + Drop> Drop for Bench<J, K> {
    fn drop(self) {
        let Self { jobs, results } = self;
        drop(jobs);
        // It is given up last: by that it shows that the worker is gone.
        drop(results);
    }
}

// Makes both ways.
fn ways<J: Site, K: Rules + Drop>(alloc: Global) -> Result<(Hand<J, K>, Bench<J, K>), AllocError> {
    let Ok((jobs, inbox)) = way::<Job<J, K>, OfPool<J>>(alloc) else {
        return Err(AllocError);
    };
    let Ok((outbox, results)) = way::<Done<J, K>, OfPool<J>>(alloc) else {
        return Err(AllocError);
    };
    let hand = Hand { jobs, results };
    let bench = Bench {
        jobs: inbox,
        results: outbox,
    };
    Ok((hand, bench))
}

// Judges the pieces that come.
fn work<J: Site, K: Rules + Drop, G: Gate, R: Wait>(rt: &R, gate: &G, bench: &mut Bench<J, K>) {
    for _ in rt.forever() {
        let Some(job) = bench.jobs.receive(rt) else {
            return;
        };
        let Ok(()) = bench.results.send(rt, judge_job(gate, job)) else {
            return;
        };
    }
}

impl<J: Site, K: Rules + Drop> Hand<J, K> {
    /// Starts a worker.
    ///
    /// Errors: where no memory is left for its channels, or no thread can be started.
    pub fn start<G: Gate + Drop + Send + Sync + 'static, R: Threads + Wait + Copy + Send + 'static>(
        rt: R,
        alloc: Global,
        gate: Arc<G>,
    ) -> Result<Hand<J, K>, AllocError>
    where
        J: Send + Sync + 'static,
        K: Send + 'static,
        K::Notes: Send + 'static,
    {
        let Ok((hand, bench)) = ways(alloc) else {
            return Err(AllocError);
        };
        // It isn't joined: that it is gone shows by its end of the results, which it gives up last.
        let _detached = thread::spawn(&rt, move || {
            let mut bench = bench;
            let gate = gate;
            work::<J, K, G, R>(&rt, &*gate, &mut bench)
        })?;
        Ok(hand)
    }

    /// Sends a piece to the worker.
    ///
    /// Errors: the piece, where the worker is gone.
    pub fn send<R: Wait>(&mut self, rt: &R, job: Job<J, K>) -> Result<(), Job<J, K>>
        requires { SpeaksFor J.Says (K.answers job.kit) }
        ensures { IfErr result (λ back. back ≡ job) }
    {
        self.jobs.send(rt, job)
    }

    /// Waits for a piece that the worker has judged. There is none where the worker is gone.
    pub fn receive<R: Wait>(&mut self, rt: &R) -> Option<Done<J, K>>
        ensures { IfSome result (λ done. SpeaksFor J.Says (K.answers done.kit)) }
    {
        self.results.receive(rt)
    }

    /// Sends no more, and waits until the worker is gone.
    pub fn end<R: Wait>(self, rt: &R) {
        let Hand { jobs, mut results } = self;
        drop(jobs);
        results.outlast(rt);
    }
}
