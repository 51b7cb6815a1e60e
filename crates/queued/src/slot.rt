//! One entry of the queue.
ghost use Rattle.std.specs.Prelude.{◌≡◌, ◌≤◌};
ghost use Rattle.queued.specs.Entry.{new_entry, backoff, backed_off, is_active, is_in_flight, is_in_flight_for, popped, sent_back, failed, ticked, moved_on};
ghost use Rattle.queued.specs.Change.{moment_of, applied, is_due, IsTimelyChange};

use crate::state::{Failure, PassNumber, State};
use quant::{LATEST_MOMENT, Moment, Name, SharedPod};
use std::marker::Model;

/// How long a pod backs off after its first attempt, in milliseconds.
const FIRST_BACKOFF: u64 = 1_000;

/// The longest that a pod backs off, in milliseconds.
const LONGEST_BACKOFF: u64 = 10_000;

/// After how many doublings a pod backs off for the longest time.
const MOST_DOUBLINGS: u32 = 4;

/// How long after its failure an unschedulable pod is released, in milliseconds.
const UNSCHEDULABLE_FOR: u64 = 300_000;

/// How far attempts are counted.
const MOST_ATTEMPTS: u32 = 1_000_000;

/// What becomes of a pod.
#[derive(Clone, Copy)]
pub enum Change {
    /// A pass pops it.
    Pop(PassNumber),
    /// It comes back to back off from this moment on.
    SendBack(Moment),
    /// Its attempt has failed at this moment.
    Fail(Failure, Moment),
    /// Time goes on to this moment.
    Tick(Moment),
    /// Something moved at this moment.
    Move(Moment),
}

/// A pod that waits, with what the queue knows of it.
#[derive(Drop)]
pub struct Slot {
    pod: SharedPod,
    // The pod's, beside the rest: a look at the pod itself is slow.
    priority: i32,
    arrival: Moment,
    attempts: u32,
    state: State,
}

impl Model for Slot {
    ghost use Rattle.std.specs.Prelude.{◌≡◌};
    ghost use Rattle.queued.specs.Entry.{Entry};
    ghost use Rattle.queued.specs.inside.Entry.{IsTimely};

    ghost Value = { Entry };

    ghost view = { λ s. record { pod = s.pod; arrival = s.arrival; attempts = s.attempts; state = s.state } };

    ghost invariant = { λ s. IsTimely s.state × (s.priority ≡ s.pod.priority) };
}

/// How long a pod backs off after so many attempts, in milliseconds.
fn backoff_after(attempts: u32) -> u64
    ensures length { result ≡ backoff attempts }
    ensures bound { result ≤ 10000 }
{
    let doublings = attempts.saturating_sub(1).min(MOST_DOUBLINGS);
    (FIRST_BACKOFF << doublings).min(LONGEST_BACKOFF)
}

/// When a pod has backed off that failed at this moment, after so many attempts.
fn end_of_backoff(failed: Moment, attempts: u32) -> Moment
    requires { failed.0 ≤ LATEST_MOMENT }
    ensures { result ≡ backed_off failed attempts }
{
    Moment(failed.0 + backoff_after(attempts))
}

impl Slot {
    /// A pod that comes now.
    pub fn new(pod: SharedPod, now: Moment) -> Slot
        ensures { result ≡ new_entry pod now }
    {
        Slot {
            priority: pod.priority,
            pod,
            arrival: now,
            attempts: 0,
            state: State::Active,
        }
    }

    /// The pod.
    pub fn pod(&self) -> &SharedPod
        ensures { result.now ≡ self.now.pod }
    {
        &self.pod
    }

    /// The pod, out of its entry.
    pub fn into_pod(self) -> SharedPod
        ensures { result ≡ self.pod }
    {
        self.pod
    }

    /// The pod's priority.
    pub fn priority(&self) -> i32
        ensures { result ≡ self.now.pod.priority }
    {
        self.priority
    }

    /// When the pod came.
    pub fn arrival(&self) -> Moment
        ensures { result ≡ self.now.arrival }
    {
        self.arrival
    }

    /// The moment that the pod waits for, or has waited since.
    pub fn moment(&self) -> Moment
        ensures { result.0 ≡ moment_of self.now.state }
    {
        match self.state {
            State::Backoff(until) => until,
            State::Unschedulable(since) => since,
            State::Active | State::InFlight { .. } => Moment(0),
        }
    }

    /// Where the pod stands.
    pub fn state(&self) -> State
        ensures { result ≡ self.now.state }
    {
        self.state
    }

    /// Whether some pass has popped the pod.
    pub fn is_in_flight(&self) -> bool
        ensures { result ≡ is_in_flight self.now.state }
    {
        self.state.is_in_flight()
    }

    /// Whether this pass has popped the pod.
    pub fn is_in_flight_for(&self, pass: PassNumber) -> bool
        ensures { result ≡ is_in_flight_for pass self.now.state }
    {
        self.state.is_in_flight_for(pass)
    }

    /// A pass pops the pod.
    pub fn pop(&mut self, pass: PassNumber)
        ensures { self.new ≡ popped pass self.old }
    {
        self.attempts = self.attempts.saturating_add(1).min(MOST_ATTEMPTS);
        self.state = State::InFlight { pass, moved: false };
    }

    /// The pod comes back to back off from now on.
    pub fn send_back(&mut self, now: Moment)
        requires { now.0 ≤ LATEST_MOMENT }
        ensures { self.new ≡ sent_back now self.old }
    {
        self.state = State::Backoff(end_of_backoff(now, self.attempts));
    }

    /// The pod's attempt has failed.
    pub fn fail(&mut self, how: Failure, now: Moment)
        requires { now.0 ≤ LATEST_MOMENT }
        ensures { self.new ≡ failed how now self.old }
    {
        let moved = matches!(self.state, State::InFlight { moved: true, .. });
        self.state = if how == Failure::Unschedulable && !moved {
            State::Unschedulable(now)
        } else {
            State::Backoff(end_of_backoff(now, self.attempts))
        };
    }

    /// Whether the pod is released at this moment.
    pub fn is_due(&self, now: Moment) -> bool
        ensures { result ≡ is_due now self.now.state }
    {
        match self.state {
            State::Backoff(until) => until.0 <= now.0,
            State::Unschedulable(since) => now.0.saturating_sub(since.0) >= UNSCHEDULABLE_FOR,
            State::Active | State::InFlight { .. } => false,
        }
    }

    /// Time goes on to this moment.
    pub fn tick(&mut self, now: Moment)
        ensures { self.new ≡ ticked now self.old }
    {
        if self.is_due(now) {
            self.state = State::Active;
        }
    }

    /// Something moved that may let an unschedulable pod in.
    pub fn move_on(&mut self, now: Moment)
        ensures { self.new ≡ moved_on now self.old }
    {
        match self.state {
            State::Unschedulable(since) => {
                let over = end_of_backoff(since, self.attempts);
                self.state = if over.0 <= now.0 {
                    State::Active
                } else {
                    State::Backoff(over)
                };
            }
            State::InFlight { pass, .. } => self.state = State::InFlight { pass, moved: true },
            State::Active | State::Backoff(_) => {}
        }
    }

    /// What a change makes of the pod.
    pub fn apply(&mut self, change: Change)
        requires { IsTimelyChange change }
        ensures { self.new ≡ applied change self.old }
    {
        match change {
            Change::Pop(pass) => self.pop(pass),
            Change::SendBack(now) => self.send_back(now),
            Change::Fail(how, now) => self.fail(how, now),
            Change::Tick(now) => self.tick(now),
            Change::Move(now) => self.move_on(now),
        }
    }
}
