//! What wakes the cycle threads.
use std::sync::{Condvar, Mutex, Wait};

/// How many feeders a storm has.
pub const FEEDERS: usize = 2;

/// What a feeder's step brought.
#[derive(Clone, Copy)]
pub enum News {
    /// A pod that waits.
    Pod,
    /// A move: pods that were waiting for one may have a place now.
    Move,
}

/// How often the bell was rung, whether a pod has come, and how many feeders have ended.
#[derive(Clone, Copy, PartialEq, Eq)]
pub struct Heard {
    rings: u64,
    any_pod: bool,
    ended: usize,
}

impl Heard {
    /// Whether all feeders have ended.
    pub fn is_last(self) -> bool {
        self.ended >= FEEDERS
    }
}

/// A cycle thread that finds no pod waits for the next ring, and doesn't ask the desk again and
/// again: each Pop is published. It remembers what it heard before it asks, so that no ring falls
/// between. Whoever is woken makes cycles until it finds no pod again, so one is enough for a pod.
#[derive(Drop)]
pub struct Bell {
    heard: Mutex<Heard>,
    rung: Condvar,
}

impl Bell {
    pub fn new() -> Bell {
        Bell {
            heard: Mutex::new(Heard {
                rings: 0,
                any_pod: false,
                ended: 0,
            }),
            rung: Condvar::new(),
        }
    }

    /// What was heard so far.
    pub fn heard<R: Wait>(&self, rt: &R) -> Heard {
        *self.heard.lock(rt)
    }

    /// A step was done that brought this. A move brings nothing where no pod has come: where one
    /// comes meanwhile, it is rung for.
    pub fn ring<R: Wait>(&self, rt: &R, news: News) {
        let mut heard = self.heard.lock(rt);
        match news {
            News::Pod => {
                heard.any_pod = true;
                heard.rings = heard.rings.wrapping_add(1);
                self.rung.notify_one();
            }
            News::Move if heard.any_pod => {
                heard.rings = heard.rings.wrapping_add(1);
                self.rung.notify_all();
            }
            News::Move => {}
        }
    }

    /// A feeder has ended.
    pub fn end<R: Wait>(&self, rt: &R) {
        let mut heard = self.heard.lock(rt);
        heard.ended = heard.ended.saturating_add(1);
        self.rung.notify_all();
    }

    /// Waits for a ring that wasn't heard yet.
    pub fn wait_past<R: Wait>(&self, rt: &R, before: Heard) {
        let heard = self
            .rung
            .wait_while(rt, self.heard.lock(rt), |now| *now == before);
        drop(heard);
    }
}
