//! What a binder answers, how often it did, and what it was told last.
ghost use Rattle.std.specs.Prelude.{◌≡◌, ◌≤◌, ◌+◌, ◌<◌, ◌^◌, Some, None};
ghost use Rattle.binder.specs.Binds.{bind_on, dones_of};

use crate::job::Bind;
use quant::Name;

/// The answer to a bind.
#[derive(Clone, Copy)]
pub enum BindAnswer {
    /// The cluster took the bind.
    Done,
    /// It didn't, or it isn't known to have.
    Failed,
}

/// How many binds a binder was asked for, how many of them were done, and which was the last.
#[derive(Drop)]
pub struct Tally {
    /// The binds that were asked for.
    pub asked: u64,
    /// Those that were done.
    pub done: u64,
    /// The last that was asked for.
    pub last: Option<Bind>,
    pub ghost done_of_asked: { done ≤ asked },
}

impl Tally {
    /// No bind was asked for yet.
    pub fn new() -> Tally
        ensures asked { result.asked ≡ 0 }
        ensures done { result.done ≡ 0 }
        ensures last { result.last ≡ None }
    {
        Tally {
            asked: 0,
            done: 0,
            last: None,
        }
    }

    /// One more bind was asked for, of this pod to this node, and answered so.
    pub fn count(&mut self, uid: &Name, node: &Name, answer: BindAnswer)
        requires { self.old.asked < 10 ^ 18 }
        ensures asked { self.new.asked ≡ self.old.asked + 1 }
        ensures done { self.new.done ≡ self.old.done + dones_of answer }
        ensures last { self.new.last ≡ Some (bind_on uid.now node.now) }
    {
        self.asked += 1;
        self.last = Some(Bind {
            uid: uid.copied(),
            node: node.copied(),
        });
        if answer == BindAnswer::Done {
            self.done += 1;
        }
    }
}
