//! What a plugin says of all nodes.
ghost use Rattle.std.specs.Prelude.{◌≡◌, Some, None, IfOk, IfSome};
ghost use Rattle.std.specs.Bool.{IsTrue};

use std::alloc::{AllocError, Global};
use whost::{RECORD_SIZE, Records};

// After so many calls that showed a node another one shows none, so that it is seen when a plugin
// asks for none again.
const CALLS_BETWEEN: u8 = 63;

/// What a plugin said of all nodes for a pod, whose records are these: it didn't ask for the node.
/// All room is taken when it is made.
pub struct Said<V: Copy> {
    pub first: Vec<u8>,
    pub second: Vec<u8>,
    pub third: Vec<u8>,
    pub said: Option<V>,
    /// After how many calls the plugin is to be asked again without a node.
    pub wait: u8,
}

impl<V: Copy> Said<V> {
    /// Nothing.
    pub fn new(alloc: Global) -> Result<Said<V>, AllocError>
        ensures { IfOk result (λ s. s.said ≡ None) }
    {
        let Ok(first) = Vec::with_capacity(alloc, RECORD_SIZE) else {
            return Err(AllocError);
        };
        let Ok(second) = Vec::with_capacity(alloc, RECORD_SIZE) else {
            return Err(AllocError);
        };
        let Ok(third) = Vec::with_capacity(alloc, RECORD_SIZE) else {
            return Err(AllocError);
        };
        Ok(Said {
            first,
            second,
            third,
            said: None,
            wait: 0,
        })
    }

    /// What was said of this pod and all nodes, if anything was.
    pub fn of(&self, records: &Records) -> Option<V>
        ensures said { IfSome result (λ v. self.now.said ≡ Some v) }
        ensures first { IfSome result (λ v. self.now.first.items ≡ records.now.pod.first) }
        ensures second { IfSome result (λ v. self.now.second.items ≡ records.now.pod.second) }
        ensures third { IfSome result (λ v. self.now.third.items ≡ records.now.pod.third) }
    {
        let Some(said) = self.said else {
            return None;
        };
        if self.first.as_slice() == records.pod().as_bytes()
            && self.second.as_slice() == records.pod2().as_bytes()
            && self.third.as_slice() == records.pod3().as_bytes()
        {
            return Some(said);
        }
        None
    }

    /// Whether the plugin is to be asked with a node this time.
    pub fn waits(&mut self) -> bool
        ensures said { self.new.said ≡ self.old.said }
        ensures first { self.new.first ≡ self.old.first }
        ensures second { self.new.second ≡ self.old.second }
        ensures third { self.new.third ≡ self.old.third }
    {
        if self.wait == 0 {
            return false;
        }
        self.wait -= 1;
        true
    }

    /// Notes what the plugin said of this pod and all nodes, or that it asked for the node.
    pub fn note(&mut self, records: &Records, said: Option<V>)
        ensures said { IfSome self.new.said (λ v. said ≡ Some v) }
        ensures first { IfSome self.new.said (λ v. self.new.first.items ≡ records.now.pod.first) }
        ensures second { IfSome self.new.said (λ v. self.new.second.items ≡ records.now.pod.second) }
        ensures third { IfSome self.new.said (λ v. self.new.third.items ≡ records.now.pod.third) }
    {
        self.said = None;
        if said.is_none() {
            self.wait = CALLS_BETWEEN;
            return;
        }
        if copied(&mut self.first, records.pod().as_bytes())
            && copied(&mut self.second, records.pod2().as_bytes())
            && copied(&mut self.third, records.pod3().as_bytes())
        {
            self.said = said;
        }
    }
}

// By hand, so that who drops it calls this, and its parts' drops are proved here alone.
impl<V: Copy> Drop for Said<V> {
    fn drop(self) {
        let Self {
            first: _first,
            second: _second,
            third: _third,
            said: _,
            wait: _,
        } = self;
    }
}

// Whether all bytes are copied, for which there is room.
fn copied(to: &mut Vec<u8>, bytes: &[u8]) -> bool
    ensures { IsTrue result → to.new.items ≡ bytes.now }
{
    to.clear();
    to.extend_from_slice(bytes).is_ok()
}
