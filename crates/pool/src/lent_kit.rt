//! A kit of a pool beside the first, and the worker that judges with it.
ghost use Rattle.std.specs.Prelude.{◌≡◌, ◌+◌, ◌≤◌, length, IfSome};
ghost use Rattle.std.specs.Bool.{IsTrue};
ghost use Rattle.std.specs.Arc.{arc_value};
ghost use Rattle.choose.specs.Choice.{AreVerdicts};
ghost use Rattle.pieces.specs.Pieces.{nodes_of, ArePieces};
ghost use Rattle.pool.specs.Speaking.{SpeaksFor};
ghost use Rattle.pool.specs.inside.Speaking.{AreSaid};

use crate::worker::Hand;
use choose::{UNJUDGED, Verdict};
use pieces::{Done, Gate, Job, Order, Site, judge_asked, take_verdicts};
use rules::Rules;
use std::alloc::Global;
use std::marker::Model;
use std::mem;
use std::sync::{Arc, Wait};
use std::thread::Threads;

/// A kit, where it isn't under way, with the room for its verdicts and the way to its worker, if
/// there is one.
pub struct Helper<J: Site, K: Rules + Drop> {
    pub hand: Option<Hand<J, K>>,
    pub kit: Option<K>,
    room: Vec<Verdict>,
    // Whether a piece is under way.
    is_out: bool,
}

// By hand, so that who drops one calls this, and its parts' drops are proved here alone.
impl<J: Site, K: Rules + Drop> Drop for Helper<J, K> {
    fn drop(self) {
        let Self {
            hand: _hand,
            kit: _kit,
            room: _room,
            is_out: _,
        } = self;
    }
}

impl<J: Site, K: Rules + Drop> Model for Helper<J, K> {
    ghost use Rattle.std.specs.Prelude.{Option, IfSome};
    ghost use Rattle.pool.specs.Speaking.{SpeaksFor};

    ghost Value = { Option K };

    ghost view = { λ h. h.kit };

    ghost invariant = { λ h. IfSome h.kit (λ kit. SpeaksFor J.Says (K.answers kit)) };
}

impl<J: Site, K: Rules + Drop> Helper<J, K> {
    /// A kit, with a worker where one can be started.
    pub fn start<G: Gate + Drop + Send + Sync + 'static, R: Threads + Wait + Copy + Send + 'static>(
        rt: R,
        alloc: Global,
        kit: K,
        gate: &Arc<G>,
    ) -> Helper<J, K>
    where
        J: Send + Sync + 'static,
        K: Send + 'static,
        K::Notes: Send + 'static,
        requires { SpeaksFor J.Says (K.answers kit) }
    {
        let hand = match gate.clone() {
            Ok(gate) => Hand::start(rt, alloc, gate).ok(),
            Err(_) => None,
        };
        Helper {
            hand,
            kit: Some(kit),
            room: Vec::new(alloc),
            is_out: false,
        }
    }

    /// Sends a piece to the worker, where there is one, and memory for it.
    fn send<R: Wait>(
        &mut self,
        rt: &R,
        alloc: Global,
        order: &Arc<Order<J>>,
        piece: usize,
        places: usize,
    )
        requires { let asked = arc_value order.now in ArePieces (length asked.snapshot) asked.pieces piece 1 places }
    {
        self.is_out = false;
        if places == 0 {
            return;
        }
        let Some(hand) = self.hand.as_mut() else {
            return;
        };
        if self.room.resize(places, UNJUDGED).is_err() {
            return;
        }
        let Ok(order) = order.clone() else {
            return;
        };
        let Some(kit) = self.kit.take() else {
            return;
        };
        let verdicts = mem::replace(&mut self.room, Vec::new(alloc));
        let job = Job {
            kit,
            order,
            piece,
            verdicts,
        };
        match hand.send(rt, job) {
            Ok(()) => self.is_out = true,
            Err(job) => {
                let Job {
                    kit,
                    order: _,
                    piece: _,
                    verdicts,
                } = job;
                self.kit = Some(kit);
                self.room = verdicts;
            }
        }
    }

    // Waits for the piece that is under way, and says whether its verdicts are there. The kit is
    // back where a result came.
    fn take_back<R: Wait>(
        &mut self,
        rt: &R,
        order: &Order<J>,
        piece: usize,
        verdicts: &mut [Verdict],
    ) -> bool
        ensures are { IsTrue result → AreSaid J.Says order.now.pod
            (nodes_of order.now.snapshot order.now.pieces piece 1) verdicts.new }
        ensures length { length verdicts.new ≡ length verdicts.old }
    {
        if !self.is_out {
            return false;
        }
        self.is_out = false;
        let Some(done) = receive_or_forget(rt, &mut self.hand) else {
            return false;
        };
        let is_this = take_verdicts(&done, order, piece, verdicts);
        self.put_back(done);
        is_this
    }

    // The kit and the room for its verdicts come back.
    fn put_back(&mut self, done: Done<J, K>)
        requires { SpeaksFor J.Says (K.answers done.kit) }
    {
        let Done {
            kit,
            order: _,
            piece: _,
            verdicts,
        } = done;
        self.kit = Some(kit);
        self.room = verdicts;
    }

    // The verdicts on a piece: those that come back, or else those that are found here, with its
    // kit or with the first.
    fn fill<R: Wait, G: Gate>(
        &mut self,
        rt: &R,
        order: &Order<J>,
        gate: &G,
        home: &mut K,
        piece: usize,
        verdicts: &mut [Verdict],
    )
        requires pieces { ArePieces (length order.now.snapshot) order.now.pieces piece 1 (length verdicts.old) }
        requires speaks { SpeaksFor J.Says (K.answers home.old) }
        ensures are { AreSaid J.Says order.now.pod (nodes_of order.now.snapshot order.now.pieces piece 1) verdicts.new }
        ensures stays { home.new ≡ home.old }
    {
        if self.take_back(rt, order, piece, verdicts) {
            return;
        }
        if let Some(kit) = self.kit.as_mut() {
            judge_said(order, gate, piece, kit, verdicts);
            return;
        }
        judge_said(order, gate, piece, home, verdicts);
    }

    // Waits until the worker is gone.
    fn end<R: Wait>(&mut self, rt: &R) {
        if let Some(hand) = self.hand.take() {
            hand.end(rt);
        }
    }
}

// Waits for a piece that the worker has judged, if there is a worker. One that is gone is no more.
fn receive_or_forget<J: Site, K: Rules + Drop, R: Wait>(
    rt: &R,
    hand: &mut Option<Hand<J, K>>,
) -> Option<Done<J, K>>
    ensures { IfSome result (λ done. SpeaksFor J.Says (K.answers done.kit)) }
{
    let Some(there) = hand.as_mut() else {
        return None;
    };
    if let Some(done) = there.receive(rt) {
        return Some(done);
    }
    *hand = None;
    None
}

/// Waits until all workers are gone.
pub fn end_all<J: Site, K: Rules + Drop, R: Wait>(rt: &R, helpers: &mut [Helper<J, K>]) {
    for helper in helpers {
        helper.end(rt);
    }
}

/// Judges a piece here, with one of the pool's kits.
pub fn judge_said<J: Site, K: Rules, G: Gate>(
    order: &Order<J>,
    gate: &G,
    piece: usize,
    kit: &mut K,
    verdicts: &mut [Verdict],
)
    requires pieces { ArePieces (length order.now.snapshot) order.now.pieces piece 1 (length verdicts.old) }
    requires speaks { SpeaksFor J.Says (K.answers kit.old) }
    ensures are { AreSaid J.Says order.now.pod (nodes_of order.now.snapshot order.now.pieces piece 1) verdicts.new }
    ensures stays { kit.new ≡ kit.old }
{
    judge_asked(order.asked(), gate, piece, kit, verdicts);
}

// How many places a piece has.
fn places_of<J: Site>(order: &Order<J>, piece: usize) -> usize
    requires few { order.now.pieces ≤ 64 }
    requires there { piece + 1 ≤ order.now.pieces }
    ensures { ArePieces (length order.now.snapshot) order.now.pieces piece 1 result }
{
    order.begin(piece + 1) - order.begin(piece)
}

/// Sends each helper its piece, from the second piece on.
pub fn send_all<J: Site, K: Rules + Drop, R: Wait>(
    rt: &R,
    alloc: Global,
    order: &Arc<Order<J>>,
    helpers: &mut [Helper<J, K>],
)
    requires pieces { (arc_value order.now).pieces ≡ length helpers.old + 1 }
    requires few { length helpers.old + 1 ≤ 64 }
    ensures { length helpers.new ≡ length helpers.old }
{
    for at in 0..helpers.len() {
        let piece = at + 1;
        let places = places_of(&**order, piece);
        helpers[at].send(rt, alloc, order, piece, places);
    }
}

/// The verdicts on some pieces, one of each helper, from the first piece on.
pub fn collect<J: Site, K: Rules + Drop, R: Wait, G: Gate>(
    rt: &R,
    order: &Order<J>,
    gate: &G,
    home: &mut K,
    helpers: &mut [Helper<J, K>],
    first: usize,
    verdicts: &mut [Verdict],
)
    requires pieces { ArePieces (length order.now.snapshot) order.now.pieces first (length helpers.old)
        (length verdicts.old) }
    requires speaks { SpeaksFor J.Says (K.answers home.old) }
    ensures are { AreSaid J.Says order.now.pod (nodes_of order.now.snapshot order.now.pieces first (length helpers.old))
        verdicts.new }
    ensures stays { home.new ≡ home.old }
    ensures length { length helpers.new ≡ length helpers.old }
{
    if helpers.len() == 1 {
        helpers[0].fill(rt, order, gate, home, first, verdicts);
        return;
    }
    let at = places_of(order, first);
    let (mine, behind) = helpers.split_at_mut(1);
    let (here, there) = verdicts.split_at_mut(at);
    mine[0].fill(rt, order, gate, home, first, here);
    collect(rt, order, gate, home, behind, first + 1, there);
}
