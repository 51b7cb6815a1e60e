//! A pool: kits, and workers that stay, which decide with them.
ghost use Rattle.std.specs.Prelude.{◌≡◌, ◌+◌, ◌<◌, ◌≤◌, List, [], ◌∷◌, length, vec_len, IfOk, OnOk};
ghost use Rattle.std.specs.Bool.{IsTrue};
ghost use Rattle.std.specs.List.{All};
ghost use Rattle.std.specs.Arc.{arc_value};
ghost use denote.Param.Send.{IsSync};
ghost use Rattle.choose.specs.Choice.{Choice, AreRulings, AreVerdicts};
ghost use Rattle.choose.specs.declared.decision.Verdict.{Verdict};
ghost use Rattle.choose.specs.Kits.{rules_of};
ghost use Rattle.choose.specs.Verdict.{asked};
ghost use Rattle.pool.specs.Speaking.{SpeaksFor};

use crate::cost::{Cost, noted, spent_by, worth_waking};
use crate::lent_kit::{Helper, collect, end_all, judge_said, send_all};
use choose::{
    Decider, Decision, NoMemory, UNJUDGED, Verdict, choose_alone, decide, judge, rule_on,
};
use desk::Snapshot;
use pieces::{Asked, Blank, Gate, History, Order, Site};
use quant::SharedPod;
use rules::Rules;
use std::alloc::Global;
use std::marker::Model;
use std::sync::{Arc, Wait};
use std::thread::Threads;

/// The most kits of a pool, and of a fleet.
pub const MAX_KITS: usize = quant::MAX_WORKERS;

/// A kit that stays with the caller, and others with a worker each, which stay until the pool ends.
pub struct Pool<J: Site, K: Rules + Drop, G: Drop> {
    alloc: Global,
    gate: Arc<G>,
    home: K,
    helpers: Vec<Helper<J, K>>,
    history: History<J>,
    // The room for the verdicts of a decision, which stays between two decisions.
    verdicts: Vec<Verdict>,
    // What the last decision cost, once there was one.
    cost: Option<Cost>,
}

// By hand, so that who drops a pool calls this, and its parts' drops are proved here alone.
impl<J: Site, K: Rules + Drop, G: Drop> Drop for Pool<J, K, G> {
    fn drop(self) {
        let Self {
            alloc: _,
            gate: _gate,
            home: _home,
            helpers: _helpers,
            history: _history,
            verdicts: _verdicts,
            cost: _,
        } = self;
    }
}

impl<J: Site, K: Rules + Drop, G: Drop> Model for Pool<J, K, G> {
    ghost use Rattle.std.specs.Prelude.{◌<◌, [], ◌∷◌, length, vec_capacity};
    ghost use Rattle.pool.specs.inside.Team.{Team};
    ghost use Rattle.pool.specs.Speaking.{SpeaksFor};

    ghost Value = { Team K };

    ghost view = { λ p. record { kits = p.home ∷ []; room = vec_capacity p.verdicts; verdicts = p.verdicts.items } };

    ghost invariant = { λ p. SpeaksFor J.Says (K.answers p.home) × (length p.helpers.items < 64) };
}

impl<J: Site, K: Rules + Drop, G: Gate + Drop> Pool<J, K, G> {
    /// A pool of 1 to 64 kits that say the same. The first one stays with the caller, and each
    /// other has a worker where one can be started. Who is told that pieces begin is told from the
    /// workers' threads too.
    ///
    /// Errors: `NoMemory` where there is none for the list of workers. The kits are given up then.
    pub fn start<R: Threads + Wait + Copy + Send + 'static>(
        rt: R,
        alloc: Global,
        blank: Blank,
        first: K,
        others: Vec<K>,
        gate: Arc<G>,
    ) -> Result<Pool<J, K, G>, NoMemory>
    where
        J: Send + Sync + 'static,
        K: Send + 'static,
        K::Notes: Send + 'static,
        G: Send + Sync + 'static,
        requires most { vec_len others < MAX_KITS }
        requires pool { blank.seen.book ≡ J.book }
        requires first { SpeaksFor J.Says (K.answers first) }
        requires others { All (λ kit. SpeaksFor J.Says (K.answers kit)) others.items }
        ensures { IfOk result (λ pool. pool.kits ≡ first ∷ []) }
    {
        let Ok(helpers) = start_helpers(rt, alloc, others, &gate) else {
            return Err(NoMemory);
        };
        Ok(Pool {
            alloc,
            gate,
            home: first,
            helpers,
            history: blank.named(),
            verdicts: Vec::new(alloc),
            cost: None,
        })
    }

    /// Where a pod goes, by a look at the nodes: the choice that each of the kits would make alone.
    ///
    /// The nodes are cut into as many pieces as there are kits. The first is judged here, and each
    /// other one that has a node by a worker. A piece that doesn't come back is judged here too.
    /// Where there is too little to do, by what the decision before this cost, all is done here.
    /// Where there is no rule and the verdicts aren't to be told, none is written and no memory is
    /// taken.
    ///
    /// Errors: `NoMemory` where there is none for what the workers share, or where the look has
    /// more nodes than any before and there is none for a verdict each. Nothing is decided then,
    /// nor sent, and the pool can be used again.
    pub fn decide<R: Wait>(
        &mut self,
        rt: &R,
        snapshot: Snapshot,
        pod: &SharedPod,
        explains: bool,
    ) -> Result<Decision, NoMemory>
        ensures chosen { IfOk result (Choice (rules_of K.answers self.old.kits) snapshot pod.now) }
        ensures judged { IsTrue explains → OnOk result (AreVerdicts (rules_of K.answers self.old.kits) pod.now
            snapshot self.new.verdicts) }
        ensures kits { self.new.kits ≡ self.old.kits }
    {
        let nodes = snapshot.rows().len();
        if !explains && self.home.count() == 0 {
            if nodes != 0 {
                self.gate.enter(0);
            }
            return Ok(choose_alone(&snapshot, pod, &self.home));
        }
        let Ok(()) = self.verdicts.resize(nodes, UNJUDGED) else {
            return Err(NoMemory);
        };
        let many = worth_waking(&self.home, self.helpers.len(), self.cost, nodes);
        let before = spent_by(&self.home);
        let decided = decide_with(
            rt,
            self.alloc,
            &*self.gate,
            &mut self.home,
            self.helpers.as_mut_slice(),
            &mut self.history,
            snapshot,
            pod,
            many,
            self.verdicts.as_mut_slice(),
        );
        let spent = spent_by(&self.home);
        self.cost = noted(self.cost, before, spent, nodes / many.saturating_add(1));
        decided
    }

    /// Ends the pool: it waits until its workers are gone.
    pub fn end<R: Wait>(self, rt: &R) {
        let Pool {
            alloc: _,
            gate: _,
            home: _,
            mut helpers,
            history: _,
            verdicts: _,
            cost: _,
        } = self;
        end_all(rt, helpers.as_mut_slice());
    }
}

impl<J: Site, K: Rules + Drop, G: Gate + Drop> Decider for Pool<J, K, G> {
    type Kit = K;

    ghost kits = { λ pool. pool.kits };

    ghost last = { λ pool. pool.verdicts };

    fn decide<R: Threads + Wait + Sync>(
        &mut self,
        rt: &R,
        snapshot: Snapshot,
        pod: &SharedPod,
        explains: bool,
    ) -> Result<Decision, NoMemory> {
        self.decide(rt, snapshot, pod, explains)
    }

    // The first kit says it here: the workers are left where they are.
    fn judge(
        &mut self,
        snapshot: &Snapshot,
        pod: &SharedPod,
        filters_alone: bool,
    ) -> Result<(), NoMemory> {
        let rows = snapshot.rows();
        let Ok(()) = self.verdicts.resize(rows.len(), UNJUDGED) else {
            return Err(NoMemory);
        };
        let verdicts = self.verdicts.as_mut_slice();
        rule_on(rows, pod, filters_alone, &mut self.home, verdicts);
        Ok(())
    }

    fn verdicts(&self) -> &[Verdict] {
        self.verdicts.as_slice()
    }
}

// A kit with a worker for each of these kits.
fn start_helpers<
    J: Site + Send + Sync + 'static,
    K: Rules + Drop + Send + 'static,
    G: Gate + Drop + Send + Sync + 'static,
    R: Threads + Wait + Copy + Send + 'static,
>(rt: R, alloc: Global, kits: Vec<K>, gate: &Arc<G>) -> Result<Vec<Helper<J, K>>, NoMemory>
where
    K::Notes: Send + 'static,
    requires { All (λ kit. SpeaksFor J.Says (K.answers kit)) kits.items }
    ensures { IfOk result (λ helpers. vec_len helpers ≤ vec_len kits) }
{
    let mut kits = kits;
    let mut helpers = Vec::new(alloc);
    let Ok(()) = helpers.reserve(kits.len()) else {
        return Err(NoMemory);
    };
    let Ok(()) = start_each(rt, alloc, &mut kits, gate, &mut helpers) else {
        return Err(NoMemory);
    };
    Ok(helpers)
}

// Adds a kit with a worker for each of these kits.
fn start_each<
    J: Site + Send + Sync + 'static,
    K: Rules + Drop + Send + 'static,
    G: Gate + Drop + Send + Sync + 'static,
    R: Threads + Wait + Copy + Send + 'static,
>(
    rt: R,
    alloc: Global,
    kits: &mut Vec<K>,
    gate: &Arc<G>,
    helpers: &mut Vec<Helper<J, K>>,
) -> Result<(), NoMemory>
where
    K::Notes: Send + 'static,
    requires { All (λ kit. SpeaksFor J.Says (K.answers kit)) kits.old.items }
    ensures { vec_len helpers.new ≤ vec_len helpers.old + vec_len kits.old }
{
    while let Some(kit) = kits.pop() {
        if helpers.push(Helper::start(rt, alloc, kit, gate)).is_err() {
            return Err(NoMemory);
        }
    }
    Ok(())
}

// Where a pod goes, by the first kit and so many of the others, or all of them where there aren't so
// many: all that a pool lends for it, so that what holds of the pool is proved at one end and not
// at each of these.
fn decide_with<J: Site, K: Rules + Drop, G: Gate, R: Wait>(
    rt: &R,
    alloc: Global,
    gate: &G,
    home: &mut K,
    helpers: &mut [Helper<J, K>],
    history: &mut History<J>,
    snapshot: Snapshot,
    pod: &SharedPod,
    many: usize,
    verdicts: &mut [Verdict],
) -> Result<Decision, NoMemory>
    requires few { length helpers.old < 64 }
    requires places { length verdicts.old ≡ length snapshot }
    requires speaks { SpeaksFor J.Says (K.answers home.old) }
    ensures chosen { IfOk result (Choice (K.answers home.old) snapshot pod.now) }
    ensures judged { OnOk result (AreVerdicts (K.answers home.old) pod.now snapshot verdicts.new) }
    ensures stays { home.new ≡ home.old }
    ensures length { length helpers.new ≡ length helpers.old }
{
    let many = many.min(helpers.len());
    if many == 0 {
        return Ok(choose_here(&snapshot, pod, gate, home, verdicts));
    }
    let Ok(shared) = pod.share() else {
        return Err(NoMemory);
    };
    let asked = Asked {
        snapshot,
        pod: shared,
        pieces: many + 1,
    };
    match history.add(asked) {
        Ok(order) => choose_there(rt, alloc, order, gate, home, helpers, many, verdicts),
        Err(asked) => Ok(choose_here(&asked.snapshot, &asked.pod, gate, home, verdicts)),
    }
}

// The choice with the first kit alone.
fn choose_here<K: Rules, G: Gate>(
    snapshot: &Snapshot,
    pod: &SharedPod,
    gate: &G,
    home: &mut K,
    verdicts: &mut [Verdict],
) -> Decision
    requires { length verdicts.old ≡ length snapshot.now }
    ensures chosen { Choice (K.answers home.old) snapshot.now pod.now result }
    ensures judged { AreVerdicts (K.answers home.old) pod.now snapshot.now verdicts.new }
    ensures stays { home.new ≡ home.old }
{
    let rows = snapshot.rows();
    if !rows.is_empty() {
        gate.enter(0);
    }
    judge(rows, pod, home, verdicts);
    decide(rows, verdicts)
}

// The choice with the first kit and so many others, where there is memory to share what is asked: the
// first piece is judged here while those of the others are under way.
fn choose_there<J: Site, K: Rules + Drop, G: Gate, R: Wait>(
    rt: &R,
    alloc: Global,
    order: Order<J>,
    gate: &G,
    home: &mut K,
    helpers: &mut [Helper<J, K>],
    many: usize,
    verdicts: &mut [Verdict],
) -> Result<Decision, NoMemory>
    requires some { 0 < many }
    requires few { many < 64 }
    requires there { many ≤ length helpers.old }
    requires pieces { order.pieces ≡ many + 1 }
    requires places { length verdicts.old ≡ length order.snapshot }
    requires speaks { SpeaksFor J.Says (K.answers home.old) }
    ensures chosen { IfOk result (Choice (K.answers home.old) order.snapshot order.pod) }
    ensures judged { OnOk result (AreVerdicts (K.answers home.old) order.pod order.snapshot verdicts.new) }
    ensures stays { home.new ≡ home.old }
    ensures length { length helpers.new ≡ length helpers.old }
{
    let Ok(order) = Arc::new(alloc, order) else {
        return Err(NoMemory);
    };
    let (woken, _asleep) = helpers.split_at_mut(many);
    send_all(rt, alloc, &order, woken);
    judge_and_collect(rt, &*order, gate, home, woken, verdicts);
    Ok(decide(order.asked().snapshot.rows(), verdicts))
}

// The verdicts on all nodes, where all pieces but the first are under way, or are to be judged here
// too.
fn judge_and_collect<J: Site, K: Rules + Drop, G: Gate, R: Wait>(
    rt: &R,
    order: &Order<J>,
    gate: &G,
    home: &mut K,
    helpers: &mut [Helper<J, K>],
    verdicts: &mut [Verdict],
)
    requires some { 0 < length helpers.old }
    requires few { length helpers.old < 64 }
    requires pieces { order.now.pieces ≡ length helpers.old + 1 }
    requires places { length verdicts.old ≡ length order.now.snapshot }
    requires speaks { SpeaksFor J.Says (K.answers home.old) }
    ensures are { AreVerdicts (K.answers home.old) order.now.pod order.now.snapshot verdicts.new }
    ensures stays { home.new ≡ home.old }
    ensures length { length helpers.new ≡ length helpers.old }
{
    let at = order.begin(1);
    let (here, there) = verdicts.split_at_mut(at);
    judge_said(order, gate, 0, home, here);
    collect(rt, order, gate, home, helpers, 1, there);
}
