//! A fleet: kits, and the workers that decide with them.
ghost use Rattle.std.specs.Prelude.{◌≡◌, ◌<◌, ◌≤◌, [], ◌∷◌, length, vec_len, map, IfOk, OnErr, OnOk};
ghost use Rattle.std.specs.List.{All};
ghost use Rattle.desk.specs.Shown.{shown};
ghost use Rattle.choose.specs.Choice.{AreRulings, AreVerdicts, Choice};
ghost use Rattle.choose.specs.Kits.{JudgeAlike, rules_of};
ghost use Rattle.choose.specs.Verdict.{asked};

use crate::judging::judge_pieces;
use choose::{Decision, NoMemory, UNJUDGED, Verdict, decide, rule_on};
use desk::{Row, Snapshot};
use pieces::{Gate, Work};
use pool::MAX_KITS;
use quant::Pod;
use rules::Rules;
use std::alloc::Global;
use std::marker::Model;
use std::thread::Threads;

/// Kits that judge alike, one a worker, and the room for the verdicts of a decision, which stays
/// between two decisions.
#[derive(Drop)]
pub struct Fleet<K: Rules + Send> {
    kits: Vec<K>,
    verdicts: Vec<Verdict>,
}

impl<K: Rules + Send> Model for Fleet<K> {
    ghost use Rattle.std.specs.Prelude.{◌<◌, ◌≤◌, length, vec_capacity};
    ghost use Rattle.choose.specs.Kits.{JudgeAlike};
    ghost use Rattle.pool.specs.inside.Team.{Team};

    ghost Value = { Team K };

    ghost view = { λ f. record { kits = f.kits.items; room = vec_capacity f.verdicts; verdicts = f.verdicts.items } };

    ghost invariant = { λ f. (0 < length f.kits.items) × (length f.kits.items ≤ 64) × JudgeAlike K.answers f.kits.items };
}

impl<K: Rules + Send + Drop> Fleet<K> {
    /// A fleet of one kit, which decides on one thread.
    ///
    /// Errors: `NoMemory` where there is none for the list of one kit.
    #[tactic(auto, using(crate::proofs::Alike::one_alike))]
    pub fn of_one(alloc: Global, kit: K) -> Result<Fleet<K>, NoMemory>
        ensures { IfOk result (λ fleet. fleet.kits ≡ kit ∷ []) }
    {
        let mut kits = Vec::new(alloc);
        if kits.push(kit).is_err() {
            return Err(NoMemory);
        }
        Ok(Fleet::new(alloc, kits))
    }
}

impl<K: Rules + Send> Fleet<K> {
    /// A fleet of 1 to 64 kits that judge alike, as those of the same plugins do. It takes no
    /// memory yet.
    pub fn new(alloc: Global, kits: Vec<K>) -> Fleet<K>
        requires some { 0 < vec_len kits }
        requires most { vec_len kits ≤ MAX_KITS }
        requires alike { JudgeAlike K.answers kits.items }
        ensures { result.kits ≡ kits.items }
    {
        Fleet {
            kits,
            verdicts: Vec::new(alloc),
        }
    }

    /// The verdicts of the last decision, in the order of the nodes.
    pub fn verdicts(&self) -> &[Verdict]
        ensures { result.now ≡ self.now.verdicts }
    {
        self.verdicts.as_slice()
    }
}

impl<K: Rules + Send> Fleet<K>
where
    K::Notes: Send,
{
    /// Where a pod goes, by a look at the nodes: the choice that each of the kits would make alone.
    ///
    /// The nodes are cut into as many pieces as there are kits, of which each is judged with a kit
    /// of its own: the first one here, and each other one that has a node in a thread of its own,
    /// where one can be started. Then it is decided among all nodes.
    ///
    /// Errors: `NoMemory` where the look has more nodes than any before and there is no memory for
    /// a verdict each. Nothing is decided then, and the fleet can be used again.
    pub fn decide<R: Threads + Sync, G: Gate + Sync>(
        &mut self,
        rt: &R,
        snapshot: &Snapshot,
        pod: &Pod,
        gate: &G,
    ) -> Result<Decision, NoMemory>
        ensures chosen { IfOk result (λ decision. All (λ kit. Choice (K.answers kit) snapshot.now pod.now decision)
            self.old.kits) }
        ensures judged { OnOk result (All (λ kit. AreVerdicts (K.answers kit) pod.now snapshot.now self.new.verdicts)
            self.old.kits) }
        ensures some { 0 < length self.old.kits }
        ensures kits { self.new.kits ≡ self.old.kits }
        ensures no_memory { OnErr result (self.old.room < length snapshot.now) }
        ensures room { OnOk result (length snapshot.now ≤ self.new.room) }
        ensures kept { self.old.room ≤ self.new.room }
    {
        let rows = snapshot.rows();
        self.verdicts.resize(rows.len(), UNJUDGED)?;
        let work = Work {
            rows,
            pod,
            gate,
            pieces: self.kits.len(),
        };
        judge_pieces(
            rt,
            &work,
            0,
            self.kits.as_mut_slice(),
            self.verdicts.as_mut_slice(),
        );
        Ok(decide(rows, self.verdicts.as_slice()))
    }

    /// What the rules alone say of each node, for a pod, or their filters alone. The first kit says
    /// it here.
    ///
    /// Errors: `NoMemory` where the look has more nodes than any before and there is no memory for
    /// a verdict each. Nothing was asked then, and the fleet can be used again.
    pub fn judge(
        &mut self,
        snapshot: &Snapshot,
        pod: &Pod,
        filters_alone: bool,
    ) -> Result<(), NoMemory>
        ensures judged { OnOk result (AreRulings (asked filters_alone (rules_of K.answers self.old.kits)) pod.now
            snapshot.now self.new.verdicts) }
        ensures kits { self.new.kits ≡ self.old.kits }
    {
        let rows = snapshot.rows();
        let Ok(()) = self.verdicts.resize(rows.len(), UNJUDGED) else {
            return Err(NoMemory);
        };
        rule_by_first(
            rows,
            pod,
            filters_alone,
            self.kits.as_mut_slice(),
            self.verdicts.as_mut_slice(),
        );
        Ok(())
    }
}

// Writes what the rules alone say of nodes, or their filters alone, by the first of these kits.
fn rule_by_first<K: Rules>(
    rows: &[Row],
    pod: &Pod,
    filters_alone: bool,
    kits: &mut [K],
    verdicts: &mut [Verdict],
)
    requires some { 0 < length kits.old }
    requires places { length verdicts.old ≡ length rows.now }
    ensures are { AreRulings (asked filters_alone (rules_of K.answers kits.old)) pod.now (map shown rows.now)
        verdicts.new }
    ensures stay { kits.new ≡ kits.old }
{
    rule_on(rows, pod, filters_alone, &mut kits[0], verdicts);
}
