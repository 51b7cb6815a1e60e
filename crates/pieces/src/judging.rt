//! Who judges a piece of a decision.
ghost use Rattle.std.specs.Prelude.{◌≡◌, length, map};
ghost use Rattle.desk.specs.Shown.{shown};
ghost use Rattle.choose.specs.Choice.{AreVerdicts};
ghost use Rattle.pieces.specs.Pieces.{nodes_of, ArePieces};

use crate::asked::Asked;
use crate::cut::begin;
use crate::gate::Gate;
use choose::{Verdict, judge};
use desk::Row;
use quant::Pod;
use rules::Rules;

/// What all workers of a decision read: the nodes, the pod, who is told that a piece begins, and
/// into how many pieces the nodes are cut.
#[derive(Drop)]
pub struct Work<'a, G> {
    pub rows: &'a [Row],
    pub pod: &'a Pod,
    pub gate: &'a G,
    pub pieces: usize,
}

/// Judges a piece, with this kit, in this thread.
pub fn judge_piece<K: Rules, G: Gate>(
    work: &Work<G>,
    piece: usize,
    kit: &mut K,
    verdicts: &mut [Verdict],
)
    requires { ArePieces (length work.now.rows.now) work.now.pieces piece 1 (length verdicts.old) }
    ensures are { AreVerdicts (K.answers kit.old) work.now.pod.now
        (map shown (nodes_of work.now.rows.now work.now.pieces piece 1)) verdicts.new }
    ensures stays { kit.new ≡ kit.old }
{
    let nodes = work.rows.len();
    let first = begin(nodes, work.pieces, piece);
    let end = begin(nodes, work.pieces, piece + 1);
    work.gate.enter(piece);
    judge(&work.rows[first..end], work.pod, kit, verdicts);
}

/// Judges a piece of what a pool is asked, with this kit, in this thread. A piece that has no node
/// doesn't begin.
pub fn judge_asked<K: Rules, G: Gate>(
    asked: &Asked,
    gate: &G,
    piece: usize,
    kit: &mut K,
    verdicts: &mut [Verdict],
)
    requires { ArePieces (length asked.now.snapshot) asked.now.pieces piece 1 (length verdicts.old) }
    ensures are { AreVerdicts (K.answers kit.old) asked.now.pod (nodes_of asked.now.snapshot asked.now.pieces piece 1)
        verdicts.new }
    ensures stays { kit.new ≡ kit.old }
{
    if verdicts.is_empty() {
        return;
    }
    let work = Work {
        rows: asked.snapshot.rows(),
        pod: &asked.pod,
        gate,
        pieces: asked.pieces,
    };
    judge_piece(&work, piece, kit, verdicts);
}
