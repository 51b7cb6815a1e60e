//! The pieces of a decision, judged by several kits in threads that end with it.
ghost use Rattle.std.specs.Prelude.{◌≡◌, length, map};
ghost use Rattle.std.specs.List.{All};
ghost use denote.Param.Send.{IsSync, IsSend};
ghost use Rattle.desk.specs.Shown.{shown};
ghost use Rattle.choose.specs.Choice.{AreVerdicts};
ghost use Rattle.choose.specs.Kits.{JudgeAlike};
ghost use Rattle.pieces.specs.Pieces.{nodes_of, ArePieces};

use choose::Verdict;
use pieces::{Gate, Work, begin, judge_piece};
use rules::Rules;
use std::thread::{Threads, join_mut};

/// Judges some pieces, one with each kit, from the first piece on: the first of them in this
/// thread, each other one that has a node in a thread of its own, or in the one that can't start
/// it.
#[cycle(pieces)]
pub fn judge_pieces<R: Threads + Sync, K: Rules + Send, G: Gate + Sync>(
    rt: &R,
    work: &Work<G>,
    first: usize,
    kits: &mut [K],
    verdicts: &mut [Verdict],
)
where
    K::Notes: Send,
    requires pieces { ArePieces (length work.now.rows.now) work.now.pieces first (length kits.old)
        (length verdicts.old) }
    requires alike { JudgeAlike K.answers kits.old }
    ensures are { All (λ kit. AreVerdicts (K.answers kit) work.now.pod.now (map shown
        (nodes_of work.now.rows.now work.now.pieces first (length kits.old))) verdicts.new) kits.old }
    ensures stay { kits.new ≡ kits.old }
{
    if verdicts.is_empty() {
        return;
    }
    if kits.len() == 1 {
        judge_piece(work, first, &mut kits[0], verdicts);
        return;
    }
    let half = kits.len() / 2;
    let middle = first + half;
    let nodes = work.rows.len();
    let at = begin(nodes, work.pieces, middle) - begin(nodes, work.pieces, first);
    let (kits_here, kits_there) = kits.split_at_mut(half);
    let (here, there) = verdicts.split_at_mut(at);
    judge_both(rt, work, first, kits_here, here, middle, kits_there, there);
}

// Judges some pieces here, and those behind them in a new thread, where both have a node.
#[cycle(pieces)]
fn judge_both<R: Threads + Sync, K: Rules + Send, G: Gate + Sync>(
    rt: &R,
    work: &Work<G>,
    first: usize,
    kits_here: &mut [K],
    here: &mut [Verdict],
    middle: usize,
    kits_there: &mut [K],
    there: &mut [Verdict],
)
where
    K::Notes: Send,
    requires pieces_here { ArePieces (length work.now.rows.now) work.now.pieces first (length kits_here.old)
        (length here.old) }
    requires pieces_there { ArePieces (length work.now.rows.now) work.now.pieces middle (length kits_there.old)
        (length there.old) }
    requires alike_here { JudgeAlike K.answers kits_here.old }
    requires alike_there { JudgeAlike K.answers kits_there.old }
    ensures are_here { All (λ kit. AreVerdicts (K.answers kit) work.now.pod.now (map shown
        (nodes_of work.now.rows.now work.now.pieces first (length kits_here.old))) here.new) kits_here.old }
    ensures are_there { All (λ kit. AreVerdicts (K.answers kit) work.now.pod.now (map shown
        (nodes_of work.now.rows.now work.now.pieces middle (length kits_there.old))) there.new) kits_there.old }
    ensures stay_here { kits_here.new ≡ kits_here.old }
    ensures stay_there { kits_there.new ≡ kits_there.old }
{
    if here.is_empty() || there.is_empty() {
        judge_pieces(rt, work, first, kits_here, here);
        judge_pieces(rt, work, middle, kits_there, there);
        return;
    }
    let mut mine = ||
        requires { IsSync R.row × IsSync G.row × IsSend K.row × IsSend K.Notes.row
            × ArePieces (length work.now.rows.now) work.now.pieces first (length kits_here.now) (length here.now)
            × JudgeAlike K.answers kits_here.now }
        ensures { All (λ kit. AreVerdicts (K.answers kit) work.entry.now.pod.now (map shown
            (nodes_of work.entry.now.rows.now work.entry.now.pieces first (length kits_here.entry.now))) here.exit.now) kits_here.entry.now
            × (kits_here.exit.now ≡ kits_here.entry.now) }
    { judge_pieces(rt, work, first, kits_here, here) };
    let mut theirs = ||
        requires { IsSync R.row × IsSync G.row × IsSend K.row × IsSend K.Notes.row
            × ArePieces (length work.now.rows.now) work.now.pieces middle (length kits_there.now) (length there.now)
            × JudgeAlike K.answers kits_there.now }
        ensures { All (λ kit. AreVerdicts (K.answers kit) work.entry.now.pod.now (map shown
            (nodes_of work.entry.now.rows.now work.entry.now.pieces middle (length kits_there.entry.now))) there.exit.now) kits_there.entry.now
            × (kits_there.exit.now ≡ kits_there.entry.now) }
    { judge_pieces(rt, work, middle, kits_there, there) };
    join_mut(rt, &mut theirs, &mut mine);
}
