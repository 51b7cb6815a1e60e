//! What a pool and its workers tell each other.
ghost use Rattle.std.specs.Prelude.{◌≡◌, length};
ghost use Rattle.std.specs.Bool.{IsTrue};
ghost use Rattle.choose.specs.Choice.{AreVerdicts};
ghost use Rattle.pieces.specs.Pieces.{nodes_of};

use crate::asked::{Order, Site};
use crate::gate::Gate;
use crate::judging::judge_asked;
use choose::Verdict;
use rules::Rules;
use std::marker::Model;
use std::sync::Arc;

/// A piece to be judged: it owns its kit and the room for its verdicts, and shares what is asked.
#[derive(Drop)]
pub struct Job<J: Site, K: Rules + Drop> {
    pub kit: K,
    pub order: Arc<Order<J>>,
    pub piece: usize,
    pub verdicts: Vec<Verdict>,
}

impl<J: Site, K: Rules + Drop> Model for Job<J, K> {
    ghost use Rattle.std.specs.Prelude.{length, vec_len};
    ghost use Rattle.std.specs.Arc.{arc_value};
    ghost use Rattle.pieces.specs.inside.Message.{Task};
    ghost use Rattle.pieces.specs.Pieces.{ArePieces};

    ghost Value = { Task K };

    ghost view = { λ j. record { kit = j.kit; asked = arc_value j.order; piece = j.piece; room = vec_len j.verdicts } };

    ghost invariant = { λ j. ArePieces (length (arc_value j.order).snapshot) (arc_value j.order).pieces j.piece 1 (vec_len j.verdicts) };
}

/// A piece that was judged. It gives all back that came with it.
#[derive(Drop)]
pub struct Done<J: Site, K: Rules + Drop> {
    pub kit: K,
    pub order: Arc<Order<J>>,
    pub piece: usize,
    pub verdicts: Vec<Verdict>,
}

impl<J: Site, K: Rules + Drop> Model for Done<J, K> {
    ghost use Rattle.std.specs.Arc.{arc_value};
    ghost use Rattle.choose.specs.Choice.{AreVerdicts};
    ghost use Rattle.pieces.specs.inside.Message.{Finding};
    ghost use Rattle.pieces.specs.Pieces.{nodes_of};

    ghost Value = { Finding K };

    ghost view = { λ d. record { kit = d.kit; asked = arc_value d.order; piece = d.piece; verdicts = d.verdicts.items } };

    ghost invariant = { λ d. AreVerdicts (K.answers d.kit) (arc_value d.order).pod (nodes_of
        (arc_value d.order).snapshot (arc_value d.order).pieces d.piece 1) d.verdicts.items };
}

/// Judges a piece with its kit.
pub fn judge_job<J: Site, K: Rules + Drop, G: Gate>(gate: &G, job: Job<J, K>) -> Done<J, K>
    ensures { result.kit ≡ job.kit }
{
    let Job {
        mut kit,
        order,
        piece,
        mut verdicts,
    } = job;
    judge_asked(
        order.asked(),
        gate,
        piece,
        &mut kit,
        verdicts.as_mut_slice(),
    );
    Done {
        kit,
        order,
        piece,
        verdicts,
    }
}

/// Takes the verdicts of a result, if it is of this piece of what is asked, and says whether it is.
pub fn take_verdicts<J: Site, K: Rules + Drop>(
    done: &Done<J, K>,
    order: &Order<J>,
    piece: usize,
    verdicts: &mut [Verdict],
) -> bool
    ensures are { IsTrue result → AreVerdicts (K.answers done.now.kit) order.now.pod
        (nodes_of order.now.snapshot order.now.pieces piece 1) verdicts.new }
    ensures length { length verdicts.new ≡ length verdicts.old }
{
    if done.piece != piece {
        return false;
    }
    if !order.is(&done.order) {
        return false;
    }
    if done.verdicts.len() != verdicts.len() {
        return false;
    }
    verdicts.copy_from_slice(done.verdicts.as_slice());
    true
}
