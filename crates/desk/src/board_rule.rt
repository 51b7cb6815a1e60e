//! The rule of what is published: a history stands behind it.
use crate::board::Board;
use crate::history::Naming;
use crossbeam_utils::rule::{Outcome, Protocol};
use std::marker::PhantomData;

/// What is published is what its history leaves.
pub struct BoardRule<J> {
    of: PhantomData<J>,
}

impl<J: Naming> Protocol<Board, ()> for BoardRule<J> {
    ghost use Rattle.desk.specs.inside.Board.{IsBoard};

    ghost holds = { λ x views. IsBoard J.book J.limits x };

    ghost first = { tt };
}

/// A look, or a publication: what is then published is what its history leaves.
pub struct Sees<J> {
    of: PhantomData<J>,
}

impl<J: Naming> Outcome<Board, ()> for Sees<J> {
    ghost use Rattle.desk.specs.inside.Board.{IsBoard};

    ghost then = { λ v before after w. IsBoard J.book J.limits after };
}
