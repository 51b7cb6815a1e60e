//! What holds of every cut. The function does nothing: its contract is the law.
ghost use Rattle.std.specs.Prelude.{◌≡◌};
ghost use Rattle.pieces.specs.Pieces.{PiecesAreAllNodes};

/// However nodes are cut, the pieces put together in order are all the nodes, each once.
pub fn pieces_are_all_nodes()
    ensures { PiecesAreAllNodes }
{}
