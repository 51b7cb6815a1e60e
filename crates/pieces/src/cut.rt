//! Where the nodes are cut.
ghost use Rattle.std.specs.Prelude.{◌≡◌, ◌<◌, ◌≤◌};
ghost use Rattle.pieces.specs.Pieces.{begins};

/// The place at which a piece begins, where so many nodes are cut into so many pieces. That of the
/// number of pieces, behind the last one, is the number of nodes.
#[tactic(auto, using(crate::proofs::Cutting::begins_by_parts, crate::proofs::Cutting::begins_within))]
pub fn begin(nodes: usize, pieces: usize, piece: usize) -> usize
    requires some { 0 < pieces }
    requires few { pieces ≤ 64 }
    requires there { piece ≤ pieces }
    ensures place { result ≡ begins nodes pieces piece }
    ensures within { result ≤ nodes }
{
    // The product of all nodes and the piece could be too large, these two are not.
    nodes / pieces * piece + nodes % pieces * piece / pieces
}
