ghost use Rattle.std.specs.Prelude.{◌↔◌, IsTrue};
ghost use Rattle.ov_fans.specs.Theorems.{IsNoCut};

use crate::piece::Piece;
use ov_flow::PlacePaths;
use ov_ids::{NodeId, Seq};

/// The nearest minimum cut of a piece, and two members that it separates: the piece's source, `near`, and `far`.
#[derive(Drop)]
pub struct Parting {
    /// The nodes of the cut, ascending.
    pub cut: Seq<NodeId>,
    /// The member at the piece's source.
    pub near: NodeId,
    /// For a pair the other member. For a fan the lowest member before its source that is not in the cut.
    pub far: NodeId,
    /// The nodes that are joined to `near` without the cut, ascending.
    pub side: Seq<NodeId>,
}

/// The result of a piece.
#[derive(Drop)]
pub enum Found {
    /// The piece is a pair of linked members, and asks for no paths.
    Linked,
    /// The paths that the piece asks for, each a list of places of nodes in the graph, counted from 0.
    Paths(PlacePaths),
    /// The nearest minimum cut, with fewer nodes than the level.
    Cut(Box<Parting>),
}

/// A piece with its result.
#[derive(Drop)]
pub struct Settled {
    pub piece: Piece,
    pub found: Found,
}

impl Settled {
    /// Whether the result is a cut.
    pub fn is_cut(&self) -> bool
        ensures { IsTrue result ↔ (¬ IsNoCut self.now.found) }
    {
        match &self.found {
            Found::Cut(_) => true,
            Found::Linked | Found::Paths(_) => false,
        }
    }
}
