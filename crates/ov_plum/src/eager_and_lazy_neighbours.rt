ghost use Rattle.std.specs.Prelude.{◌≡◌, ◌<◌, ◌+◌, [], length};
ghost use Rattle.ov_plum.specs.PlumState.{AreBranches, most_neighbours, is_linked, up, down, makes_eager, makes_lazy};

use ov_ids::{IdSet, NodeId};
use std::marker::Model;

/// A node's neighbours, each either eager or lazy, at most 64. Nothing is allocated.
#[derive(Drop)]
pub(crate) struct Branches {
    eager: IdSet,
    lazy: IdSet,
}

impl Model for Branches {
    ghost use Rattle.ov_plum.specs.PlumState.{BranchesState, AreBranches};

    ghost Value = { BranchesState };

    ghost view = { λ a. record { eager = a.eager; lazy = a.lazy } };

    ghost invariant = { λ a. AreBranches (record { eager = a.eager; lazy = a.lazy }) };
}

impl Branches {
    /// No neighbours.
    pub(crate) fn new() -> Branches
        ensures { result ≡ record { eager = []; lazy = [] } }
    {
        Branches {
            eager: IdSet::new(),
            lazy: IdSet::new(),
        }
    }

    /// Equal neighbours.
    pub(crate) fn copy(&self) -> Branches
        ensures { result ≡ self.now }
    {
        Branches {
            eager: self.eager.copy(),
            lazy: self.lazy.copy(),
        }
    }

    /// The eager neighbours, ascending.
    pub(crate) fn eager(&self) -> &[NodeId]
        ensures value { result.now ≡ self.now.eager }
        ensures branches { AreBranches self.now }
    {
        self.eager.as_slice()
    }

    /// The lazy neighbours, ascending.
    pub(crate) fn lazy(&self) -> &[NodeId]
        ensures value { result.now ≡ self.now.lazy }
        ensures branches { AreBranches self.now }
    {
        self.lazy.as_slice()
    }

    /// Whether a node is a neighbour.
    pub(crate) fn is_linked(&self, id: NodeId) -> bool
        ensures { result ≡ is_linked self.now id }
    {
        self.eager.contains(id) || self.lazy.contains(id)
    }

    /// Makes a node an eager neighbour.
    #[tactic(auto, using(crate::proofs::Branching::comes_up))]
    pub(crate) fn up(&mut self, id: NodeId)
        requires { length self.old.eager + length self.old.lazy < most_neighbours }
        ensures { self.new ≡ up id self.old }
    {
        self.lazy.remove(id);
        self.eager.insert(id);
    }

    /// Makes a node no neighbour.
    pub(crate) fn down(&mut self, id: NodeId)
        ensures { self.new ≡ down id self.old }
    {
        self.eager.remove(id);
        self.lazy.remove(id);
    }

    /// Makes a neighbour eager.
    pub(crate) fn make_eager(&mut self, id: NodeId)
        ensures { self.new ≡ makes_eager id self.old }
    {
        if self.lazy.contains(id) {
            self.lazy.remove(id);
            self.eager.insert(id);
        }
    }

    /// Makes a neighbour lazy.
    pub(crate) fn make_lazy(&mut self, id: NodeId)
        ensures { self.new ≡ makes_lazy id self.old }
    {
        if self.eager.contains(id) {
            self.eager.remove(id);
            self.lazy.insert(id);
        }
    }
}
