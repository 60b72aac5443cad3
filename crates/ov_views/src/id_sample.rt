ghost use Rattle.std.specs.Prelude.{◌≡◌, ◌<◌, ◌≤◌, [], ◌∷◌, ◌++◌, length};
ghost use Rattle.ov_ids.specs.Sets.{most_members};

use ov_ids::{MOST_MEMBERS, NodeId};
use std::marker::Model;

/// The ids of a sample, in the order of picking. Nothing is allocated for them. Contracts see them as a list.
#[derive(Drop)]
pub struct Sample {
    ids: [NodeId; MOST_MEMBERS],
    count: usize,
}

impl Model for Sample {
    ghost use Rattle.std.specs.Prelude.{◌≤◌, List, ℕ, take};
    ghost use Rattle.ov_ids.specs.Sets.{most_members};

    ghost Value = { List ℕ };

    ghost view = { λ a. take a.count a.ids };

    ghost invariant = { λ a. a.count ≤ most_members };
}

impl Sample {
    pub(crate) fn new() -> Sample
        ensures { result ≡ [] }
    {
        Sample {
            ids: [NodeId(0); MOST_MEMBERS],
            count: 0,
        }
    }

    pub(crate) fn push(&mut self, id: NodeId)
        requires { length self.old < most_members }
        ensures { self.new ≡ self.old ++ id ∷ [] }
    {
        self.ids[self.count] = id;
        self.count += 1;
    }

    /// The ids in the order of picking.
    pub fn as_slice(&self) -> &[NodeId]
        ensures value { result.now ≡ self.now }
        ensures fits { length self.now ≤ most_members }
    {
        &self.ids[..self.count]
    }
}
