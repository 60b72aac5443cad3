ghost use Rattle.std.specs.Prelude.{◌≡◌, [], length, slice_get, None, Some, MatchOption};

use ov_ids::NodeId;
use ov_lists::Paths;
use std::alloc::Global;
use std::marker::Model;

/// The components that a crash leaves, each a list of ids in ascending order. Contracts see a list of lists.
#[derive(Debug, Drop)]
pub struct Components {
    lists: Paths,
}

impl Model for Components {
    ghost use Rattle.std.specs.Prelude.{List, ℕ};

    ghost Value = { List (List ℕ) };

    ghost view = { λ p. p.lists };
}

impl Components {
    /// No components. Nothing is allocated.
    pub fn none(alloc: Global) -> Components
        ensures { result ≡ [] }
    {
        Components {
            lists: Paths::new(alloc),
        }
    }

    /// The components that these lists are. Nothing is allocated.
    pub(crate) fn new(lists: Paths) -> Components
        ensures { result ≡ lists }
    {
        Components { lists }
    }

    /// How many components there are.
    pub fn len(&self) -> usize
        ensures { result ≡ length self.now }
    {
        self.lists.len()
    }

    /// The component at a place, counted from 0. None behind the last one.
    pub fn get(&self, place: usize) -> Option<&[NodeId]>
        ensures { MatchOption result (slice_get self.now place ≡ None)
            (λ component. slice_get self.now place ≡ Some component.now) }
    {
        self.lists.get(place)
    }
}
