ghost use Rattle.std.specs.Prelude.{◌≡◌};
ghost use Rattle.std.specs.Iterator.{YieldsFirst, item_count};
ghost use Rattle.ov_views.specs.Code.ChangeOrder.{in_order};

use ov_ids::NodeId;
use std::marker::Model;

/// A change of an active view.
#[derive(Clone, Copy, Debug, PartialEq, Eq)]
pub enum ViewChange {
    /// The node became active.
    Up(NodeId),
    /// The node is no longer active.
    Down(NodeId),
}

/// The changes of the active view in one operation, in order: at most one node goes down, and then at most one comes
/// up. Contracts see the changes that are still to come.
#[derive(Debug, Drop)]
pub struct Changes {
    down: Option<NodeId>,
    up: Option<NodeId>,
}

impl Model for Changes {
    ghost use Rattle.std.specs.Prelude.{List};
    ghost use Rattle.ov_views.specs.Code.ChangeOrder.{in_order};
    ghost use Rattle.ov_views.specs.declared.change.ViewChange.{ViewChange};

    ghost Value = { List ViewChange };

    ghost view = { λ a. in_order a.down a.up };
}

impl Changes {
    pub(crate) fn new(down: Option<NodeId>, up: Option<NodeId>) -> Changes
        ensures { result ≡ in_order down up }
    {
        Changes { down, up }
    }
}

impl Iterator for Changes {
    type Item = ViewChange;

    ghost next_gives = { YieldsFirst (λ n. n) };

    ghost remaining = { item_count (λ n. n) };

    fn next(&mut self) -> Option<ViewChange> {
        if let Some(down) = self.down.take() {
            return Some(ViewChange::Down(down));
        }
        let up = self.up.take()?;
        Some(ViewChange::Up(up))
    }
}
