ghost use Rattle.std.specs.Prelude.{◌≡◌, [], IfOk};

use ov_ids::{NodeId, OutOfMemory};
use std::alloc::Global;
use std::marker::Model;

/// The list of a node's last shuffle. Its members are given up first when the reply comes. Contracts see its ids in
/// order.
#[derive(Debug, Drop)]
pub struct Sent {
    ids: Vec<NodeId>,
}

impl Model for Sent {
    ghost use Rattle.std.specs.Prelude.{List, ℕ};

    ghost Value = { List ℕ };

    ghost view = { λ a. a.ids.items };
}

impl Sent {
    /// The empty list, of a node that has started no shuffle yet. Nothing is allocated.
    pub fn new(alloc: Global) -> Sent
        ensures { result ≡ [] }
    {
        Sent {
            ids: Vec::new(alloc),
        }
    }

    /// An equal list. OutOfMemory (99) if the allocation is refused.
    pub fn copy(&self) -> Result<Sent, OutOfMemory>
        ensures { IfOk result (λ sent. sent ≡ self.now) }
    {
        Ok(Sent {
            ids: Vec::from_slice(*self.ids.allocator(), &self.ids)?,
        })
    }

    /// The ids in order.
    pub fn as_slice(&self) -> &[NodeId]
        ensures { result.now ≡ self.now }
    {
        &self.ids
    }

    /// Puts a list in place of the last one.
    pub fn keep(&mut self, ids: Vec<NodeId>)
        ensures { self.new ≡ ids.items }
    {
        self.ids = ids;
    }
}
