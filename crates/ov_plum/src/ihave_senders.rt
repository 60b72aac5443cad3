ghost use Rattle.std.specs.Prelude.{◌≡◌, [], ◌∷◌, ◌++◌, drop, slice_get, IfOk};
ghost use Rattle.ov_ids.specs.Sets.{has, without};

use crate::map_by_id::TryCopy;
use ov_ids::{NodeId, OutOfMemory};
use std::alloc::Global;
use std::marker::Model;

/// The nodes that announced a message, the first to announce it first: the senders of the notes of one id. Contracts
/// see the list.
#[derive(Drop)]
pub struct Senders {
    ids: Vec<NodeId>,
}

impl Model for Senders {
    ghost use Rattle.std.specs.Prelude.{List, ℕ};

    ghost Value = { List ℕ };

    ghost view = { λ a. a.ids.items };
}

impl Senders {
    /// One sender alone.
    pub(crate) fn of(alloc: Global, sender: NodeId) -> Result<Senders, OutOfMemory>
        ensures { IfOk result (λ s. s ≡ sender ∷ []) }
    {
        Ok(Senders {
            ids: Vec::from_slice(alloc, &[sender])?,
        })
    }

    /// Whether a node is one of them.
    pub(crate) fn contains(&self, sender: NodeId) -> bool
        ensures { result ≡ has self.now sender }
    {
        self.ids.contains(&sender)
    }

    /// These senders, and one more as the last.
    pub(crate) fn with(&self, sender: NodeId) -> Result<Senders, OutOfMemory>
        ensures { IfOk result (λ s. s ≡ self.now ++ sender ∷ []) }
    {
        let mut ids = Vec::with_capacity(*self.ids.allocator(), self.ids.len() + 1)?;
        ids.extend_from_slice(&self.ids)?;
        ids.push(sender)?;
        Ok(Senders { ids })
    }

    /// The oldest sender.
    pub(crate) fn oldest(&self) -> Option<NodeId>
        ensures { result ≡ slice_get self.now 0 }
    {
        self.ids.first().copied()
    }

    /// The senders without the oldest.
    pub(crate) fn later(&self) -> Result<Senders, OutOfMemory>
        ensures { IfOk result (λ s. s ≡ drop 1 self.now) }
    {
        let later = match self.ids.split_first() {
            Some((_, later)) => later,
            None => &[],
        };
        Ok(Senders {
            ids: Vec::from_slice(*self.ids.allocator(), later)?,
        })
    }

    /// Takes a sender out.
    pub(crate) fn forget(&mut self, sender: NodeId)
        ensures { self.new ≡ without sender self.old }
    {
        self.ids.retain(|id| *id != sender);
    }
}

impl TryCopy for Senders {
    fn try_copy(&self) -> Result<Senders, OutOfMemory> {
        Ok(Senders {
            ids: Vec::from_slice(*self.ids.allocator(), &self.ids)?,
        })
    }
}
