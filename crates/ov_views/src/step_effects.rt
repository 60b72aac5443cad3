ghost use Rattle.std.specs.Prelude.{◌≡◌, ◌≤◌, ◌+◌, [], ◌∷◌, ◌++◌, length, IfOk, vec_len, vec_capacity};
ghost use Rattle.ov_views.specs.Sending.{farewells};

use crate::change::{Changes, ViewChange};
use ov_ids::{NodeId, OutOfMemory};
use ov_wire::{Body, Message};
use std::alloc::Global;

/// What a node sends in one step and to whom, and how its active view changes, each in order.
#[derive(Debug, Drop)]
pub struct Moves {
    pub sends: Vec<(NodeId, Message)>,
    pub changes: Vec<ViewChange>,
}

impl Moves {
    ghost use Rattle.ov_views.specs.Room.{HasRoom};

    /// No moves, with room for this many sends and for two changes. In this way a handler makes all its room before it
    /// changes anything. OutOfMemory (99) if an allocation is refused.
    pub fn with_room(alloc: Global, sends: usize) -> Result<Moves, OutOfMemory>
        ensures sends { IfOk result (λ m. m.sends.items ≡ []) }
        ensures changes { IfOk result (λ m. m.changes.items ≡ []) }
        ensures room { IfOk result (λ m. HasRoom m sends 2) }
    {
        Ok(Moves {
            sends: Vec::with_capacity(alloc, sends)?,
            changes: Vec::with_capacity(alloc, 2)?,
        })
    }

    /// No moves, with room for this many sends and for no change. OutOfMemory (99) if an allocation is refused.
    pub fn to_send(alloc: Global, sends: usize) -> Result<Moves, OutOfMemory>
        ensures sends { IfOk result (λ m. m.sends.items ≡ []) }
        ensures changes { IfOk result (λ m. m.changes.items ≡ []) }
        ensures room { IfOk result (λ m. HasRoom m sends 0) }
    {
        let sends = Vec::with_capacity(alloc, sends)?;
        Ok(Moves {
            sends,
            changes: Vec::new(alloc),
        })
    }

    /// Sends a message. Room for it must be there, and nothing is allocated.
    pub fn send(&mut self, to: NodeId, message: Message)
        requires { HasRoom self.old 1 0 }
        ensures sends { self.new.sends.items ≡ self.old.sends.items ++ (to, message) ∷ [] }
        ensures len { vec_len self.new.sends ≡ vec_len self.old.sends + 1 }
        ensures changes { self.new.changes ≡ self.old.changes }
        ensures capacity { vec_capacity self.old.sends ≤ vec_capacity self.new.sends }
    {
        self.sends.push_reserved((to, message));
    }

    fn change(&mut self, change: ViewChange)
        requires { HasRoom self.old 0 1 }
        ensures changes { self.new.changes.items ≡ self.old.changes.items ++ change ∷ [] }
        ensures len { vec_len self.new.changes ≡ vec_len self.old.changes + 1 }
        ensures sends { self.new.sends ≡ self.old.sends }
        ensures capacity { vec_capacity self.old.changes ≤ vec_capacity self.new.changes }
    {
        self.changes.push_reserved(change);
    }

    /// Appends the changes of one operation. Room for them must be there, and nothing is allocated.
    pub fn tell_changes(&mut self, changes: Changes)
        requires { HasRoom self.old 0 (length changes) }
        ensures changes { self.new.changes.items ≡ self.old.changes.items ++ changes }
        ensures sends { self.new.sends ≡ self.old.sends }
    {
        for told in changes {
            self.change(told);
        }
    }

    /// Appends the changes of one operation, and sends DISCONNECT to the node that goes down. Room for both must be
    /// there, and nothing is allocated.
    pub fn tell(&mut self, me: NodeId, changes: Changes)
        requires { HasRoom self.old (length (farewells me changes)) (length changes) }
        ensures sends { self.new.sends.items ≡ self.old.sends.items ++ farewells me changes }
        ensures changes { self.new.changes.items ≡ self.old.changes.items ++ changes }
        ensures capacity { vec_capacity self.old.sends ≤ vec_capacity self.new.sends }
        ensures len { vec_len self.new.sends ≡ vec_len self.old.sends + length (farewells me changes) }
    {
        for change in changes {
            if let ViewChange::Down(down) = change {
                let message = Message {
                    from: me,
                    body: Body::Disconnect,
                };
                self.send(down, message);
            }
            self.change(change);
        }
    }
}
