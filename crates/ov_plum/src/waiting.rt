ghost use Rattle.std.specs.Prelude.{◌≡◌, IfOk, OnOk, OnErr};
ghost use Rattle.std.specs.FinSet as set;
ghost use Rattle.ov_plum.specs.Code.Waiting.{none_waited, waiting_asked, waiting_cleared};
ghost use Rattle.ov_plum.specs.Code.Waiting.{waiting_forgot, waiting_noted};
ghost use Rattle.ov_plum.specs.Notes.{oldest};

use crate::ihave_senders::Senders;
use crate::map_by_id::ById;
use ov_ids::{MsgId, NodeId, OutOfMemory};
use std::alloc::Global;
use std::marker::Model;

/// The messages that a node waits for: the ids whose timers run, each with the senders of its notes. Contracts see a
/// list of notes and a set of ids.
#[derive(Drop)]
pub(crate) struct Waiting {
    by_id: ById<Senders>,
}

impl Model for Waiting {
    ghost use Rattle.ov_plum.specs.Code.Codes.{waiting_code};
    ghost use Rattle.ov_plum.specs.Code.Waiting.{WaitingState, waiting_in};

    ghost Value = { WaitingState };

    ghost coded = { waiting_code };

    ghost view = { λ a. waiting_in a.by_id };
}

impl Waiting {
    /// Nothing is waited for. Nothing is allocated.
    pub(crate) fn new(alloc: Global) -> Waiting
        ensures { result ≡ none_waited }
    {
        Waiting {
            by_id: ById::new(alloc),
        }
    }

    /// An equal value.
    pub(crate) fn copy(&self) -> Result<Waiting, OutOfMemory>
        ensures { IfOk result (λ w. w ≡ self.now) }
    {
        Ok(Waiting {
            by_id: self.by_id.copy()?,
        })
    }

    /// Whether the timer of an id runs.
    pub(crate) fn runs(&self, id: &MsgId) -> bool
        ensures { result ≡ set.contains self.now.running id.now }
    {
        self.by_id.contains(id)
    }

    /// The sender of the oldest note of an id, if there is one.
    pub(crate) fn oldest(&self, id: &MsgId) -> Option<NodeId>
        ensures { result ≡ oldest id.now self.now.notes }
    {
        match self.by_id.get(id) {
            Some(senders) => senders.oldest(),
            None => None,
        }
    }

    /// Notes that a sender has a message, unless it is noted, and starts the timer. Out of memory, nothing has changed.
    pub(crate) fn note(&mut self, id: MsgId, sender: NodeId) -> Result<(), OutOfMemory>
        ensures ok { OnOk result (self.new ≡ waiting_noted sender id self.old) }
        ensures err { OnErr result (self.new ≡ self.old) }
    {
        let senders = match self.by_id.get(&id) {
            Some(senders) => {
                if senders.contains(sender) {
                    return Ok(());
                }
                senders.with(sender)?
            }
            None => Senders::of(self.by_id.allocator(), sender)?,
        };
        self.by_id.insert(id, senders)?;
        Ok(())
    }

    /// Takes the oldest note of an id out, if there is one. Out of memory, nothing has changed.
    pub(crate) fn take_oldest(&mut self, id: MsgId) -> Result<(), OutOfMemory>
        ensures ok { OnOk result (self.new ≡ waiting_asked id self.old) }
        ensures err { OnErr result (self.new ≡ self.old) }
    {
        let senders = match self.by_id.get(&id) {
            Some(senders) => senders.later()?,
            None => return Ok(()),
        };
        self.by_id.insert(id, senders)?;
        Ok(())
    }

    /// Takes the notes of an id out, and stops its timer.
    pub(crate) fn clear(&mut self, id: &MsgId)
        ensures { self.new ≡ waiting_cleared id.now self.old }
    {
        self.by_id.remove(id);
    }

    /// Takes the notes by a sender out. Timers run on.
    pub(crate) fn forget(&mut self, sender: NodeId)
        ensures { self.new ≡ waiting_forgot sender self.old }
    {
        self.by_id.forget(sender);
    }
}
