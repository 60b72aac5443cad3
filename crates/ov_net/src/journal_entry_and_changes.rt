ghost use Rattle.std.specs.Prelude.{◌≡◌, IfOk};

use crate::event::Event;
use ov_ids::{NodeId, OutOfMemory, Seq};
use ov_peer::Delivery;
use ov_words::KeptWords;
use std::alloc::Global;

/// A change in an entry of the journal. Active views are those of HyParView (Leitão, Pereira, Rodrigues, DSN 2007).
#[derive(Clone, Copy, Debug, PartialEq, Eq)]
pub enum Change {
    /// A node was born.
    Born(NodeId),
    /// The second node came into the active view of the first.
    Up(NodeId, NodeId),
    /// The second node left the active view of the first.
    Down(NodeId, NodeId),
    /// A node crashed.
    Gone(NodeId),
}

/// The entry of one event in the journal.
#[derive(Debug, Drop)]
pub struct Entry {
    /// Its place in the journal, counted from 1.
    pub number: u32,
    /// The event.
    pub event: Event,
    /// The random words of the event.
    pub words: KeptWords,
    /// The changes, in order.
    pub changes: Seq<Change>,
    /// The message that a node delivered, if one did.
    pub delivery: Option<Delivery>,
}

impl Entry {
    /// An equal entry, or out of memory (99).
    pub fn copy(&self, alloc: Global) -> Result<Entry, OutOfMemory>
        ensures { IfOk result (λ e. e ≡ self.now) }
    {
        Ok(Entry {
            number: self.number,
            event: self.event.copy(alloc)?,
            words: self.words.copy(alloc)?,
            changes: self.changes.copy(alloc)?,
            delivery: copy_delivery(alloc, &self.delivery)?,
        })
    }
}

/// What an entry tells, but for its number.
#[derive(Drop)]
pub(crate) struct Told {
    /// The event.
    pub(crate) event: Event,
    /// The random words of the event.
    pub(crate) words: KeptWords,
    /// The changes, in order.
    pub(crate) changes: Seq<Change>,
    /// The message that a node delivered, if one did.
    pub(crate) delivery: Option<Delivery>,
}

impl Told {
    /// The entry that tells this, with this number.
    pub(crate) fn entry(self, number: u32) -> Entry
        ensures { result ≡ record {
          number = number;
          event = self.event;
          words = self.words;
          changes = self.changes;
          delivery = self.delivery;
        } }
    {
        let Told {
            event,
            words,
            changes,
            delivery,
        } = self;
        Entry {
            number,
            event,
            words,
            changes,
            delivery,
        }
    }
}

/// An equal delivery, if there is one.
pub(crate) fn copy_delivery(
    alloc: Global,
    delivery: &Option<Delivery>,
) -> Result<Option<Delivery>, OutOfMemory>
    ensures { IfOk result (λ d. d ≡ delivery.now) }
{
    match delivery {
        Some(delivery) => Ok(Some(Delivery {
            node: delivery.node,
            id: delivery.id,
            payload: delivery.payload.copy(alloc)?,
        })),
        None => Ok(None),
    }
}
