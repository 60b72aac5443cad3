//! Events by plain numbers, and what their entries tell.
use ov_ids::{NodeId, OutOfMemory};
use ov_net::{Change, Entry, Event};
use ov_test_kit::payload;
use std::alloc::Global;

/// An event.
#[derive(Clone, Copy, Drop)]
pub(crate) enum Line {
    Boot(u32),
    /// A node starts, and joins by the second one.
    BootBy(u32, u32),
    Deliver(u32),
    Lose(u32),
    Repeat(u32),
    Broadcast(u32, &'static [u8]),
    Snapshot,
}

impl Line {
    /// The event itself, or out of memory.
    pub(crate) fn event(self, alloc: Global) -> Result<Event, OutOfMemory> {
        Ok(match self {
            Line::Boot(node) => Event::Boot(NodeId(node), None),
            Line::BootBy(node, contact) => Event::Boot(NodeId(node), Some(NodeId(contact))),
            Line::Deliver(place) => Event::Deliver(place),
            Line::Lose(place) => Event::Lose(place),
            Line::Repeat(place) => Event::Repeat(place),
            Line::Broadcast(node, bytes) => Event::Broadcast(NodeId(node), payload(alloc, bytes)?),
            Line::Snapshot => Event::Snapshot,
        })
    }

    /// Its kind.
    pub(crate) fn kind(self) -> &'static str {
        match self {
            Line::Boot(_) => "boot",
            Line::BootBy(..) => "boot by",
            Line::Deliver(_) => "deliver",
            Line::Lose(_) => "lose",
            Line::Repeat(_) => "repeat",
            Line::Broadcast(..) => "broadcast",
            Line::Snapshot => "snapshot",
        }
    }
}

/// What an entry tells.
#[derive(Clone, Copy, PartialEq, Eq)]
pub(crate) enum Tells {
    Nothing,
    Born(u32),
    Up(u32, u32),
    /// A node dropped another one, and then a node took another one in.
    DownUp([u32; 2], [u32; 2]),
    /// A node delivered a message of node 1 with this number.
    Delivered(u32, u32),
}

/// What the changes of an entry tell, or None if they are none of a story.
fn changes_tell(changes: &[Change]) -> Option<Tells> {
    let Some((first, rest)) = changes.split_first() else {
        return Some(Tells::Nothing);
    };
    match (first, rest.first()) {
        (Change::Born(node), None) => Some(Tells::Born(node.0)),
        (Change::Up(node, other), None) => Some(Tells::Up(node.0, other.0)),
        (Change::Down(node, old), Some(Change::Up(other, new))) => {
            Some(Tells::DownUp([node.0, old.0], [other.0, new.0]))
        }
        _ => None,
    }
}

/// What an entry tells, or None if that is nothing of a story.
pub(crate) fn told_in(entry: &Entry) -> Option<Tells> {
    let told = changes_tell(entry.changes.as_slice())?;
    let Some(delivery) = &entry.delivery else {
        return Some(told);
    };
    if told != Tells::Nothing || delivery.id.origin != NodeId(1) {
        return None;
    }
    Some(Tells::Delivered(delivery.node.0, delivery.id.seq))
}
