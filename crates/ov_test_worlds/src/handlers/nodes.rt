//! What the tests of several handlers share.
use ov_ids::{NodeId, Params};
use ov_test_kit::is_spelt;
use ov_views::{Moves, ViewChange, Views};
use ov_wire::Message;
use ov_words::{Draws, Words};
use std::alloc::Global;

/// A node's views, whose members came in this order. Each came with the event's words from the first one on.
pub fn views_with(
    me: u32,
    params: Params,
    active: &[u32],
    passive: &[u32],
    words: &Words,
) -> Views {
    let mut views = Views::new(NodeId(me), params);
    for id in active {
        views.add_active(NodeId(*id), &mut Draws::new(words));
    }
    for id in passive {
        views.add_passive(NodeId(*id), &mut Draws::new(words));
    }
    views
}

/// The ids have these numbers.
pub fn are(ids: &[NodeId], numbers: &[u32]) -> bool {
    for (id, number) in ids.iter().zip(numbers) {
        if id.number() != *number {
            return false;
        }
    }
    ids.len() == numbers.len()
}

/// These are the active and the passive members.
pub fn has(views: &Views, active: &[u32], passive: &[u32]) -> bool {
    are(views.active(), active) && are(views.passive(), passive)
}

/// A change of the active view, with the node's number.
#[derive(Clone, Copy, PartialEq, Eq)]
pub enum Change {
    Up(u32),
    Down(u32),
}

/// The change, with the node's number.
pub fn numbered(change: ViewChange) -> Change {
    match change {
        ViewChange::Up(id) => Change::Up(id.number()),
        ViewChange::Down(id) => Change::Down(id.number()),
    }
}

/// Messages, to whom and as bytes.
pub type Spelt = &'static [(u32, &'static [u8])];

/// The sends are these bytes to these nodes.
fn are_spelt(alloc: Global, sends: &[(NodeId, Message)], expected: Spelt) -> bool {
    for ((to, message), (receiver, bytes)) in sends.iter().zip(expected) {
        if to.number() != *receiver || is_spelt(alloc, message, *bytes) != Ok(true) {
            return false;
        }
    }
    sends.len() == expected.len()
}

fn are_changes(changes: &[ViewChange], expected: &[Change]) -> bool {
    for (change, expected) in changes.iter().zip(expected) {
        if numbered(*change) != *expected {
            return false;
        }
    }
    changes.len() == expected.len()
}

/// The moves are these changes, and these bytes to these nodes.
pub fn are_moves(alloc: Global, moves: &Moves, changes: &[Change], sends: Spelt) -> bool {
    are_changes(&moves.changes, changes) && are_spelt(alloc, &moves.sends, sends)
}
