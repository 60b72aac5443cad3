//! What a node does at NEIGHBOR, NEIGHBORREPLY, DISCONNECT and a crash report: how its active view is repaired, after
//! HyParView (Leitão, Pereira, Rodrigues, DSN 2007).
//!
//! A node that lost an active member asks its passive members one after another, each once, until one accepts, nobody
//! is left or the active view is full. That is an attempt. How an attempt goes on, and what a reply does that nobody
//! waits for, are chosen here. Every call makes all its room before it changes anything, so nothing has changed if it
//! is out of memory.
//!
//! The rules of these steps are in `ov_views/specs/NeighborRows.antt`, and what a handler promises in `Handling.antt`
//! beside it.
#![tactic(auto)]

mod attempt;
mod neighbor_answering;

pub use attempt::{Attempt, on_crash_report, on_disconnect, on_reply};
pub use neighbor_answering::on_neighbor;
