//! A node's two views of the overlay, after HyParView (Leitão, Pereira, Rodrigues, DSN 2007), and the operations on
//! them.
//!
//! The active view holds the nodes that a node exchanges messages with, and the passive view those that it knows as
//! substitutes. No operation on them allocates. Random members are picked by the random words of the event, so an
//! operation is a function of the views and these words. The order of the picks is chosen here. `Moves` are the
//! effects of one step: what the node sends, and how its active view changes.
//!
//! The rules of the whole behaviour are in `specs/`: `Changes` and `Sampling` for the operations, `JoinRows`,
//! `NeighborRows` and `ShuffleRows` for the inputs of a node, and `Allowed` for one step at any input. `Handling`
//! says what a handler promises.
#![tactic(auto)]

mod change;
mod id_sample;
mod step_effects;
mod views;

pub use change::{Changes, ViewChange};
pub use id_sample::Sample;
pub use step_effects::Moves;
pub use views::{View, Views};
