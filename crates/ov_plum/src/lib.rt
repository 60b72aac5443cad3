//! Plumtree's part of a node: over which links whole broadcasts go, which of them it holds, and which it waits for.
//!
//! Plumtree (Leitão, Pereira, Rodrigues, *Epidemic broadcast trees*, SRDS 2007) sends a broadcast whole over eager
//! links, which come to form a tree, and only announces it over lazy ones; a node that misses one asks for it, and so
//! mends the tree.
#![tactic(auto)]

mod eager_and_lazy_neighbours;
mod held_message;
mod ihave_senders;
mod map_by_id;
mod plum;
mod plum_change;
mod step_effects;
mod timer_fault;
mod waiting;

pub use held_message::Held;
pub use plum::Plum;
pub use plum_change::{PlumChange, PlumPlan};
pub use step_effects::Spread;
pub use timer_fault::TimerFault;
