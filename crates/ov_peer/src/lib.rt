//! A node: HyParView's handlers and Plumtree's, joined so that one input is one step.
#![tactic(auto)]

mod fault;
mod hyparview_message_dispatch;
mod input_and_output;
mod peer;
mod plan;
mod tree_updates;

pub use fault::PeerFault;
pub use input_and_output::{Delivery, Input, Output};
pub use peer::{MOST_BROADCASTS, Peer};
pub use plan::{HyParViewChange, NextViews, Plan};
