//! A world of nodes in one process. Packets between the nodes are delivered, lost and repeated. Nodes are born and
//! crash. A journal has an entry for each event.
#![tactic(auto)]

mod boxed_live_peer;
mod boxed_plan;
mod event;
mod event_judging;
mod event_planning;
mod fault;
mod journal_and_step_theorems;
mod journal_entry_and_changes;
mod kept_graph;
mod links_by_views;
mod live_graph_updating;
mod member;
mod node_planning;
mod nodes;
mod packet;
mod planned_effects;
mod world;

pub use boxed_live_peer::LivePeer;
pub use event::Event;
pub use fault::NetFault;
pub use journal_and_step_theorems::{links_stay, one_graph, one_step};
pub use journal_entry_and_changes::{Change, Entry};
pub use member::Member;
pub use packet::Packet;
pub use world::{LONGEST_JOURNAL, STEP_PACKETS, World};
