//! What all crates share: ids of nodes and broadcasts, lists of ids as text, lists and sets that contracts see as plain
//! values, the parameters of a node, how large a world may grow, how many workers there may be, the fault of a call that is out of memory, and
//! definitions for the order of faults.
#![tactic(auto)]

mod ascending_order;
mod id;
mod id_limit;
mod id_set;
mod ids_text;
mod out_of_memory;
mod params;
mod plain_list;
mod refill_rule;
mod worker_count;
mod world_scale;

pub use ascending_order::is_ascending;
pub use id::{MsgId, NodeId};
pub use id_limit::NUMBER_LIMIT;
pub use id_set::{IdSet, MOST_MEMBERS, place_for};
pub use ids_text::IdsText;
pub use out_of_memory::OutOfMemory;
pub use params::{BadParams, LONGEST_WALK, MOST_ACTIVE, MOST_PASSIVE, MOST_SAMPLED, Params};
pub use plain_list::Seq;
pub use refill_rule::Refill;
pub use worker_count::Workers;
pub use world_scale::Scale;
