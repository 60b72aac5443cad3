use crate::Phase;
use ov_grow_options::GrowOptions;
use ov_ids::NodeId;

/// One broadcast of a run.
#[derive(Clone, Copy)]
pub struct MessageRow {
    /// The options of the run, its seed among them.
    pub options: GrowOptions,
    /// The phase in which it was made.
    pub phase: Phase,
    /// Which broadcast of the phase it is, counted from 1.
    pub number: u32,
    /// The node that made it.
    pub origin: NodeId,
    /// How many nodes lived when it began.
    pub live: u32,
    /// How many nodes delivered it.
    pub delivered: u32,
    /// The most links that it took to a node that delivered it.
    pub hops: u32,
    /// How many GOSSIP of it nodes sent.
    pub gossip: u32,
    /// How many IHAVE of it.
    pub ihave: u32,
    /// How many GRAFT of it.
    pub graft: u32,
    /// How many PRUNE nodes sent from when it was made until nothing of it was left.
    pub prune: u32,
}
