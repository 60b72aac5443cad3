ghost use Rattle.std.specs.Prelude.{◌≡◌};
ghost use Rattle.ov_grow_options.specs.CommandLine.{order_name};
ghost use Rattle.ov_grow_options.specs.Options.{default_options};

use crate::{
    Chance, Count, HEALING_ROUNDS, NO_CHANCE, NO_ROUNDS, NO_SHARE, NODES, NodeCount, Pace,
    SETTLING_ROUNDS, Share,
};
use ov_ids::{NodeId, Params};

/// Whose turn is next.
#[derive(Clone, Copy, Debug, PartialEq, Eq)]
pub enum Order {
    /// That of any packet that is on its way.
    Random,
    /// That of the packet that is on its way for longest.
    Oldest,
}

impl Order {
    /// The word for it, in options and in rows.
    pub fn name(self) -> &'static str
        ensures { result.now ≡ order_name self }
    {
        match self {
            Order::Random => "random",
            Order::Oldest => "oldest",
        }
    }
}

/// Which nodes crash once the overlay has settled.
#[derive(Clone, Copy, Debug, PartialEq, Eq)]
pub enum Crash {
    /// So many of 100 live nodes.
    Share(Share),
    /// Those that the settled overlay's report names as the cut.
    Cut,
}

/// The options of growing. (Chosen here.)
#[derive(Clone, Copy, Debug, PartialEq, Eq)]
pub struct GrowOptions {
    /// How many nodes join.
    pub nodes: NodeCount,
    /// The parameters of all nodes.
    pub params: Params,
    /// The seed of the events' random words, and of the choices of growing.
    pub seed: u64,
    /// The chance that a packet is lost when its turn comes while nodes join.
    pub loss_join: Chance,
    /// The same in the later phases.
    pub loss: Chance,
    /// The chance that a packet is repeated first when its turn comes and it is not lost, below 100.
    pub repeat: Share,
    /// Whose turn is next.
    pub order: Order,
    /// How many turns there are between two births at most; without it 1,000. They end when no packet is left.
    pub pace: Option<Pace>,
    /// Rounds of shuffles while the overlay settles.
    pub rounds: Count,
    /// Which nodes crash.
    pub crash: Crash,
    /// Rounds of shuffles while the overlay heals.
    pub heal: Count,
    /// Broadcasts after each of the three snapshots.
    pub broadcasts: Count,
    /// Whether broadcasts are made one by one.
    pub sequential: bool,
    /// The node that makes each broadcast; without it one of the live nodes is chosen for each.
    pub sender: Option<NodeId>,
    /// Whether nodes learn of crashes only by sending.
    pub detect: bool,
}

impl Default for GrowOptions {
    /// Each option at its default.
    fn default() -> GrowOptions
        ensures { result ≡ default_options }
    {
        GrowOptions {
            nodes: NODES,
            params: Params::new(5, 30, 6, 3, 3, 4, 4).unwrap(),
            seed: 0,
            loss_join: NO_CHANCE,
            loss: NO_CHANCE,
            repeat: NO_SHARE,
            order: Order::Random,
            pace: None,
            rounds: SETTLING_ROUNDS,
            crash: Crash::Share(NO_SHARE),
            heal: HEALING_ROUNDS,
            broadcasts: NO_ROUNDS,
            sequential: false,
            sender: None,
            detect: false,
        }
    }
}
