ghost use Rattle.std.specs.Prelude.{◌≡◌};

use std::marker::Model;

/// A node's id. Contracts see it as its number, which is below 2^32.
#[derive(Clone, Copy, Debug, PartialEq, Eq, PartialOrd, Ord, Hash, Default)]
pub struct NodeId(pub u32);

impl Model for NodeId {
    ghost use Rattle.std.specs.Prelude.{ℕ, ◌<◌};
    ghost use Rattle.ov_ids.specs.Limits.{number_limit};

    ghost Value = { ℕ };

    ghost view = { λ a. a.0 };

    ghost invariant = { λ a. a.0 < number_limit };

    ghost inverse = { λ n. record { 0 = n } };
}

impl NodeId {
    /// The id with this number.
    pub fn new(number: u32) -> NodeId
        ensures { result ≡ number }
    {
        NodeId(number)
    }

    /// The id's number.
    pub fn number(self) -> u32
        ensures { result ≡ self }
    {
        self.0
    }
}

/// The id of a broadcast: the node that made it, and its number among that node's broadcasts, from 0.
#[derive(Clone, Copy, Debug, PartialEq, Eq, PartialOrd, Ord, Hash)]
pub struct MsgId {
    pub origin: NodeId,
    pub seq: u32,
}
