ghost use Rattle.std.specs.Prelude.{◌≡◌, ◌≤◌, IfSome, IfNone};
ghost use Rattle.ov_grow_options.specs.Limits.{IsWithin};

use std::marker::Model;

/// A number from LOW to HIGH. Contracts see the number.
#[derive(Clone, Copy, Debug, PartialEq, Eq)]
pub struct Within<const LOW: u32, const HIGH: u32>(u32);

impl<const LOW: u32, const HIGH: u32> Model for Within<LOW, HIGH> {
    ghost use Rattle.std.specs.Prelude.{ℕ};
    ghost use Rattle.ov_grow_options.specs.Limits.{IsWithin};

    ghost Value = { ℕ };

    ghost view = { λ w. w.0 };

    ghost invariant = { λ w. IsWithin LOW HIGH w.0 };

    ghost inverse = { λ n. record { 0 = n } };
}

impl<const LOW: u32, const HIGH: u32> Within<LOW, HIGH> {
    /// This number. None is returned if it is below LOW or above HIGH.
    pub fn new(number: u32) -> Option<Self>
        ensures some { IfSome result (λ w. (w ≡ number) × IsWithin LOW HIGH number) }
        ensures none { IfNone result (¬ IsWithin LOW HIGH number) }
    {
        if number < LOW || number > HIGH {
            return None;
        }
        Some(Within(number))
    }

    /// The number.
    pub fn get(self) -> u32
        ensures value { result ≡ self.entry }
        ensures least { LOW ≤ result }
        ensures most { result ≤ HIGH }
    {
        self.0
    }
}

/// The most nodes that an overlay is grown with: as many as may be born in a large world. (Chosen here.)
pub const MOST_NODES: u32 = 32_768;

/// The most times of 100: each time.
pub const MOST_OF_HUNDRED: u32 = 100;

/// The largest share of 100 that is never the whole.
pub const MOST_SHARE: u32 = 99;

/// The most rounds of shuffles in a phase, and the most broadcasts after a snapshot. (Chosen here.)
pub const MOST_ROUNDS: u32 = 1000;

/// The most turns between two births. (Chosen here.)
pub const MOST_TURNS: u32 = 65_536;

/// How many nodes an overlay is grown with.
pub type NodeCount = Within<1, MOST_NODES>;

/// A chance: of 100 times, how often something happens.
pub type Chance = Within<0, MOST_OF_HUNDRED>;

/// A share that is never the whole: how many of 100.
pub type Share = Within<0, MOST_SHARE>;

/// How many rounds of shuffles there are, or how many broadcasts.
pub type Count = Within<0, MOST_ROUNDS>;

/// How many turns there are between two births.
pub type Pace = Within<0, MOST_TURNS>;

/// How many nodes there are, unless another number is asked for.
pub const NODES: NodeCount = Within(100);

/// Never.
pub const NO_CHANCE: Chance = Within(0);

/// None.
pub const NO_SHARE: Share = Within(0);

/// None.
pub const NO_ROUNDS: Count = Within(0);

/// How many rounds there are while the overlay settles, unless another number is asked for.
pub const SETTLING_ROUNDS: Count = Within(3);

/// How many rounds there are while the overlay heals, unless another number is asked for.
pub const HEALING_ROUNDS: Count = Within(2);
