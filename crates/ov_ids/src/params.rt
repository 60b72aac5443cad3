ghost use Rattle.std.specs.Prelude.{◌≡◌, IfOk, IsOk, ◌↔◌};
ghost use Rattle.ov_ids.specs.ParamsState.{ParamsState, AreWithinLimits, params_of};

use crate::{Refill, Scale};
use std::marker::Model;
use thiserror::Error;

/// The most active members of a node. (Chosen here.)
pub const MOST_ACTIVE: u32 = 16;

/// The most passive members of a node. (Chosen here.)
pub const MOST_PASSIVE: u32 = 64;

/// The longest walk, and the longest time to live of a shuffle. (Chosen here.)
pub const LONGEST_WALK: u32 = 15;

/// How many members of a view a shuffle samples at most. (Chosen here.)
pub const MOST_SAMPLED: u32 = 8;

/// A parameter is out of its limits.
#[derive(Clone, Copy, Debug, PartialEq, Eq, Error)]
#[error("a parameter is out of its limits")]
pub struct BadParams;

impl BadParams {
    /// The fault's number.
    pub fn number(&self) -> u32
        ensures { result ≡ 21 }
    {
        21
    }
}

/// The parameters of a node in HyParView, each within its limits, the rule by which a node that is told DISCONNECT looks
/// for another active member, and how large the world of such nodes may grow. Contracts see them as `ParamsState`.
#[derive(Clone, Copy, Debug, PartialEq, Eq)]
pub struct Params {
    active: u32,
    passive: u32,
    arwl: u32,
    prwl: u32,
    ka: u32,
    kp: u32,
    shuffle_ttl: u32,
    refill: Refill,
    scale: Scale,
}

impl Model for Params {
    ghost use Rattle.ov_ids.specs.ParamsState.{AreWithinLimits, ParamsState, params_of};

    ghost Value = { ParamsState };

    ghost view = { λ a. record (params_of a.active a.passive a.arwl a.prwl a.ka a.kp a.shuffle_ttl)
        { refill = a.refill; scale = a.scale } };

    ghost invariant = { λ a. AreWithinLimits (record (params_of a.active a.passive a.arwl a.prwl a.ka a.kp
        a.shuffle_ttl) { refill = a.refill; scale = a.scale }) };

    ghost inverse = { λ p. record {
      active = p.active;
      passive = p.passive;
      arwl = p.arwl;
      prwl = p.prwl;
      ka = p.ka;
      kp = p.kp;
      shuffle_ttl = p.shuffle_ttl;
      refill = p.refill;
      scale = p.scale;
    } };
}

impl Params {
    /// The parameters, with the profile's rule at DISCONNECT, of worlds of the profile's scale. BadParams (21) if one is
    /// out of its limits.
    pub fn new(
        active: u32,
        passive: u32,
        arwl: u32,
        prwl: u32,
        ka: u32,
        kp: u32,
        shuffle_ttl: u32,
    ) -> Result<Params, BadParams>
        ensures within { IsOk result ↔ AreWithinLimits (params_of active passive arwl prwl ka kp shuffle_ttl) }
        ensures value { IfOk result (λ params. params ≡ params_of active passive arwl prwl ka kp shuffle_ttl) }
    {
        if active < 1
            || active > MOST_ACTIVE
            || passive < 1
            || passive > MOST_PASSIVE
            || arwl > LONGEST_WALK
            || prwl > arwl
            || ka > MOST_SAMPLED
            || kp > MOST_SAMPLED
            || shuffle_ttl < 1
            || shuffle_ttl > LONGEST_WALK
        {
            return Err(BadParams);
        }
        Ok(Params {
            active,
            passive,
            arwl,
            prwl,
            ka,
            kp,
            shuffle_ttl,
            refill: Refill::Never,
            scale: Scale::Profile,
        })
    }

    /// The same parameters with this rule at DISCONNECT.
    pub fn with_refill(self, refill: Refill) -> Params
        ensures { result ≡ record self { refill = refill } }
    {
        Params { refill, ..self }
    }

    /// When a node that is told DISCONNECT by an active member looks for another one.
    pub fn refill(&self) -> Refill
        ensures { result ≡ self.now.refill }
    {
        self.refill
    }

    /// The same parameters, of worlds of this scale.
    pub fn with_scale(self, scale: Scale) -> Params
        ensures { result ≡ record self { scale = scale } }
    {
        Params { scale, ..self }
    }

    /// How large a world of nodes with these parameters may grow.
    pub fn scale(&self) -> Scale
        ensures { result ≡ self.now.scale }
    {
        self.scale
    }

    /// How many members the active view may have: 1 to 16.
    pub fn active(&self) -> usize
        ensures value { result ≡ self.now.active }
        ensures limits { AreWithinLimits self.now }
    {
        self.active as usize
    }

    /// How many members the passive view may have: 1 to 64.
    pub fn passive(&self) -> usize
        ensures value { result ≡ self.now.passive }
        ensures limits { AreWithinLimits self.now }
    {
        self.passive as usize
    }

    /// The active random walk length (ARWL), the time to live of a new FORWARDJOIN: 0 to 15.
    pub fn arwl(&self) -> u8
        ensures value { result ≡ self.now.arwl }
        ensures limits { AreWithinLimits self.now }
    {
        self.arwl as u8
    }

    /// The passive random walk length (PRWL), the time to live at which the node of a FORWARDJOIN becomes a passive
    /// member: 0 to `arwl`.
    pub fn prwl(&self) -> u8
        ensures value { result ≡ self.now.prwl }
        ensures limits { AreWithinLimits self.now }
    {
        self.prwl as u8
    }

    /// How many active members a shuffle samples: 0 to 8.
    pub fn ka(&self) -> usize
        ensures value { result ≡ self.now.ka }
        ensures limits { AreWithinLimits self.now }
    {
        self.ka as usize
    }

    /// How many passive members a shuffle samples: 0 to 8.
    pub fn kp(&self) -> usize
        ensures value { result ≡ self.now.kp }
        ensures limits { AreWithinLimits self.now }
    {
        self.kp as usize
    }

    /// The time to live of a new SHUFFLE: 1 to 15.
    pub fn shuffle_ttl(&self) -> u8
        ensures value { result ≡ self.now.shuffle_ttl }
        ensures limits { AreWithinLimits self.now }
    {
        self.shuffle_ttl as u8
    }
}
