ghost use Rattle.std.specs.Prelude.{◌≡◌};
ghost use Rattle.ov_even.specs.Faults.{number_of};
ghost use Rattle.ov_even.specs.declared.fault.AnalyseFault.TheVariants.{OutOfMemory as out_of_memory};

use thiserror::Error;

/// Why an analysis is refused.
#[derive(Clone, Copy, Debug, PartialEq, Eq, Error)]
pub enum AnalyseFault {
    /// The graph has no node.
    #[error("the graph has no node")]
    NoNodes,
    /// The members are no group: they are empty, do not ascend, or are not all nodes of the graph.
    #[error("the ids are no group of nodes of the graph")]
    BadGroup,
    /// Out of memory.
    #[error("out of memory")]
    OutOfMemory,
}

impl AnalyseFault {
    /// The fault's number: 30, 34, or 99 for out of memory.
    pub fn number(&self) -> u32
        ensures { result ≡ number_of self.now }
    {
        match self {
            AnalyseFault::NoNodes => 30,
            AnalyseFault::BadGroup => 34,
            AnalyseFault::OutOfMemory => 99,
        }
    }
}

impl From<ov_ids::OutOfMemory> for AnalyseFault {
    ghost from_gives = { λ _ e. e ≡ out_of_memory };

    fn from(_error: ov_ids::OutOfMemory) -> AnalyseFault {
        AnalyseFault::OutOfMemory
    }
}
