ghost use Rattle.std.specs.Prelude.{◌≡◌};
ghost use Rattle.ov_snap.specs.Refusals.{number_of};
ghost use Rattle.ov_snap.specs.declared.refused_core_call.CoreFault.TheVariants.{OutOfMemory as out_of_memory};

use thiserror::Error;

/// Why a core refuses a call.
#[derive(Clone, Copy, Debug, PartialEq, Eq, Error)]
pub enum CoreFault {
    /// No snapshot was taken at this moment.
    #[error("no snapshot was taken at this moment")]
    NoSuchMoment,
    /// Nobody lived at this moment.
    #[error("nobody lived at this moment")]
    NoNodes,
    /// These ids are no group of the graph of this moment.
    #[error("these are no group of the nodes of this moment")]
    BadGroup,
    /// There are 65,536 desks, the most that there may be.
    #[error("there are too many desks")]
    TooManyDesks,
    /// There is no such desk.
    #[error("there is no such desk")]
    NoSuchDesk,
    /// The number of workers is not from 1 to 64, or the desk has no such worker.
    #[error("there is no such worker")]
    NoSuchWorker,
    /// It is not the worker's next turn.
    #[error("this is not the worker's next turn")]
    WrongTurn,
    /// Not all workers of the desk have ended.
    #[error("not all workers of the desk have ended")]
    NotEnded,
    /// The graph is another one than that of the moment.
    #[error("the graph is not that of the moment")]
    OtherGraph,
    /// A report is filed for this moment and group.
    #[error("a report is filed for this moment and group")]
    AlreadyFiled,
    /// An allocation was refused.
    #[error("out of memory")]
    OutOfMemory,
}

impl CoreFault {
    /// The fault's number (chosen here): 50, 30, 34, 58, 53, 57, 54, 55, 51, 52 and 99, in the order of the variants.
    pub fn number(&self) -> u32
        ensures { result ≡ number_of self.now }
    {
        match self {
            CoreFault::NoSuchMoment => 50,
            CoreFault::NoNodes => 30,
            CoreFault::BadGroup => 34,
            CoreFault::TooManyDesks => 58,
            CoreFault::NoSuchDesk => 53,
            CoreFault::NoSuchWorker => 57,
            CoreFault::WrongTurn => 54,
            CoreFault::NotEnded => 55,
            CoreFault::OtherGraph => 51,
            CoreFault::AlreadyFiled => 52,
            CoreFault::OutOfMemory => 99,
        }
    }
}

impl From<ov_ids::OutOfMemory> for CoreFault {
    ghost from_gives = { λ _ e. e ≡ out_of_memory };

    fn from(_error: ov_ids::OutOfMemory) -> CoreFault {
        CoreFault::OutOfMemory
    }
}
