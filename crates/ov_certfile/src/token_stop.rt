use ov_ids::OutOfMemory;
use ov_tokens::OtherToken;
use std::alloc::{AllocError, AllocFailed};

/// Why no value was taken off the tokens of a text.
#[derive(Clone, Copy)]
pub(crate) enum Stop {
    /// The text is not in the form that is read token by token.
    OtherForm,
    /// An allocation was refused.
    OutOfMemory,
}

impl From<OtherToken> for Stop {
    fn from(_error: OtherToken) -> Stop {
        Stop::OtherForm
    }
}

impl From<OutOfMemory> for Stop {
    fn from(_error: OutOfMemory) -> Stop {
        Stop::OutOfMemory
    }
}

impl From<AllocError> for Stop {
    fn from(_error: AllocError) -> Stop {
        Stop::OutOfMemory
    }
}

impl<T: Drop> From<AllocFailed<T>> for Stop {
    fn from(_error: AllocFailed<T>) -> Stop {
        Stop::OutOfMemory
    }
}
