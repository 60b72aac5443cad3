ghost use Rattle.std.specs.Prelude.{◌≡◌};
ghost use Rattle.ov_arguments.specs.GrowArguments.{number_of};

use std::alloc::{AllocError, AllocFailed};

/// Why words can't be read. (The numbers are chosen here.)
#[derive(Drop)]
pub enum GrowArgumentsFault {
    /// They are no words of the command (73). The reason is what is wrong; it ends with a line feed.
    BadArguments { reason: String },
    /// An allocation was refused (99).
    OutOfMemory,
}

impl GrowArgumentsFault {
    /// The fault's number.
    pub fn number(&self) -> u32
        ensures { result ≡ number_of self.now }
    {
        match self {
            GrowArgumentsFault::BadArguments { .. } => 73,
            GrowArgumentsFault::OutOfMemory => 99,
        }
    }
}

/// The fault of words that can't be read, for this reason, if there was memory to write it.
pub(crate) fn refused(reason: Result<String, AllocError>) -> GrowArgumentsFault {
    match reason {
        Ok(reason) => GrowArgumentsFault::BadArguments { reason },
        Err(_) => GrowArgumentsFault::OutOfMemory,
    }
}

impl From<AllocError> for GrowArgumentsFault {
    fn from(_error: AllocError) -> GrowArgumentsFault {
        GrowArgumentsFault::OutOfMemory
    }
}

impl<T: Drop> From<AllocFailed<T>> for GrowArgumentsFault {
    fn from(_error: AllocFailed<T>) -> GrowArgumentsFault {
        GrowArgumentsFault::OutOfMemory
    }
}
