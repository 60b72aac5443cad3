ghost use Rattle.std.specs.Prelude.{◌≡◌};
ghost use Rattle.ov_drawing.specs.Faults.{number_of};
ghost use Rattle.ov_drawing.specs.declared.fault.PictureFault.TheVariants.{OutOfMemory as out_of_memory};

use ov_ids::OutOfMemory;
use thiserror::Error;

/// Why there is no picture.
#[derive(Clone, Copy, Debug, PartialEq, Eq, Error)]
pub enum PictureFault {
    #[error("the certificate has no such entry")]
    NoSuchEntry,
    #[error("out of memory")]
    OutOfMemory,
}

impl PictureFault {
    /// The fault's number.
    pub fn number(&self) -> u32
        ensures { result ≡ number_of self.now }
    {
        match self {
            PictureFault::NoSuchEntry => 86,
            PictureFault::OutOfMemory => 99,
        }
    }
}

impl From<OutOfMemory> for PictureFault {
    ghost from_gives = { λ _ e. e ≡ out_of_memory };

    fn from(_fault: OutOfMemory) -> PictureFault {
        PictureFault::OutOfMemory
    }
}
