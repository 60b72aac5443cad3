ghost use Rattle.std.specs.Prelude.{◌≡◌};
ghost use Rattle.ov_certwriter.specs.Number.{writing_number};

use ov_ids::OutOfMemory;
use ov_io::WriteFault;
use std::alloc::AllocError;
use thiserror::Error;

/// Why a certificate file was not written.
#[derive(Clone, Copy, Debug, PartialEq, Eq, Error)]
pub enum CertificateWriteFault {
    /// The writer failed.
    #[error("the writer failed")]
    Write,
    /// An allocation was refused.
    #[error("out of memory")]
    OutOfMemory,
}

impl CertificateWriteFault {
    /// The fault's number: 72 for `Write`, 99 for `OutOfMemory`.
    pub fn number(&self) -> u32
        ensures { result ≡ writing_number self.now }
    {
        match self {
            CertificateWriteFault::Write => 72,
            CertificateWriteFault::OutOfMemory => 99,
        }
    }
}

impl From<WriteFault> for CertificateWriteFault {
    ghost use Rattle.ov_certwriter.specs.declared.writing_fault.CertificateWriteFault.TheVariants.{Write};

    ghost from_gives = { λ _ e. e ≡ Write };

    fn from(_fault: WriteFault) -> CertificateWriteFault {
        CertificateWriteFault::Write
    }
}

impl From<OutOfMemory> for CertificateWriteFault {
    ghost use Rattle.ov_certwriter.specs.declared.writing_fault.CertificateWriteFault.TheVariants.{OutOfMemory};

    ghost from_gives = { λ _ e. e ≡ OutOfMemory };

    fn from(_fault: OutOfMemory) -> CertificateWriteFault {
        CertificateWriteFault::OutOfMemory
    }
}

impl From<AllocError> for CertificateWriteFault {
    ghost use Rattle.ov_certwriter.specs.declared.writing_fault.CertificateWriteFault.TheVariants.{OutOfMemory};

    ghost from_gives = { λ _ e. e ≡ OutOfMemory };

    fn from(_error: AllocError) -> CertificateWriteFault {
        CertificateWriteFault::OutOfMemory
    }
}
