//! The faults of certificate texts.

ghost use Rattle.std.specs.Prelude.{◌≡◌};
ghost use Rattle.cilk_cert_text.specs.declared.fault.CertFault.TheVariants.{Memory};

use std::alloc::{AllocError, AllocFailed};
use thiserror::Error;

/// Why a text isn't read as a certificate.
#[derive(Clone, Copy, Debug, Error)]
pub enum CertFault {
    /// This line, counted from 1, isn't one that may be there.
    #[error("malformed certificate at line {line}")]
    Malformed { line: u32 },
    /// The text ends before the end of this line, counted from 1.
    #[error("truncated certificate at line {line}")]
    Truncated { line: u32 },
    /// Memory ran out.
    #[error("out of memory")]
    Memory,
}

impl CertFault {
    ghost use Rattle.cilk_cert_text.specs.Fault.{number_of};

    /// Returns the number by which the fault is reported: 301, 302 or 401.
    pub fn number(self) -> u16
        ensures { result ≡ number_of self }
    {
        match self {
            CertFault::Malformed { .. } => 301,
            CertFault::Truncated { .. } => 302,
            CertFault::Memory => 401,
        }
    }
}

impl From<AllocError> for CertFault {
    ghost from_gives = { λ _ e. e ≡ Memory };

    fn from(_error: AllocError) -> Self {
        CertFault::Memory
    }
}

impl<T: Drop> From<AllocFailed<T>> for CertFault {
    ghost from_gives = { λ _ e. e ≡ Memory };

    fn from(_error: AllocFailed<T>) -> Self {
        CertFault::Memory
    }
}
