ghost use Rattle.std.specs.Prelude.{◌≡◌};

use std::alloc::AllocError;
use thiserror::Error;

/// Why a batch ended before its text was written. A check of a CUSIP, help and the version end by
/// `Memory` or `Write` alone.
#[derive(Clone, Copy, PartialEq, Eq, Debug, Error)]
pub enum BatchFault {
    /// The reader failed.
    #[error("cnsd: input cannot be read")]
    Read,
    /// The input has more than 67,108,864 bytes.
    #[error("cnsd: input too long")]
    TooLong,
    /// The section heads are missing or out of order.
    #[error("cnsd: bad sections")]
    Sections,
    /// The first record of a section of rows is not its header.
    #[error("cnsd: bad rows")]
    Csv,
    /// A keeper's records are bad, or those of the two do not agree, or its device failed.
    #[error("cnsd: journal failed")]
    Journal,
    /// There is no memory for the batch's own part.
    #[error("cnsd: out of memory")]
    Memory,
    /// The writer failed, or took no byte.
    #[error("cnsd: output failed")]
    Write,
}

impl From<AllocError> for BatchFault {
    ghost use Rattle.std.specs.Prelude.{◌≡◌};
    ghost use Rattle.cns_input.specs.declared.fault.BatchFault.TheVariants.{Memory};

    ghost from_gives = { λ _ fault. fault ≡ Memory };

    fn from(_: AllocError) -> BatchFault {
        BatchFault::Memory
    }
}

impl BatchFault {
    ghost use Rattle.cns_input.specs.Status.{status_of};

    /// The exit status: 2 for a fault of the input, 3 for one of the surroundings.
    pub fn status(self) -> u8
        ensures { result ≡ status_of self }
    {
        match self {
            BatchFault::Read | BatchFault::TooLong | BatchFault::Sections | BatchFault::Csv => 2,
            BatchFault::Journal | BatchFault::Memory | BatchFault::Write => 3,
        }
    }
}
