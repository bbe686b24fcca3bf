use cns_input::BatchFault;
use std::alloc::AllocError;
use thiserror::Error;

/// Why a text is not told, or not written.
#[derive(Clone, Copy, PartialEq, Eq, Debug, Error)]
pub(crate) enum OutputFault {
    #[error("out of memory")]
    Memory,
    /// The writer failed, or took no byte.
    #[error("output failed")]
    Write,
}

/// What a call that tells something gives, or why that was not told.
pub(crate) type Told<T = ()> = Result<T, OutputFault>;

impl From<AllocError> for OutputFault {
    ghost use Rattle.std.specs.Prelude.{◌≡◌};
    ghost use Rattle.cns_batch.specs.declared.fault.OutputFault.TheVariants.{Memory};

    ghost from_gives = { λ _ fault. fault ≡ Memory };

    fn from(_: AllocError) -> OutputFault {
        OutputFault::Memory
    }
}

impl OutputFault {
    ghost use Rattle.std.specs.Prelude.{◌≡◌};
    ghost use Rattle.cns_batch.specs.Ending.{fault_of_output};

    /// The fault of a batch.
    pub(crate) fn of_batch(self) -> BatchFault
        ensures { result ≡ fault_of_output self }
    {
        match self {
            OutputFault::Memory => BatchFault::Memory,
            OutputFault::Write => BatchFault::Write,
        }
    }
}
