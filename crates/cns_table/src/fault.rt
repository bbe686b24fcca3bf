use std::alloc::AllocError;
use thiserror::Error;

/// Why a table ended before all of its text was told.
#[derive(Clone, Copy, PartialEq, Eq, Debug, Error)]
pub enum TableFault {
    /// The reader failed.
    #[error("cnsd: input cannot be read")]
    Read,
    /// The line of this number, counted from 1, begins a report and has not the form of a head, or stands in
    /// a report and is none of its lines.
    #[error("cnsd: line {0} is no line of a report")]
    Line(u64),
    /// The text ends inside of a report.
    #[error("cnsd: the last report has no END")]
    Cut,
    /// There is no memory for a line, or for the rows of the last report.
    #[error("cnsd: out of memory")]
    Memory,
    /// The writer failed, or took no byte.
    #[error("cnsd: output failed")]
    Write,
}

impl From<AllocError> for TableFault {
    ghost use Rattle.std.specs.Prelude.{◌≡◌};
    ghost use Rattle.cns_table.specs.declared.fault.TableFault.TheVariants.{Memory};

    ghost from_gives = { λ _ fault. fault ≡ Memory };

    fn from(_: AllocError) -> TableFault {
        TableFault::Memory
    }
}

impl TableFault {
    ghost use Rattle.std.specs.Prelude.{◌≡◌};
    ghost use Rattle.cns_table.specs.Faults.{exit_status};

    /// The exit status: 2 for a fault of the input, 3 for one of the surroundings.
    pub fn status(self) -> u8
        ensures { result ≡ exit_status self }
    {
        match self {
            TableFault::Read | TableFault::Line(_) | TableFault::Cut => 2,
            TableFault::Memory | TableFault::Write => 3,
        }
    }
}
