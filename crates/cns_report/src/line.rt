ghost use Rattle.cns_report.specs.Lines.{bytes_of_line};

use crate::fault::opening_fault_name;
use crate::put::{LF, Put};
use crate::text::Draft;
use cns_depository::OpeningFault;
use cns_trades::RowFault;
use std::alloc::AllocError;

/// A line of the output that tells of no event. It is told with LF at its end.
#[derive(Clone, Copy, Debug)]
pub enum Line {
    /// `row N fault ..`, of a row of trades
    RowFault { row: u64, fault: RowFault },
    /// `opening row N fault ..`, where the row has a fault
    OpeningRowFault { row: u64, fault: RowFault },
    /// `opening row N fault NAME`, where the opening of the row is refused
    OpeningRefused { row: u64, fault: OpeningFault },
    /// `line N bad command`, of a line of the script that fits no form
    BadCommand { line: u64 },
    /// `fail ok`, of a failure that is planned
    FailurePlanned,
    /// `fail refused NotPlanned`, where the keeper plans no failures
    FailureNotPlanned,
}

impl Put for Line {
    ghost text = { bytes_of_line };

    #[tactic(auto, unfolding(crate::specs::Lines::bytes_of_line))]
    fn put(&self, draft: &mut Draft) -> Result<(), AllocError> {
        match *self {
            Line::RowFault { row, fault } => ("row ", row, " fault ", fault, LF).put(draft),
            Line::OpeningRowFault { row, fault } => {
                ("opening row ", row, " fault ", fault, LF).put(draft)
            }
            Line::OpeningRefused { row, fault } => {
                let name = opening_fault_name(fault);
                ("opening row ", row, " fault ", name, LF).put(draft)
            }
            Line::BadCommand { line } => ("line ", line, " bad command\n").put(draft),
            Line::FailurePlanned => draft.add(b"fail ok\n"),
            Line::FailureNotPlanned => draft.add(b"fail refused NotPlanned\n"),
        }
    }
}
