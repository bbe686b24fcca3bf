ghost use Rattle.std.specs.Prelude.{◌≡◌, [], IfOk, OnOk};
ghost use Rattle.std.specs.List.{enumerate_from, fold};
ghost use Rattle.cns_batch.specs.Opened.{told_opening};

use cns_depository::{OpeningFault, Openings};
use cns_report::{Line, Text, write_line};
use cns_trades::OpeningRow;
use std::alloc::{AllocError, Global};

// Takes a row of openings by its number: holds the opening, or tells why not.
fn take_opening(
    openings: &mut Openings,
    number: u64,
    row: &OpeningRow,
    out: &mut Text,
) -> Result<(), AllocError>
    ensures { OnOk result ((openings.new, out.new.text) ≡ told_opening (openings.old, out.old.text) (number, row.now)) }
{
    match row {
        OpeningRow::Fault { row, fault } => {
            let (row, fault) = (*row, *fault);
            write_line(out, Line::OpeningRowFault { row, fault })
        }
        OpeningRow::Opening(opening) => match openings.add(opening) {
            Ok(()) => Ok(()),
            Err(OpeningFault::OutOfMemory) => Err(AllocError),
            Err(fault) => write_line(out, Line::OpeningRefused { row: number, fault }),
        },
    }
}

/// The openings of rows, one row after another; those that are faulty or refused are told.
pub(crate) fn take_openings(
    alloc: Global,
    rows: &[OpeningRow],
    out: &mut Text,
) -> Result<Openings, AllocError>
    ensures { IfOk result (λ openings. (openings, out.new.text) ≡ fold told_opening ([], out.old.text) (enumerate_from 1 rows.now)) }
{
    let mut openings = Openings::new(alloc);
    let mut number = 1;
    for row in rows {
        take_opening(&mut openings, number, row, out)?;
        number += 1;
    }
    Ok(openings)
}
