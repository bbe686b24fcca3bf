ghost use Rattle.std.specs.Prelude.{drop, IfOk};
ghost use Rattle.cns_check.specs.Findings.{records_of};
ghost use Rattle.cns_check.specs.Repeats.{KeepsRepeats, repeats_in, repeats_of};

use crate::lines::{Lines, trades_line};
use crate::repeat::Repeats;
use crate::seen::Seen;
use cns_input::split_input;
use csv::{ByteRecord, ReaderBuilder};
use std::alloc::{AllocError, Global};

// The rows of a section's text, which begins in a line, whose id an earlier one has.
fn repeats_of_trades(alloc: Global, text: &[u8], line: u64) -> Result<Repeats, AllocError>
    ensures { IfOk result (λ found. KeepsRepeats found (repeats_of (drop 1 (records_of text.now)))) }
{
    let mut reader = ReaderBuilder::new()
        .has_headers(false)
        .flexible(true)
        .from_reader(alloc, text);
    let mut fields = ByteRecord::new(alloc);
    let mut lines = Lines::new(text, line);
    let mut seen = Seen::new(alloc);
    for row in 0..u64::MAX {
        match reader.read_byte_record(&mut fields) {
            Ok(true) => {
                let (line, _) = lines.of_record(&fields);
                seen.pass(row, line, &fields)?;
            }
            Ok(false) => return Ok(seen.repeats),
            // A reader of bytes that are there fails for want of memory alone.
            Err(_) => return Err(AllocError),
        }
    }

    // No memory holds so many rows.
    Err(AllocError)
}

/// Looks for the trades of an input's text whose id an earlier row of its trades has, and runs nothing. Rows of
/// which the first field is no id are passed over, other faults of a row make no difference, and the first
/// record is taken for the header. A text without sections has none.
///
/// Refuses for want of memory alone.
pub fn repeats(alloc: Global, text: &[u8]) -> Result<Repeats, AllocError>
    ensures { IfOk result (λ found. KeepsRepeats found (repeats_in text.now)) }
{
    match split_input(text) {
        Some(sections) => repeats_of_trades(alloc, sections.trades, trades_line(sections.openings)),
        None => Ok(Repeats::new(alloc)),
    }
}
