ghost use Rattle.std.specs.Prelude.{◌≡◌, [], IfErr, IfOk, IfSome, OnOk};
ghost use Rattle.std.specs.Io.Buffered.{reader_remaining};
ghost use Rattle.std.specs.Io.KnownBytes.{Appends};
ghost use Rattle.csv.specs.Writing.{text_written, writer_pending};
ghost use Rattle.cns_table.specs.Faults.{IsOfInput};
ghost use Rattle.cns_table.specs.Run.{IsAnswer, fault_from, text_fault, text_lines, rows_from, table_text};
ghost use Rattle.cns_table.specs.Sheet.{StandsAtRow};

use crate::fault::TableFault;
use crate::lines::read_line;
use crate::reports::Reports;
use crate::table::Table;
use std::alloc::Global;
use std::io::{BufRead, BufReader, Read, Write};

// A reader with a buffer in front.
fn buffered<R: Read + Drop>(alloc: Global, reader: R) -> Result<BufReader<R>, TableFault>
    ensures same { IfOk result (λ lines. reader_remaining R.remaining lines ≡ R.remaining reader) }
    ensures kind { IfErr result IsOfInput }
{
    match BufReader::new(alloc, reader) {
        Ok(lines) => Ok(lines),
        Err(_) => Err(TableFault::Memory),
    }
}

// Takes all lines of a text, and ends the table.
fn take_lines<R: BufRead, W: Write + Drop>(
    alloc: Global,
    reader: &mut R,
    table: &mut Table<W>,
) -> Result<(), TableFault>
    ensures fault { IfSome (R.remaining reader.old) (λ text. IsAnswer result (fault_from table.old.place 1 (text_lines text))) }
    ensures rows { OnOk result (StandsAtRow table.old.sheet.writer → IfSome (R.remaining reader.old) (λ text.
        Appends (text_written W.contents table.old.sheet.writer) (text_written W.contents table.new.sheet.writer) (rows_from table.old.which table.old.place table.old.held.items (text_lines text)))) }
    ensures flushed { OnOk result (writer_pending table.new.sheet.writer ≡ []) }
{
    let mut line = Vec::new(alloc);
    for number in 1..u64::MAX {
        let some = read_line(reader, &mut line)?;
        if !some {
            return table.finish();
        }
        table.take_line(number, line.as_slice())?;
    }
    // So many lines are in no text.
    Err(TableFault::Read)
}

// The table of a text, all of it written.
fn table_of<R: Read + Drop, W: Write + Drop>(
    alloc: Global,
    reader: R,
    writer: W,
    which: Reports,
) -> Result<Table<W>, TableFault>
    ensures fault { IfSome (R.remaining reader) (λ text. IsAnswer result (text_fault text)) }
    ensures whole { IfOk result (λ table. IfSome (R.remaining reader) (λ text.
        Appends (W.contents writer) (text_written W.contents table.sheet.writer) (table_text which text))) }
    ensures flushed { IfOk result (λ table. writer_pending table.sheet.writer ≡ []) }
{
    let mut table = Table::begin(alloc, writer, which)?;
    let mut lines = buffered(alloc, reader)?;
    take_lines(alloc, &mut lines, &mut table)?;
    Ok(table)
}

// Writes the table of a text, and lets it go.
fn write_from<R: Read + Drop, W: Write + Drop>(
    alloc: Global,
    reader: R,
    writer: W,
    which: Reports,
) -> Result<(), TableFault>
    ensures fault { IfSome (R.remaining reader) (λ text. IsAnswer result (text_fault text)) }
{
    let _table = table_of(alloc, reader, writer, which)?;
    Ok(())
}

/// Reads the text of a run to its end, and writes the table of its reports: the names of the columns, and a
/// row for each position, pool and balance, in their order.
///
/// Outside of a report a line that does not begin with `REPORT` is passed over. Each line ends with LF; the
/// last one may have none.
///
/// Refuses `Line` at the first line that is refused, then `Cut`; `Read` where the reader fails, `Write` where
/// the writer does, and `Memory`. Where a table is refused, the names of the columns may have been written,
/// and of all reports also the rows before the fault; of the last report no row.
pub fn write_table<R: Read + Drop, W: Write>(
    alloc: Global,
    reader: R,
    writer: &mut W,
    which: Reports,
) -> Result<(), TableFault>
    ensures fault { IfSome (R.remaining reader) (λ text. IsAnswer result (text_fault text)) }
{
    write_from(alloc, reader, &mut *writer, which)
}
