//! The table, line by line of the text.

ghost use Rattle.std.specs.Prelude.{◌≡◌, ◌↔◌, ◌∷◌, ◌++◌, [], true, false, None, Some, Err, IfOk, OnOk, IfErr};
ghost use Rattle.std.specs.Io.KnownBytes.{Appends};
ghost use Rattle.std.specs.List.{flat_map};
ghost use Rattle.csv.specs.Writing.{row_text, text_written, writer_pending};
ghost use Rattle.cns_table.specs.Faults.{IsOfEnd, IsOfOutput};
ghost use Rattle.cns_table.specs.Place.{Tells, place_behind, line_told};
ghost use Rattle.cns_table.specs.Row.{texts_of};
ghost use Rattle.cns_table.specs.Run.{at_start, text_lines};
ghost use Rattle.cns_table.specs.Sheet.{StandsAtRow, bare_writer, column_names};
ghost use Rattle.cns_table.specs.Table.{IsOfLine, adds, holds, row_line_at};

use crate::fault::TableFault;
use crate::lines::next_line;
use crate::place::{Place, Step};
use crate::reports::Reports;
use crate::row::{Row, row_of};
use crate::sheet::Sheet;
use std::alloc::{AllocError, Global};
use std::io::Write;

/// A table of the lines that it has taken.
#[derive(Drop)]
pub(crate) struct Table<W: Write + Drop> {
    sheet: Sheet<W>,
    which: Reports,
    place: Place,
    // The lines that are rows of the last report, each with its LF, where no other report is told.
    held: Vec<u8>,
}

// Adds a line and its LF.
fn hold(held: &mut Vec<u8>, line: &[u8]) -> Result<(), AllocError>
    ensures { OnOk result (held.new.items ≡ held.old.items ++ line.now ++ 10 ∷ []) }
{
    held.extend_from_slice(line)?;
    held.push(b'\n')?;
    Ok(())
}

// Writes the rows that lines of the report of a place are.
fn write_lines<W: Write + Drop>(
    sheet: &mut Sheet<W>,
    place: &Place,
    lines: &[u8],
) -> Result<(), TableFault>
    ensures rows { OnOk result (StandsAtRow sheet.old.writer → StandsAtRow sheet.new.writer
        × Appends (text_written W.contents sheet.old.writer) (text_written W.contents sheet.new.writer) (flat_map (row_line_at place.now) (text_lines lines.now))) }
    ensures kind { IfErr result IsOfOutput }
{
    let mut rest = lines;
    while let Some((line, after)) = next_line(rest) {
        if let Some(row) = row_of(line) {
            sheet.write_row(place, &row)?;
        }
        rest = after;
    }
    Ok(())
}

impl<W: Write + Drop> Table<W> {
    /// A table of no line yet, of which the names of the columns are written.
    pub(crate) fn begin(alloc: Global, writer: W, which: Reports) -> Result<Table<W>, TableFault>
        ensures which { IfOk result (λ table. table.which ≡ which) }
        ensures place { IfOk result (λ table. table.place ≡ at_start) }
        ensures held { IfOk result (λ table. table.held.items ≡ []) }
        ensures row { IfOk result (λ table. StandsAtRow table.sheet.writer) }
        ensures header { IfOk result (λ table. Appends (W.contents writer) (text_written W.contents table.sheet.writer) (row_text bare_writer column_names)) }
        ensures kind { IfErr result IsOfOutput }
    {
        let mut sheet = Sheet::new(alloc, writer);
        sheet.write_header()?;
        Ok(Table {
            sheet,
            which,
            place: Place::new(),
            held: Vec::new(alloc),
        })
    }

    // Takes a row that a line is.
    fn take_row(&mut self, line: &[u8], row: &Row<'_>) -> Result<(), TableFault>
        ensures row { OnOk result (StandsAtRow self.old.sheet.writer → StandsAtRow self.new.sheet.writer
            × Appends (text_written W.contents self.old.sheet.writer) (text_written W.contents self.new.sheet.writer) (adds (Some (Tells (texts_of row.now))) self.old.which self.old.place)) }
        ensures held { OnOk result (self.new.held.items ≡ holds (Some (Tells (texts_of row.now))) self.old.which self.old.held.items line.now) }
        ensures same { (self.new.which ≡ self.old.which) × (self.new.place ≡ self.old.place) }
        ensures kind { IfErr result IsOfOutput }
    {
        match self.which {
            Reports::All => self.sheet.write_row(&self.place, row),
            Reports::Last => Ok(hold(&mut self.held, line)?),
        }
    }

    /// Takes the next line of the text, without its LF, which has this number.
    pub(crate) fn take_line(&mut self, number: u64, line: &[u8]) -> Result<(), TableFault>
        ensures place { OnOk result (self.new.place ≡ place_behind self.old.place line.now) }
        ensures row { OnOk result (StandsAtRow self.old.sheet.writer → StandsAtRow self.new.sheet.writer
            × Appends (text_written W.contents self.old.sheet.writer) (text_written W.contents self.new.sheet.writer) (adds (line_told self.old.place line.now) self.old.which (place_behind self.old.place line.now))) }
        ensures held { OnOk result (self.new.held.items ≡ holds (line_told self.old.place line.now) self.old.which self.old.held.items line.now) }
        ensures which { self.new.which ≡ self.old.which }
        ensures refused { (result ≡ Err (TableFault.Line number)) ↔ (line_told self.old.place line.now ≡ None) }
        ensures kind { IfErr result (IsOfLine number) }
    {
        match self.place.pass(line) {
            Some(Step::Begun) => {
                self.held.clear();
                Ok(())
            }
            Some(Step::Row(row)) => self.take_row(line, &row),
            Some(Step::Passed) => Ok(()),
            None => Err(TableFault::Line(number)),
        }
    }

    /// Ends the table behind the last line: what is held is written, and all of it is flushed.
    pub(crate) fn finish(&mut self) -> Result<(), TableFault>
        ensures rows { OnOk result (StandsAtRow self.old.sheet.writer
            → Appends (text_written W.contents self.old.sheet.writer) (text_written W.contents self.new.sheet.writer) (flat_map (row_line_at self.old.place) (text_lines self.old.held.items))) }
        ensures cut { (result ≡ Err TableFault.Cut) ↔ (self.old.place.inside ≡ true) }
        ensures flushed { OnOk result (writer_pending self.new.sheet.writer ≡ []) }
        ensures kind { IfErr result IsOfEnd }
    {
        if self.place.inside {
            return Err(TableFault::Cut);
        }
        write_lines(&mut self.sheet, &self.place, self.held.as_slice())?;
        self.sheet.flush()
    }
}
