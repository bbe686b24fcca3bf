//! The rows of the table, as they are written.

ghost use Rattle.std.specs.Prelude.{◌≡◌, ◌∷◌, ◌++◌, [], ℕ, List, map, string_bytes, OnOk, IfErr};
ghost use Rattle.std.specs.Fmt.{decimal};
ghost use Rattle.std.specs.Io.KnownBytes.{Appends, Keeps};
ghost use Rattle.csv.specs.Records.{fields_of};
ghost use Rattle.csv.specs.Writing.{row_text, text_written, writer_pending, writer_under};
ghost use Rattle.cns_table.specs.Faults.{IsOfOutput};
ghost use Rattle.cns_table.specs.Row.{texts_of};
ghost use Rattle.cns_table.specs.Sheet.{HasFields, StandsAtRow, bare_writer, cells, column_names, quoted};

use crate::fault::TableFault;
use crate::place::Place;
use crate::row::Row;
use csv::{ByteRecord, QuoteStyle, Writer, WriterBuilder};
use std::alloc::{AllocError, Global};
use std::io::Write;

/// A writer of the table's rows, which writes each field as it stands.
#[derive(Drop)]
pub(crate) struct Sheet<W: Write + Drop> {
    writer: Writer<W>,
    // The row that is being written, and its fields that are made.
    made: ByteRecord,
    number: String,
    text: Vec<u8>,
}

// Makes a field of a number.
fn fill_number(field: &mut String, number: u64) -> Result<(), AllocError>
    ensures { OnOk result (string_bytes field.new ≡ decimal number) }
{
    field.clear();
    write!(field, "{number}")?;
    Ok(())
}

// Makes a field of a text between double quotes, or an empty one where there is no text. The text has no
// double quote in it.
fn fill_quoted(field: &mut Vec<u8>, text: &[u8]) -> Result<(), AllocError>
    ensures { OnOk result (field.new.items ≡ quoted text.now) }
{
    field.clear();
    if !text.is_empty() {
        field.push(b'"')?;
        field.extend_from_slice(text)?;
        field.push(b'"')?;
    }
    Ok(())
}

// Adds a field to a row.
fn add(made: &mut ByteRecord, field: &[u8]) -> Result<(), AllocError>
    ensures { OnOk result ((fields : List (List ℕ)) → HasFields made.old fields → HasFields made.new (fields ++ field.now ∷ [])) }
{
    made.push_field(field)
}

// Makes the row of a report that a place stands in.
fn fill_record(
    made: &mut ByteRecord,
    number: &mut String,
    text: &mut Vec<u8>,
    place: &Place,
    row: &Row<'_>,
) -> Result<(), AllocError>
    ensures { OnOk result (fields_of made.new ≡ cells place.now (texts_of row.now)) }
{
    made.clear();
    fill_number(number, place.reports)?;
    add(made, number.as_bytes())?;
    add(made, place.date())?;
    add(made, place.kind())?;
    add(made, row.kind.name())?;
    fill_quoted(text, row.cusip)?;
    add(made, text.as_slice())?;
    fill_quoted(text, row.account)?;
    add(made, text.as_slice())?;
    add(made, row.free)?;
    add(made, row.lent)?;
    add(made, row.out)?;
    add(made, row.shares)
}

// Writes a row.
fn write_record<W: Write + Drop>(
    writer: &mut Writer<W>,
    made: &ByteRecord,
) -> Result<(), TableFault>
    ensures row { OnOk result (StandsAtRow writer.old → StandsAtRow writer.new
        × Appends (text_written W.contents writer.old) (text_written W.contents writer.new) (row_text bare_writer (fields_of made.now))) }
    ensures kind { IfErr result IsOfOutput }
{
    match writer.write_byte_record(made) {
        Ok(()) => Ok(()),
        Err(_) => Err(TableFault::Write),
    }
}

// Writes a row of these fields.
fn write_cells<W: Write + Drop>(writer: &mut Writer<W>, fields: &[&[u8]]) -> Result<(), TableFault>
    ensures row { OnOk result (StandsAtRow writer.old → StandsAtRow writer.new
        × Appends (text_written W.contents writer.old) (text_written W.contents writer.new) (row_text bare_writer (map (λ f. f.now) fields.now))) }
    ensures kind { IfErr result IsOfOutput }
{
    match writer.write_fields(fields) {
        Ok(()) => Ok(()),
        Err(_) => Err(TableFault::Write),
    }
}

impl<W: Write + Drop> Sheet<W> {
    /// A sheet of no row yet.
    pub(crate) fn new(alloc: Global, writer: W) -> Sheet<W>
        ensures row { StandsAtRow result.writer }
        ensures empty { writer_pending result.writer ≡ [] }
        ensures under { writer_under result.writer ≡ writer }
    {
        let writer = WriterBuilder::new()
            .quote_style(QuoteStyle::Never)
            .from_writer(writer);
        Sheet {
            writer,
            made: ByteRecord::new(alloc),
            number: String::new(alloc),
            text: Vec::new(alloc),
        }
    }

    /// Writes the names of the columns.
    pub(crate) fn write_header(&mut self) -> Result<(), TableFault>
        ensures row { OnOk result (StandsAtRow self.old.writer → StandsAtRow self.new.writer
            × Appends (text_written W.contents self.old.writer) (text_written W.contents self.new.writer) (row_text bare_writer column_names)) }
        ensures kind { IfErr result IsOfOutput }
    {
        write_cells(
            &mut self.writer,
            &[
                b"report", b"date", b"kind", b"row", b"cusip", b"account", b"free", b"lent",
                b"out", b"shares",
            ],
        )
    }

    /// Writes a row of the report that a place stands in.
    pub(crate) fn write_row(&mut self, place: &Place, row: &Row<'_>) -> Result<(), TableFault>
        ensures row { OnOk result (StandsAtRow self.old.writer → StandsAtRow self.new.writer
            × Appends (text_written W.contents self.old.writer) (text_written W.contents self.new.writer) (row_text bare_writer (cells place.now (texts_of row.now)))) }
        ensures kind { IfErr result IsOfOutput }
    {
        fill_record(&mut self.made, &mut self.number, &mut self.text, place, row)?;
        write_record(&mut self.writer, &self.made)
    }

    /// Writes out all that is not yet written, and flushes the writer.
    pub(crate) fn flush(&mut self) -> Result<(), TableFault>
        ensures bytes { Keeps (text_written W.contents self.old.writer) (text_written W.contents self.new.writer) }
        ensures flushed { OnOk result (writer_pending self.new.writer ≡ []) }
        ensures kind { IfErr result IsOfOutput }
    {
        match self.writer.flush() {
            Ok(()) => Ok(()),
            Err(_) => Err(TableFault::Write),
        }
    }
}
