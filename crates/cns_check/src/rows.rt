ghost use Rattle.std.specs.Prelude.{◌≡◌, ◌+◌, ◌++◌, ◌∷◌, [], ℕ, List, length, drop, Bool, OnOk};
ghost use Rattle.csv.specs.Records.{fields_of};
ghost use Rattle.cns_trades.specs.Records.{Fields};
ghost use Rattle.cns_check.specs.Findings.{in_row, in_section, records_of};
ghost use Rattle.cns_check.specs.Kept.{IsOf};
ghost use Rattle.cns_check.specs.declared.finding.Finding.{Finding};
ghost use Rattle.cns_check.specs.declared.finding.Table.{Table};

use crate::field::field;
use crate::finding::{Finding, Table};
use crate::found::{Findings, Place};
use crate::lines::Lines;
use cns_trades::RowFault;
use csv::{ByteRecord, ReaderBuilder};
use std::alloc::{AllocError, Global};

/// A row of a section, and where it stands.
#[derive(Clone, Copy)]
pub(crate) struct RowPlace {
    /// The row's number, counted from 1.
    pub(crate) row: u64,
    /// The lines in which it begins and ends.
    pub(crate) line: u64,
    pub(crate) last: u64,
}

impl RowPlace {
    /// The place of a row's field.
    pub(crate) fn of_field<'a>(self, fields: &'a ByteRecord, place: usize) -> Place<'a> {
        Place {
            line: self.line,
            last: self.last,
            text: field(fields, place),
            id: field(fields, 0),
            fields: fields.len(),
            place: place.saturating_add(1),
        }
    }
}

/// A look at the rows of a section, one after another.
pub(crate) trait CheckRows: Drop {
    /// The section, and the header of its rows.
    ghost table: { Table };

    ghost is_header: { Fields → Bool };

    /// What is found in rows.
    ghost in_rows: { List Fields → List Finding };

    ghost nothing_in_none: { in_rows [] ≡ [] };

    /// These rows were looked at.
    ghost has_seen: { Self → List Fields → Type 0 };

    fn table() -> Table
        ensures { result ≡ table };

    fn is_header(fields: &ByteRecord) -> bool
        ensures { result ≡ is_header (fields_of fields.now) };

    /// Looks at the next row.
    fn check(
        &mut self,
        alloc: Global,
        place: RowPlace,
        fields: &ByteRecord,
        found: &mut Findings,
    ) -> Result<(), AllocError>
        ensures { OnOk result ((rows : List Fields) (before : List Finding) → has_seen self.old rows → place.row ≡ length rows + 1
            → IsOf found.old (before ++ in_rows rows)
            → has_seen self.new (rows ++ fields_of fields.now ∷ []) × IsOf found.new (before ++ in_rows (rows ++ fields_of fields.now ∷ []))) };
}

// The place of the first field that is another one in a header.
fn first_other(fields: &ByteRecord, header: &[&str]) -> usize {
    for (place, word) in header.iter().enumerate() {
        if field(fields, place) != word.as_bytes() {
            return place;
        }
    }
    header.len()
}

// Looks at the first record of a section, which is to be its header.
fn check_header<C: CheckRows>(
    alloc: Global,
    place: RowPlace,
    fields: &ByteRecord,
    found: &mut Findings,
) -> Result<(), AllocError>
    ensures { OnOk result ((before : List Finding) → IsOf found.old before → IsOf found.new (before ++ in_section C.table C.is_header C.in_rows (fields_of fields.now ∷ []))) }
{
    if C::is_header(fields) {
        return Ok(());
    }
    let here = place.of_field(fields, first_other(fields, C::table().header()));
    found.add(alloc, Finding::NoHeader(C::table()), &here)
}

// Looks at a record, before which so many stand.
fn check_record<C: CheckRows>(
    alloc: Global,
    checks: &mut C,
    place: RowPlace,
    fields: &ByteRecord,
    found: &mut Findings,
) -> Result<(), AllocError>
    ensures { OnOk result ((records : List Fields) (before : List Finding) → C.has_seen checks.old (drop 1 records) → place.row ≡ length records
        → IsOf found.old (before ++ in_section C.table C.is_header C.in_rows records)
        → C.has_seen checks.new (drop 1 (records ++ fields_of fields.now ∷ []))
        × IsOf found.new (before ++ in_section C.table C.is_header C.in_rows (records ++ fields_of fields.now ∷ []))) }
{
    if place.row == 0 {
        check_header::<C>(alloc, place, fields, found)
    } else {
        checks.check(alloc, place, fields, found)
    }
}

/// Looks at the records of a section's text, which begins in a line.
pub(crate) fn check_rows<C: CheckRows>(
    alloc: Global,
    text: &[u8],
    line: u64,
    checks: &mut C,
    found: &mut Findings,
) -> Result<(), AllocError>
    requires fresh { C.has_seen checks.old [] }
    ensures { OnOk result ((before : List Finding) → IsOf found.old before
        → IsOf found.new (before ++ in_section C.table C.is_header C.in_rows (records_of text.now))) }
{
    let mut reader = ReaderBuilder::new()
        .has_headers(false)
        .flexible(true)
        .from_reader(alloc, text);
    let mut fields = ByteRecord::new(alloc);
    let mut lines = Lines::new(text, line);
    for row in 0..u64::MAX {
        match reader.read_byte_record(&mut fields) {
            Ok(true) => {
                let (line, last) = lines.of_record(&fields);
                check_record(alloc, checks, RowPlace { row, line, last }, &fields, found)?;
            }
            Ok(false) => return Ok(()),
            // A reader of bytes that are there fails for want of memory alone.
            Err(_) => return Err(AllocError),
        }
    }

    // No memory holds so many rows.
    Err(AllocError)
}

// The place of the field that has a fault; the first one where the fault is of the row.
fn place_of(table: Table, fault: RowFault) -> usize {
    match (table, fault) {
        (Table::Trades, RowFault::Settle) | (Table::Openings, RowFault::Cusip(_)) => 1,
        (_, RowFault::Buyer(_) | RowFault::Shares(_)) => 2,
        (_, RowFault::Seller(_)) => 3,
        (Table::Trades, RowFault::Cusip(_)) => 4,
        (_, RowFault::Quantity(_)) => 5,
        _ => 0,
    }
}

/// Adds the faults of a row, field by field.
pub(crate) fn add_faults(
    alloc: Global,
    table: Table,
    place: RowPlace,
    fields: &ByteRecord,
    faults: &[Option<RowFault>],
    found: &mut Findings,
) -> Result<(), AllocError>
    ensures { OnOk result ((before : List Finding) → IsOf found.old before → IsOf found.new (before ++ in_row table place.row faults.now)) }
{
    for fault in faults {
        if let Some(fault) = *fault {
            let here = place.of_field(fields, place_of(table, fault));
            let row = place.row;
            found.add(alloc, Finding::Row { table, row, fault }, &here)?;
        }
    }
    Ok(())
}
