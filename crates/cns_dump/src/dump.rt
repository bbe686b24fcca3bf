//! The dump of a journal's file.

ghost use Rattle.std.specs.Prelude.{◌≡◌, IfOk};
ghost use Rattle.std.specs.List.{list_all};
ghost use Rattle.cns_journal.specs.Layout.{journal_of};
ghost use Rattle.cns_dump.specs.Entry.{is_entry};
ghost use Rattle.cns_dump.specs.Sound.{is_sound};

use crate::entry::Entry;
use crate::lines::Lines;
use crate::place::{EndWords, Place, PlaceWords};
use crate::table::Table;
use crate::words::{EntryWords, TicketWords};
use cns_file::{Extent, FileRecords, Tail, extent_of};
use cns_input::BatchFault;
use cns_records::ClearRecord;
use std::alloc::Global;
use std::io::Write;

/// In which form a dump is written.
#[derive(Clone, Copy, PartialEq, Eq, Debug)]
pub enum Form {
    /// A line for each record.
    Lines,
    /// A row for each record, as CSV.
    Csv,
}

// Tells a record, and the tickets of an allocation in a line each.
fn tell_entry<W: Write>(
    lines: &mut Lines,
    writer: &mut W,
    place: Place,
    entry: &Entry,
) -> Result<(), BatchFault> {
    lines.tell(writer, &(PlaceWords(place), EntryWords(entry), "\n"))?;
    if let Entry::Clear(ClearRecord::Allocate(allocation)) = entry {
        for ticket in allocation.drawn.as_slice() {
            lines.tell(writer, &TicketWords(*ticket))?;
        }
    }
    Ok(())
}

// The dump as lines; whether each payload was a record.
fn write_lines<W: Write>(
    alloc: Global,
    file: &[u8],
    extent: &Extent,
    writer: &mut W,
) -> Result<bool, BatchFault>
    ensures { IfOk result (λ good. good ≡ list_all is_entry (journal_of file.now)) }
{
    let mut lines = Lines::new(alloc);
    let mut place = Place::FIRST;
    let mut good = true;
    for payload in FileRecords::of(file) {
        let entry = Entry::read(alloc, payload)?;
        tell_entry(&mut lines, writer, place, &entry)?;
        good = good && entry.is_read();
        place = place.behind(payload.len());
    }
    let words = EndWords {
        bytes: following(file, extent),
        tail: extent.tail,
    };
    lines.tell(writer, &("end byte ", extent.bytes, ": ", words, "\n"))?;
    lines.end(writer)?;
    Ok(good)
}

// How many bytes follow the records.
fn following(file: &[u8], extent: &Extent) -> u64 {
    (file.len() as u64).saturating_sub(extent.bytes)
}

// The same as rows.
fn write_rows<W: Write>(
    alloc: Global,
    file: &[u8],
    extent: &Extent,
    writer: &mut W,
) -> Result<bool, BatchFault>
    ensures { IfOk result (λ good. good ≡ list_all is_entry (journal_of file.now)) }
{
    let mut table = Table::begin(alloc, writer)?;
    let mut place = Place::FIRST;
    let mut good = true;
    for payload in FileRecords::of(file) {
        let entry = Entry::read(alloc, payload)?;
        table.write_entry(place, &entry)?;
        good = good && entry.is_read();
        place = place.behind(payload.len());
    }
    table.write_end(extent.bytes, following(file, extent), extent.tail)?;
    Ok(good)
}

/// Writes what the file of a journal holds, record by record, and what follows the last one; answers whether each payload was a
/// record of either node, and no damage follows.
///
/// Refuses `Memory` and `Write`, and a part of the dump may then have been written.
pub fn write_dump<W: Write>(
    alloc: Global,
    file: &[u8],
    form: Form,
    writer: &mut W,
) -> Result<bool, BatchFault>
    ensures { IfOk result (λ good. good ≡ is_sound file.now) }
{
    let extent = extent_of(file);
    let good = match form {
        Form::Lines => write_lines(alloc, file, &extent, writer)?,
        Form::Csv => write_rows(alloc, file, &extent, writer)?,
    };
    Ok(good && extent.tail != Tail::Damage)
}
