//! The first record of a journal that may not stand there.

use crate::told::Told;
use cns_dump::{Entry, EntryWords, Place, PlaceWords};
use cns_file::FileRecords;
use cns_input::BatchFault;
use cns_records::{ClearRecord, DepRecord};
use std::alloc::{AllocError, Global};
use std::io::Write;

// The record in a place of a file, counted from 1, and where it stands.
fn entry_at(alloc: Global, file: &[u8], number: u64) -> Result<Option<(Place, Entry)>, AllocError> {
    let mut place = Place::FIRST;
    for payload in FileRecords::of(file) {
        if place.number == number {
            return Ok(Some((place, Entry::read(alloc, payload)?)));
        }
        place = place.behind(payload.len());
    }
    Ok(None)
}

// Why a record of the clearing node may not stand there.
fn why_clear(entry: &Entry) -> &'static str {
    match entry {
        Entry::Clear(ClearRecord::Accept(_)) => {
            "its id is that of an earlier trade, or the book is full"
        }
        Entry::Clear(ClearRecord::Cycle(_)) => {
            "it is not later than the one before it, or its orders pass 1000000"
        }
        Entry::Clear(ClearRecord::Allocate(_)) => {
            "its tickets or shares do not fit the records before it"
        }
        Entry::Clear(ClearRecord::Confirm(_)) => {
            "no order of this number is open for so many shares"
        }
        _ => "no record of this journal",
    }
}

// Why a record of the depository may not stand there.
fn why_depot(entry: &Entry) -> &'static str {
    match entry {
        Entry::Depot(DepRecord::Exec { .. }) => {
            "its number was executed before, or the shares moved do not fit the balance"
        }
        Entry::Depot(DepRecord::Own(_)) => {
            "its number was used before, or its shares do not fit the balance"
        }
        _ => "no record of this journal",
    }
}

/// Which of the two journals one is.
#[derive(Clone, Copy, PartialEq, Eq, Debug)]
pub(crate) enum Whose {
    Clear,
    Depot,
}

/// Tells the record in a place of a journal as one that may not stand there, and why.
pub(crate) fn tell_bad<W: Write + Drop>(
    alloc: Global,
    told: &mut Told<W>,
    name: &str,
    whose: Whose,
    file: &[u8],
    number: u64,
) -> Result<(), BatchFault> {
    let Some((place, entry)) = entry_at(alloc, file, number)? else {
        return told.fault(name, "no record of this journal");
    };
    let why = match whose {
        Whose::Clear => why_clear(&entry),
        Whose::Depot => why_depot(&entry),
    };
    told.fault(name, (PlaceWords(place), EntryWords(&entry), ": ", why))
}
