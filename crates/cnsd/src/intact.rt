//! Runs that refuse a damaged journal, and openings other than those of the first such run.

use cns_audit::{CLEAR, DEPOT, OPENINGS, held_openings, openings_text};
use cns_file::{Tail, extent_of};
use cns_input::{BatchFault, split_input};
use cns_trades::{CsvFault, read_openings};
use std::fs::{File, OpenOptions};
use std::io::{ErrorKind, Read, Write};
use std::path::Path;
use std::{fs, io};

// All bytes of a file of a folder.
fn read_in(rt: &HostRuntime, folder: &str, name: &str) -> io::Result<Vec<u8>> {
    let path = Path::new(folder).join(rt.alloc(), name)?;
    let mut file = File::open(rt, path)?;
    let mut bytes = Vec::new(rt.alloc());
    file.read_to_end(&mut bytes)?;
    Ok(bytes)
}

// What a failure of the system comes to.
fn fault_of(error: &io::Error) -> BatchFault {
    if error.kind() == ErrorKind::OutOfMemory {
        BatchFault::Memory
    } else {
        BatchFault::Journal
    }
}

// Refuses a journal in which damage follows the last record.
fn check_tail(rt: &HostRuntime, folder: &str, name: &str) -> Result<(), BatchFault> {
    match read_in(rt, folder, name) {
        Ok(file) if extent_of(file.as_slice()).tail == Tail::Damage => Err(BatchFault::Journal),
        Ok(_) => Ok(()),
        Err(error) => Err(fault_of(&error)),
    }
}

/// Refuses `Journal` where damage follows the last record of a journal of the folder; the files stay as they are.
pub(crate) fn check_tails(rt: &HostRuntime, folder: &str) -> Result<(), BatchFault> {
    check_tail(rt, folder, CLEAR)?;
    check_tail(rt, folder, DEPOT)
}

// Keeps openings in a folder that keeps none: under another name first, so that a crash leaves all of them or none.
fn keep_openings(rt: &HostRuntime, folder: &str, text: &[u8]) -> io::Result<()> {
    let begun = Path::new(folder).join(rt.alloc(), "openings.csv.new")?;
    let kept = Path::new(folder).join(rt.alloc(), OPENINGS)?;
    let mut how = OpenOptions::new();
    how.write(true).create(true).truncate(true);
    let mut file = how.open(rt, &begun)?;
    file.write_all(text)?;
    file.sync_all()?;
    fs::rename(rt, &begun, &kept)?;
    File::open(rt, folder)?.sync_all()
}

// The text of the openings of an input; None where it has no sections, or its openings no header, which the run itself tells.
fn openings_of(rt: &HostRuntime, text: &[u8]) -> Result<Option<String>, BatchFault> {
    let Some(sections) = split_input(text) else {
        return Ok(None);
    };
    let rows = match read_openings(rt.alloc(), sections.openings) {
        Ok(rows) => rows,
        Err(CsvFault::OutOfMemory) => return Err(BatchFault::Memory),
        Err(_) => return Ok(None),
    };
    let openings = held_openings(rt.alloc(), rows.as_slice())?;
    Ok(Some(openings_text(rt.alloc(), openings.as_slice())?))
}

/// Refuses `Journal` where the openings of an input are not those that the folder keeps; where it keeps none, it keeps these from then on.
pub(crate) fn check_openings(
    rt: &HostRuntime,
    folder: &str,
    text: &[u8],
) -> Result<(), BatchFault> {
    let Some(openings) = openings_of(rt, text)? else {
        return Ok(());
    };
    match read_in(rt, folder, OPENINGS) {
        Ok(kept) if kept.as_slice() == openings.as_bytes() => Ok(()),
        Ok(_) => Err(BatchFault::Journal),
        Err(error) if error.kind() == ErrorKind::NotFound => {
            match keep_openings(rt, folder, openings.as_bytes()) {
                Ok(()) => Ok(()),
                Err(error) => Err(fault_of(&error)),
            }
        }
        Err(error) => Err(fault_of(&error)),
    }
}
