//! The two journals in a folder.

use crate::cuts::CutFile;
use cns_audit::{CLEAR, DEPOT};
use cns_file::CutsKept;
use cns_input::BatchFault;
use cns_journal::{DiskJournal, FileDisk};
use std::fs::{File, OpenOptions};
use std::path::Path;
use std::rt::Files;

/// A journal in a file of a folder, whose reopening keeps what it cuts off beside the file.
pub(crate) type FileJournal<'a> = DiskJournal<CutsKept<FileDisk, CutFile<'a>>>;

/// The journals of both nodes, which nobody else writes while they are held.
#[derive(Drop)]
pub(crate) struct Journals<'a> {
    pub(crate) clear: FileJournal<'a>,
    pub(crate) depot: FileJournal<'a>,
}

// Opens a file of a folder for reading and writing, makes it where it is missing, and takes its lock.
fn open_locked<R: Files<File = File> + AllocGlobal>(
    rt: &R,
    folder: &str,
    name: &str,
) -> Result<File, BatchFault> {
    let path = Path::new(folder).join(rt.alloc(), name)?;
    let mut how = OpenOptions::new();
    how.read(true).write(true).create(true);
    let Ok(file) = how.open(rt, path) else {
        return Err(BatchFault::Journal);
    };
    match file.try_lock() {
        Ok(()) => Ok(file),
        Err(_) => Err(BatchFault::Journal),
    }
}

// Opens a folder.
fn open_folder<R: Files<File = File>>(rt: &R, folder: &str) -> Result<File, BatchFault> {
    match File::open(rt, folder) {
        Ok(folder) => Ok(folder),
        Err(_) => Err(BatchFault::Journal),
    }
}

// Waits until the names in a folder are on the disk.
fn sync_folder(folder: &File) -> Result<(), BatchFault> {
    match folder.sync_all() {
        Ok(()) => Ok(()),
        Err(_) => Err(BatchFault::Journal),
    }
}

// The journal in a file of a folder.
fn journal_of<'a>(
    rt: &'a HostRuntime,
    file: File,
    folder: &'a str,
    cuts: &'static str,
) -> FileJournal<'a> {
    let alloc = rt.alloc();
    let disk = CutsKept::new(alloc, FileDisk::new(file), CutFile::new(rt, folder, cuts));
    DiskJournal::new(alloc, disk)
}

/// Opens `clear.journal` and `depot.journal` in a folder, empty where they are missing. The folder is
/// not made. No record is read yet. What a reopening cuts off them is kept in `clear.journal.cut` and
/// `depot.journal.cut`.
///
/// Refuses `Journal` where the folder cannot be opened, where a file cannot be opened for reading and
/// writing or its lock is held elsewhere, and where the folder cannot be synced; `Memory` where there was
/// none.
pub(crate) fn open_journals<'a>(
    rt: &'a HostRuntime,
    folder: &'a str,
) -> Result<Journals<'a>, BatchFault> {
    let directory = open_folder(rt, folder)?;
    let clear = open_locked(rt, folder, CLEAR)?;
    let depot = open_locked(rt, folder, DEPOT)?;
    sync_folder(&directory)?;
    Ok(Journals {
        clear: journal_of(rt, clear, folder, "clear.journal.cut"),
        depot: journal_of(rt, depot, folder, "depot.journal.cut"),
    })
}
