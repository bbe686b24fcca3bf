//! Both nodes, opened from copies of their journals.

ghost use Rattle.std.specs.Prelude.{◌≡◌, IfOk};
ghost use Rattle.cns_audit.specs.Opened.{IsOpening, IsRefused, is_of_reading, wants_memory};

use crate::journal::Journals;
use cns_clearing::Clearing;
use cns_depository::{Depository, Openings};
use cns_file::FileCopy;
use cns_journal::{Refused, ReplayFault};
use cns_system::{StartFault, System};
use std::alloc::{AllocError, Global};

/// Both nodes as their journals have them.
#[derive(Drop)]
pub enum Opened<'a> {
    /// They agree.
    Agreed(System<FileCopy<'a>, FileCopy<'a>>),
    /// They do not, or a record may not stand where it stands. Each node that was opened by itself stands here, and of the other one
    /// the place of the first bad record, counted from 1.
    Refused {
        clear: Result<Clearing<FileCopy<'a>>, u64>,
        depot: Result<Depository<FileCopy<'a>>, u64>,
    },
}

// The place of the first bad record, where that is why a journal is not read.
fn bad_place(fault: ReplayFault) -> Result<u64, AllocError> {
    match fault {
        ReplayFault::BadJournal { place } => Ok(place),
        ReplayFault::OutOfMemory | ReplayFault::Device => Err(AllocError),
    }
}

// The clearing node by itself.
fn open_clear<'a>(
    alloc: Global,
    file: &'a [u8],
) -> Result<Result<Clearing<FileCopy<'a>>, u64>, AllocError> {
    match Clearing::open(alloc, FileCopy::new(alloc, file)) {
        Ok(node) => Ok(Ok(node)),
        Err(Refused { fault, .. }) => Ok(Err(bad_place(fault)?)),
    }
}

// The depository by itself.
fn open_depot<'a>(
    alloc: Global,
    file: &'a [u8],
    openings: Openings,
) -> Result<Result<Depository<FileCopy<'a>>, u64>, AllocError> {
    match Depository::open(alloc, FileCopy::new(alloc, file), openings) {
        Ok(node) => Ok(Ok(node)),
        Err(Refused { fault, .. }) => Ok(Err(bad_place(fault)?)),
    }
}

// Whether a journal was not read, for another reason than what stands in it.
fn is_of_reading(fault: ReplayFault) -> bool
    ensures { result ≡ is_of_reading fault }
{
    match fault {
        ReplayFault::BadJournal { .. } => false,
        ReplayFault::OutOfMemory | ReplayFault::Device => true,
    }
}

// Whether the nodes were not opened for want of memory.
fn wants_memory(fault: StartFault) -> bool
    ensures { result ≡ wants_memory fault }
{
    match fault {
        StartFault::Clear(fault) | StartFault::Depot(fault) => is_of_reading(fault),
        StartFault::Disagree => false,
    }
}

// Both nodes by themselves.
fn open_apart<'a>(
    alloc: Global,
    journals: &Journals<'a>,
    openings: Openings,
) -> Result<Opened<'a>, AllocError>
    ensures { IfOk result IsRefused }
{
    let depot = open_depot(alloc, journals.depot, openings)?;
    match open_clear(alloc, journals.clear) {
        Ok(clear) => Ok(Opened::Refused { clear, depot }),
        Err(error) => {
            drop(depot);
            Err(error)
        }
    }
}

/// Opens both nodes as a run does, over copies of their journals, the depository with these openings, which are given twice: a
/// refused opening drops them.
pub fn open_journals<'a>(
    alloc: Global,
    journals: &Journals<'a>,
    openings: Openings,
    again: Openings,
) -> Result<Opened<'a>, AllocError>
    ensures { IfOk result (IsOpening openings journals.now.clear.now journals.now.depot.now) }
{
    let clear = FileCopy::new(alloc, journals.clear);
    let depot = FileCopy::new(alloc, journals.depot);
    match System::open(alloc, clear, depot, openings) {
        Ok(system) => {
            drop(again);
            Ok(Opened::Agreed(system))
        }
        Err(unopened) => {
            let wants_memory = wants_memory(unopened.fault);
            drop(unopened);
            if wants_memory {
                drop(again);
                return Err(AllocError);
            }
            open_apart(alloc, journals, again)
        }
    }
}
