//! Records of either node.

ghost use Rattle.std.specs.Prelude.{◌≡◌, ℕ, IfOk, IsErr, List};
ghost use Rattle.cns_records.specs.Clear.{read_clear_of};
ghost use Rattle.cns_dump.specs.Entry.{IsEntryOf, is_entry};

use cns_journal::RecordFault;
use cns_records::{ClearRecord, DepRecord};
use std::alloc::{AllocError, Global};

/// What the payload of a journal's record is.
#[derive(PartialEq, Eq, Debug, Drop)]
pub enum Entry {
    /// A record of the clearing node.
    Clear(ClearRecord),
    /// A record of the depository.
    Depot(DepRecord),
    /// No record of either: so many bytes.
    Unread(u64),
}

// What a payload is that is no record of the clearing node.
fn depot_entry(payload: &[u8]) -> Entry
    ensures { IsErr (read_clear_of payload.now) → IsEntryOf payload.now result }
{
    match DepRecord::read(payload) {
        Ok(record) => Entry::Depot(record),
        Err(_) => Entry::Unread(payload.len() as u64),
    }
}

impl Entry {
    /// What a payload is. It takes memory for the tickets of an allocation only.
    pub fn read(alloc: Global, payload: &[u8]) -> Result<Entry, AllocError>
        ensures { IfOk result (IsEntryOf payload.now) }
    {
        match ClearRecord::read(alloc, payload) {
            Ok(record) => Ok(Entry::Clear(record)),
            Err(RecordFault::BadRecord) => Ok(depot_entry(payload)),
            Err(RecordFault::OutOfMemory) => Err(AllocError),
        }
    }
    /// Whether it is a record of either node.
    pub fn is_read(&self) -> bool
        ensures { (payload : List ℕ) → IsEntryOf payload self.now → result ≡ is_entry payload }
    {
        !matches!(self, Entry::Unread(_))
    }
}
