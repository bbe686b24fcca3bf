//! Journals of records: what every keeper of one promises, a keeper in memory, and one over a disk.
#![tactic(auto)]

mod disk;
mod disk_journal;
mod file_disk;
pub mod gate;
mod keeper;
mod list_keeper;
mod mem_disk;
mod payloads;
mod record_file;
mod record_log;

pub use disk::{Disk, DiskFault, MAX_FILE_LEN};
pub use disk_journal::DiskJournal;
pub use file_disk::FileDisk;
pub use keeper::{KeepFault, Keeper, MAX_PAYLOAD, MAX_RECORDS, NotPlanned};
pub use list_keeper::ListKeeper;
pub use mem_disk::MemDisk;
pub use record_log::{
    CommitFault, Ledger, Record, RecordFault, RecordLog, Refused, ReplayFault, Restarted,
};
