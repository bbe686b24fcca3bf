//! The file of a journal as it stands: its records one after another, what stands behind the last one and whether
//! a crash leaves such, a keeper that gives what a copy of the file holds, and a disk that keeps what is cut off.
#![tactic(auto)]

mod copy;
mod cut;
mod extent;
mod record;
mod records;
mod tail;

pub use copy::FileCopy;
pub use cut::{CutsKept, Scraps};
pub use extent::{Extent, extent_of};
pub use record::{FileRecord, first_record};
pub use records::FileRecords;
pub use tail::{Tail, damage_is_reported, tail_of};
