//! Journal records: what the clearing node and the depository write into their journals, and the
//! exact bytes of each; and why a node refuses.
//!
//! A payload begins with the version and the record's kind, a byte each. Numbers are unsigned and
//! big-endian; a date is the year in two bytes, the month and the day in one each. A payload is the
//! one spelling of its record: what is read is spelled by just the bytes that were read, and what
//! was written is read again. (This project's own format.)
#![tactic(auto)]

mod allocation;
mod bad_record;
mod clear_record;
mod dep_record;
mod drawn;
mod fields;
mod instruction;
mod refusal;

pub use allocation::Allocation;
pub use bad_record::BadRecord;
pub use clear_record::ClearRecord;
pub use dep_record::DepRecord;
pub use drawn::{Drawn, DrawnList, MAX_DRAWN};
pub use instruction::{Instruction, Sort};
pub use refusal::Refusal;
