//! Identifiers and limits: CUSIPs, clearing members, shares, dates and cycles.
//!
//! Each reader answers `Ok` exactly where its text is well formed, with the text's value, and
//! otherwise the text's first fault. None takes memory.
#![tactic(auto)]

mod cusip;
mod cycle;
mod day;
mod holding;
mod member;
mod number;
mod shares;

pub use cusip::{Cusip, CusipFault};
pub use cycle::{CycleId, CycleKind};
pub use day::{BadDate, Day};
pub use holding::Holding;
pub use member::MemberNo;
pub use number::{ReadFault, read_number};
pub use shares::{Quantity, Shares, read_quantity};
