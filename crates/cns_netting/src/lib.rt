//! Netting: each member's due trades in an issue become one long or short position.
#![tactic(auto)]

mod book;
mod count;
mod due;
mod entry;
mod position;
mod positions;
mod rows;
mod totals;
mod undue;

pub use book::NetBook;
pub use count::RowTest;
pub use entry::NetEntry;
pub use position::PositionRow;
pub use rows::rows_of_issue;
