//! Texts: the exact bytes of each outcome line and of the report.
//!
//! Each function adds its whole text to what stands in `out`, a [`Text`]. Where memory is wanting, it adds
//! nothing, and `out` reads as before.
#![tactic(auto)]

mod account;
mod event;
mod fault;
mod line;
mod outcome;
mod position;
mod put;
mod report;
mod row;
mod text;
mod write;

pub use event::{EventLine, Instructed, LotLine, RefusedLine, moved, yes_or_no};
pub use line::Line;
pub use outcome::{orders_of, outcome_line};
pub use put::Put;
pub use report::{
    ReportEnd, ReportHead, write_balance_report, write_cycle_report, write_report_end,
};
pub use text::{Draft, Text};
pub use write::write_line;
