//! A table of the reports in the text of a run: what `cnsd run` wrote is read, and each line of a report that
//! tells a position, a pool or a balance is written as a row of comma-separated values.
//!
//! The first row names the columns: `report,date,kind,row,cusip,account,free,lent,out,shares`. A report is
//! known by its number in the text, counted from 1, and by the date and the kind of its cycle. What a row has
//! not is empty. CUSIPs and accounts stand in double quotes, as texts. (This project's own format.)
#![tactic(auto)]

mod fault;
mod head;
mod lines;
mod place;
mod reports;
mod row;
mod sheet;
mod table;
mod text;
mod words;
mod write;

pub use fault::TableFault;
pub use reports::Reports;
pub use write::write_table;
