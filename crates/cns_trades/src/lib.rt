//! Trades and openings: the rows of a text, and the list of accepted trades.
//!
//! A row is read exactly where it is well formed, and otherwise told by its number and its first
//! fault. A trade is judged against the accepted ones.
#![tactic(auto)]

mod fault;
mod fault_code;
mod id;
mod list;
mod opening;
mod record;
mod row;
mod rows;
mod trade;
mod untaken;

pub use fault::{CsvFault, RowFault};
pub use id::{BadId, TradeId};
pub use list::{TradeList, Verdict};
pub use opening::{Opening, OpeningRow, read_openings};
pub use row::{Row, read_trades};
pub use rows::TradeRows;
pub use trade::Trade;
