//! Two journals of two parties, checked against one another, and a member's position explained from them.
//!
//! All of it only reads: both journals are opened as by a run, over copies of their files in memory.
#![tactic(auto)]

mod bad;
mod balance;
mod check;
mod compare;
mod depot;
mod explanation;
mod issues;
mod journal;
mod kept;
mod least;
mod opened;
mod position;
mod register;
mod told;

pub use balance::{BalanceRegister, balance_register};
pub use check::{Asked, check_journals};
pub use explanation::explain;
pub use journal::{CLEAR, DEPOT, Journals, OPENINGS};
pub use kept::{held_openings, openings_text};
pub use least::least_openings;
pub use opened::{Opened, open_journals};
pub use position::{PositionRegister, position_register};
pub use register::{Amount, Cause, Holder, Movement, Waiting};
