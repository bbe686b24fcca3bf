//! The depository: what its accounts hold at the start, the movements that it executed, the members' own
//! instructions that it carried out, and the journal that keeps them.
//!
//! An order is executed once, and moves what the giving account has, at most what is asked. A member's
//! own instruction brings shares into its account from outside, or takes them out. Nothing is ever taken
//! out of the stock record.
#![tactic(auto)]

mod account;
mod balances;
mod depository;
mod fault;
mod key;
mod ledger;
mod moved;
mod movement;
mod opening_index;
mod openings;
mod place;
mod ranges;
mod stock;

pub use account::Account;
pub use balances::{BalanceRow, BalanceRows};
pub use depository::Depository;
pub use fault::{Answer, DepFault, Own, OwnFault, OwnRefusal};
pub use movement::Movement;
pub use openings::{OpeningFault, Openings};
pub use ranges::{AccountChange, OpeningRanges};
