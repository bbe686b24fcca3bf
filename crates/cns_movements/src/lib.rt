//! Movement orders: shares to be moved between a member's account and account 0, their numbers, and
//! the depository's confirmations of them.
//!
//! An order is issued once, under the next number, and confirmed at most once. Nothing is ever
//! taken out of the book.
#![tactic(auto)]

mod asked;
mod book;
mod fields;
mod number;
mod open_shares;
mod order;
mod version;

pub use asked::Asked;
pub use book::{Confirm, IssueFault, OrderBook};
pub use fields::{
    CYCLE_SIZE, DAY_SIZE, MAX_ORDER_SIZE, MIN_ORDER_SIZE, REPLY_SIZE, cycle_bytes, day_bytes,
    read_cycle, read_day,
};
pub use number::MoveNo;
pub use order::{Ask, MoveKind, Order, Reply};
pub use version::Version;
