//! The clearing node: the trades that it accepted, the covers that it ordered, what the depository
//! confirmed of them, and the journal that keeps its records.
//!
//! A call tests first, then takes the memory that it needs, then commits one record, and applies it
//! once it is acknowledged. What the node shows follows from the acknowledged records alone.
#![tactic(auto)]

mod admission;
mod answer;
mod books;
mod clearing;
mod closing;
mod effects;
mod ledger;
mod lot;
mod pool_sums;
mod pooled_orders;
mod pools;

pub use answer::{Closed, Cycled, Orders, Taken};
pub use clearing::Clearing;
pub use lot::Lot;
pub use pools::{PoolRow, PoolRows};
