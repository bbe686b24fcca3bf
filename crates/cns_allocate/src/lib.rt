//! Allocation: which members are to receive shares of an issue, in which order, and how many each
//! is granted.
//!
//! A plan has the members that are still to receive shares, by group, then member. They draw tickets
//! from a pool in that order, and a ticket is granted the shares that were poured into its interval.
#![tactic(auto)]

mod delivery;
mod gate;
mod grant;
mod group;
mod plan;
mod planned;
mod seats;
mod served;
mod serving;
mod ticket_order;
mod turns;
mod waiting;
mod were_long;

pub use delivery::{deliveries, delivery_count};
pub use gate::{Gate, OpenGate};
pub use grant::grants;
pub use group::Group;
pub use plan::Plan;
pub use planned::Planned;
pub use seats::MAX_WORKERS;
pub use served::are_served;
pub use serving::{ServeCause, ServeFault, Served, serve};
pub use ticket_order::by_start;
pub use turns::{Turn, Turns};
