//! Pools of shares: tickets that members draw from one, what is poured into it, and its seal.
//!
//! Members ask for shares before it is known how many there will be. Each draws a ticket, which is an
//! interval of shares: the tickets stand end to end from 0, in the order in which they were drawn. The
//! shares that are poured fill them from 0 on.
//!
//! A [`PlainPool`] is the pool of one thread. A [`PoolCell`] is one that threads share: each has a seat
//! of the cell, and each call is one step, which waits for nobody.
#![tactic(auto)]

mod any_seat;
mod feeder_seat;
mod held;
mod plain_pool;
mod pool;
mod pool_cell;
mod rule;
mod seen;
mod ticket;
mod tickets;
mod view;
mod worker_seat;

pub use any_seat::AnySeat;
pub use feeder_seat::FeederSeat;
pub use held::Held;
pub use plain_pool::PlainPool;
pub use pool::{Asked, Closed, MAX_POOL, Pool};
pub use pool_cell::PoolCell;
pub use ticket::{Reserved, Ticket};
pub use tickets::Tickets;
pub use worker_seat::WorkerSeat;
