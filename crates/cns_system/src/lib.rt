//! Both nodes and the link between them as one system, run by events; the clearing node with its lots by
//! number, and the book of those lots.
//!
//! A lot gives the shares of an issue that are poured into it to the members of a plan, who draw
//! tickets from it in turn. `System` keeps the two nodes in accord, whatever events happen.
#![tactic(auto)]

mod agreement;
mod desk;
mod entry;
mod event;
mod fault;
mod finish;
mod floor;
mod lots;
mod numbered;
mod outcome;
mod pair;
mod system;

pub use desk::{Allocated, Cut, Desk, Drawn, serve_lot};
pub use entry::Look;
pub use event::{Event, NodeName};
pub use fault::{StartFault, Unopened};
pub use floor::{Begun, Floor};
pub use lots::LotBook;
pub use numbered::{NumberedClearing, Opened};
pub use outcome::Outcome;
pub use system::{Counts, System};
