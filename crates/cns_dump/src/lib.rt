//! What the file of a journal holds, told record by record: the records of either node in the words of the output
//! lines, and what follows the last one.
#![tactic(auto)]

mod dump;
mod entry;
mod lines;
mod place;
mod table;
mod words;

pub use dump::{Form, write_dump};
pub use entry::Entry;
pub use lines::Lines;
pub use place::{EndWords, Place, PlaceWords};
pub use words::{EntryWords, OrderWords};
