//! Whole batches: an input text of openings, trades and a script is read, both nodes are opened, and what
//! the script's commands tell is written.
//!
//! `run_batch` runs over keepers in memory, `run_batch_kept` over those that it is given, and `run_desk`
//! lets workers serve the lots. What `run_batch_kept` tells is written as each line of the script ends;
//! `run_paced` does what `run_desk` does, at such a pace or at the other one. The text that a batch over
//! keepers in memory writes is a function of the bytes that it reads (`text_of`), where no event is refused
//! for want of memory. `check_cusip` says of one text whether it is a CUSIP.
#![tactic(auto)]

mod at_desk;
mod batch;
mod check;
mod commands;
mod desk;
mod fault;
mod in_turn;
mod lines;
mod nodes;
mod opening;
mod output;
mod pace;
mod page;
mod runner;
mod script;
mod supply;

pub use batch::{Kept, files_may_be_cut, run_batch, run_batch_kept, text_is_of_bytes};
pub use check::check_cusip;
pub use desk::{run_desk, run_paced};
pub use pace::Pace;
