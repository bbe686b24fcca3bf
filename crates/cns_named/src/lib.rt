//! Inputs by name: the one text that files of openings, of trades and of a script make.
#![tactic(auto)]

mod line;
mod named;

pub use line::has_line;
pub use named::{NamedFault, sections_are_of_files, text_of_files};
