//! What is wrong with an input, all of it: its heads, its headers, each fault of each row, and the lines of
//! its script.
//!
//! A check runs nothing. It tells at least what a run would tell of the rows and of the lines that are no commands.
//! Trades whose id an earlier row has are no faults of the input, and are told apart from them.
#![tactic(auto)]

mod again;
mod clean;
mod excerpt;
mod field;
mod finding;
mod form;
mod found;
mod heads;
mod lines;
mod mended;
mod openings;
mod repeat;
mod rows;
mod script;
mod seen;
mod text;
mod trades;
mod words;

pub use again::repeats;
pub use clean::{clean_texts_alone_have_no_findings, first_fault_is_that_of_a_run};
pub use finding::{Finding, Head, Part, Table};
pub use found::{Findings, Found};
pub use repeat::{Repeat, Repeats};
pub use text::check;
pub use words::{count_line, found_line, repeat_line, repeats_line};
