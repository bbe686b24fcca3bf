//! The words of a line: the pieces between its single spaces, one after another.
#![tactic(auto)]

mod words;

pub use words::{none_behind, split_word};
