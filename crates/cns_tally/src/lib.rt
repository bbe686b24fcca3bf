//! A writer that hands a run's text on, and counts on the way which of its lines tell that something of the
//! input was not taken.
//!
//! A line that begins with `row` or `opening` is a faulty row, and one that begins with `line` a bad line. Of
//! the others those count that have the word `refused`: where the last word is `Device` as the failure of a
//! device, else where the first is `trade` as a refused trade, and else as a refused event (this project's own
//! rule).
#![tactic(auto)]

mod counts;
mod kind;
mod lines;
mod tally;

pub use counts::Counts;
pub use tally::Tally;
