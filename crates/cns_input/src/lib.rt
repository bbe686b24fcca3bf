//! The input of a batch: its bytes, its sections, and the lines of its script as commands.
//!
//! Each reader but `read_input` is given the bytes, takes no memory, and answers the one thing that they are.
#![tactic(auto)]

mod command;
mod fault;
mod input;
mod sections;
mod steps;

pub use command::{Command, command_of};
pub use fault::BatchFault;
pub use input::read_input;
pub use sections::{Sections, line_size, line_text, split_input};
pub use steps::Steps;
