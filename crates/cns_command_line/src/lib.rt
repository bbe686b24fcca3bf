//! What the words of the program's command line ask for.
//!
//! `clap` reads the words: [`parse_command_line`] has it know six subcommands with their options, and makes a
//! [`Request`] of what it found. Nothing is opened or run here.
#![tactic(auto)]

mod commands;
mod help;
mod options;
mod parse;
mod request;
mod values;
mod version;

pub use parse::parse_command_line;
pub use request::{Audit, Folder, Manner, Names, Request, Source};
