//! Shaking: before a pump, random words let orders be sent, and packets arrive, again and out of turn.
#![tactic(auto)]

mod shaker;
#[cfg(test)]
mod tests;

pub use shaker::{DRAWS, Shaker};
