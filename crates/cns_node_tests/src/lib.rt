//! Tests of both nodes, of the system that they make, and of what is told of it. They stand in a crate of
//! their own, so that each of those crates is proved once, and not once more with its tests.
#![tactic(auto)]

#[cfg(test)]
mod clearing;
#[cfg(test)]
mod common;
#[cfg(test)]
mod depository;
#[cfg(test)]
mod report;
#[cfg(test)]
mod system;
