//! Tests of the crates that stand below both nodes. They stand in a crate of their own, so that each of
//! those is proved once, and not once more with its tests.
#![tactic(auto)]

#[cfg(test)]
mod allocate;
#[cfg(test)]
mod common;
#[cfg(test)]
mod covers;
#[cfg(test)]
mod ids;
#[cfg(test)]
mod journal;
#[cfg(test)]
mod movements;
#[cfg(test)]
mod netting;
#[cfg(test)]
mod pool;
#[cfg(test)]
mod records;
#[cfg(test)]
mod trades;
#[cfg(test)]
mod wire;
