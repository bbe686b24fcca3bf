//! Tests of whole batches, over keepers and devices that no command line gives. They stand in a crate of
//! their own, so that the crate of batches is proved once, and not once more with its tests.
#![tactic(auto)]

#[cfg(test)]
mod batch;
#[cfg(test)]
mod desk;
#[cfg(test)]
mod disk;
#[cfg(test)]
mod pace;
#[cfg(test)]
mod story;
