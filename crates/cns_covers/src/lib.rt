//! Covers: the shares that short members are asked to deliver, and what they are spared.
//!
//! A cycle orders covers for what its members are short of, less what is ordered already and less
//! what they exempted.
#![tactic(auto)]

mod cover;
mod exemptions;
mod priorities;
mod settings;

pub use cover::{cover_count, covers, covers_of_rows};
pub use exemptions::{Exempted, Exemptions};
pub use priorities::{Priorities, Prioritized};
pub use settings::{Setting, Settings};
