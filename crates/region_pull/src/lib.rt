//! Pulls: a region's column takes over what is new of another region's line.
#![tactic(auto)]

mod asking;
mod bringing;
mod pulled;
mod pulling;

pub use pulled::{PullFault, Pulled};
pub use pulling::pull;
