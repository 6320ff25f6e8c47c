//! Reads a script on threads, and deals its commands out to its clients.
#![tactic(auto)]

mod begins;
mod cuts;
mod cutting;
mod dealing;
mod dealt;
mod lists;
mod part;
mod reading;

pub use dealing::deal;
pub use dealt::{DealtScript, Share};
pub use reading::parse_beside;
