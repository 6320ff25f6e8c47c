//! The nodes of a view in the order in which they are played.
#![tactic(auto)]

mod faults;
mod free;
mod laws;
mod lone;
mod merging;
mod player;

pub use faults::PlayFault;
pub use laws::{play_order_is_lawful, region_order_is_lawful};
pub use merging::{count_up_to, with_line};
pub use player::{Played, Player, Snapshot, play};
