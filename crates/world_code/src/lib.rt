//! The world of all columns and clients as code of one thread, whose steps are those of the world's definitions.
#![tactic(auto)]

mod appends;
mod clearing;
mod client;
mod completing;
mod moves;
mod nodes;
mod reading;
mod region;
mod replies;
mod rows;
mod unplayed;
mod whole;
mod world;

pub use client::Client;
pub use completing::Completed;
pub use region::RegionColumns;
pub use replies::{NewRow, Placed};
pub use world::World;
