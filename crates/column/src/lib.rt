//! One region's copy of one colour, as the object of one thread.
#![tactic(auto)]

mod column;
mod contents;
mod copies;
mod entered;
mod faults;
mod given;
mod keys;
mod moves;
mod only;
mod questions;
mod reading;
mod trimming;
mod views;
mod waits;
mod wants;

pub use column::Column;
pub use entered::Entered;
pub use faults::{ColumnFault, OnlyFault};
pub use given::Given;
pub use views::Below;
