//! The generated load: its script, and what each run of it comes to that finds no want of memory.
#![tactic(auto)]

mod commands;
mod laws;
mod memory;
mod script;
mod summary;

pub use laws::{loads_are_so_large, loads_come_to_their_summary, loads_fit};
pub use memory::found_memory;
pub use script::{MAX_LOAD, make};
pub use summary::{Summary, sum_up};
