//! Calls at the items of a list, on threads that the caller makes and waits for.
#![tactic(auto)]

mod indices;
mod items;
#[cfg(test)]
mod tests;

pub use indices::map_indices;
pub use items::for_each_mut;
