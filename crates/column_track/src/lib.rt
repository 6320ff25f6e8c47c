//! A column's journal done again: whether it is a lawful history, and what held after each number of its events.
#![tactic(auto)]

mod again;
mod closing;
mod doing;
mod marks;
mod nodes;
mod places;
mod track;

pub use doing::do_again;
pub use marks::Mark;
pub use track::Track;
