//! The columns of a log in the end, as parts of a report.
#![tactic(auto)]

mod beside;
mod columns;

pub use beside::columns_beside;
pub use columns::push_columns;
