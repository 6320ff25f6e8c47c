//! What is said of a text that has a script and the report of a run of it.
#![tactic(auto)]

mod checking;
mod laws;
mod start;
mod verdict;

pub use checking::{check, check_texts};
pub use laws::one_verdict;
pub use verdict::Verdict;
