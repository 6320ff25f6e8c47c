//! The judge of runs for programs in other languages: a static library with one call.
#![tactic(auto)]

mod said;

pub use said::{Said, fuzzylog_check};
