//! The words of a command line, as `clap` parts them: a word, and at most one after it.
#![tactic(auto)]

mod words;

pub use words::{Words, split_words};
