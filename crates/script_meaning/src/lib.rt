//! What it means to run a script's commands in the order of the file, and that each such run is lawful.
#![tactic(auto)]

mod laws;

pub use laws::{runs_are_exact, runs_are_lawful, scripts_stop_last};
