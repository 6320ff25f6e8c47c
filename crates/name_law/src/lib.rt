//! The names in what is read as a script are told from one another.
#![tactic(auto)]

mod laws;

pub use laws::scripts_name_apart;
