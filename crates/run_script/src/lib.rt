//! Runs a script of clients and commands over the shared log, from the words of a command line and the bytes of the script to
//! the bytes of the report.
#![tactic(auto)]

mod asked;
mod checking;
mod front;
mod reading;
mod serving;
mod status;
mod top;

pub use status::Status;
pub use top::run;
