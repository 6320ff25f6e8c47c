//! A report's text, whose parts are made on threads.
#![tactic(auto)]

mod made;
mod parts;
mod printing;

pub use printing::print_beside;
