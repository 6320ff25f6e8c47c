//! A lock as the nodes of a log leave it: who holds it, and who waits behind.
#![tactic(auto)]

mod laws;
mod lock;

pub use laws::tokens_rise;
pub use lock::{ASK, LEAVE, Lock, Ticket};
