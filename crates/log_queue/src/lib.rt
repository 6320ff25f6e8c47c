//! A queue over a client: its nodes stand in the own line of one colour, and a dequeue answers what its own node takes.
#![tactic(auto)]

mod queue;

pub use queue::LogQueue;
