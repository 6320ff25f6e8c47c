//! A map over a client: a key's nodes stand in the own line of its shard's colour, and a get answers by those that are played.
#![tactic(auto)]

mod map;

pub use map::LogMap;
