//! Several keys of a map at once, over a client: their puts are one node of all their shards, and they are read under one stamp.
#![tactic(auto)]

mod atomic;
mod line_fold;
mod line_writes;

pub use atomic::AtomicMap;
