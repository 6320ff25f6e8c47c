//! A tree of names with rename over a client: each change stands as one node, and what became of it is decided by the nodes
//! before it.
#![tactic(auto)]

mod tree;

pub use tree::LogTree;
