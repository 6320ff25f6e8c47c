//! A causal map over a client: a get answers the values of the played writes that no other played write follows.
#![tactic(auto)]

mod causal;
mod played;

pub use causal::CausalMap;
