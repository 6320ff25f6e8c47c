//! The world of all columns, rows and clients, its steps, and the laws of every world that steps have made.
#![tactic(auto)]

mod laws;
mod steps;

pub use laws::{
    can_complete, copies_are_true, fenced_is_nowhere, has_nodes, is_lawful, log_only_grows,
    none_gets_before, one_outcome, ordered_alike, stays_within_cuts,
};
pub use steps::{Reply, Step};
