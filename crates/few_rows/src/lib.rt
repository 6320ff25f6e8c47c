//! How few rows a store needs: no more than each client's commands may begin.
#![tactic(auto)]

mod needs;

pub use needs::rows_for;
