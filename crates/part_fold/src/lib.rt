//! Transactions by the line of one colour: what the transactions and the decisions of a shard's line leave.
#![tactic(auto)]

mod decided;
mod decision;
mod laws;
mod part;
mod part_fold;
mod ruled_fold;
mod transaction;

pub use decision::{Decision, read_decision, write_decision};
pub use laws::{
    decisions_are_plain, decisions_differ, decisions_fit, parts_agree, parts_are_shards,
    reads_decisions, verdicts_stay,
};
pub use part::place_of;
pub use part_fold::PartFold;
pub use ruled_fold::RuledFold;
pub use transaction::Transaction;
