//! Runs the commands of a script in the order of the file, over the world of core steps.
#![tactic(auto)]

mod answers;
mod appends;
mod causal;
mod clears;
mod folds;
mod gets;
mod guarded;
mod homes;
mod in_order;
mod lines_fold;
mod moves;
mod object_appends;
mod parts;
mod points;
mod queues;
mod replies;
mod reports;
mod rows;
mod run;
mod scans;
mod stamped;
mod stops;
mod syncs;
mod told;
mod transactions;
mod tree_answers;
mod trees;
mod tx_answers;
mod tx_folds;

pub use in_order::run_in_order;
pub use told::Shown;
