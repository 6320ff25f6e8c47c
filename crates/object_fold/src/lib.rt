//! The objects, each folded from the nodes that a client has played.
#![tactic(auto)]

mod causal_map;
mod fold;
mod kept_fold;
mod kept_line;
mod pasts;
mod queue;
mod several_keys;
mod shard_map;
mod shards;
mod table;
mod table_key;
mod tx_state;
mod verdict;

pub use causal_map::{CausalMap, LatestWrite};
pub use fold::{LineFold, NodeFold};
pub use kept_fold::KeptFold;
pub use kept_line::KeptLine;
pub use queue::ValueQueue;
pub use several_keys::{Values, values_among};
pub use shard_map::ShardMap;
pub use shards::shard_of;
pub use table::Table;
pub use tx_state::{TxState, Written};
pub use verdict::Verdict;
