//! Clients of a store, each on a thread of its own: what they append, see, play, pull, trim and tell one another, what
//! explains their answers, and the store's end.
#![tactic(auto)]

mod answers;
mod appends;
mod client;
mod closed;
mod closing;
mod faults;
mod guarded;
mod laws;
mod merging;
mod notes;
mod object_appends;
mod object_fault;
mod opening;
mod pairs;
mod played;
mod pulls;
mod reads;
mod shard_sets;
mod store;
mod syncs;
mod track;
mod trimming;

pub use answers::{Appended, Raised, Raises, StampedRead, Synced, Syncs};
pub use client::Client;
pub use closed::{Closed, ClosedRegions, RowNodes};
pub use faults::{SyncFault, TrimFault};
pub use laws::{hearers_have_seen, reads_go_on};
pub use merging::count_up_to;
pub use notes::Note;
pub use object_fault::ObjectFault;
pub use opening::Clients;
pub use pairs::copied_pairs;
pub use played::PlayedNodes;
pub use shard_sets::{key_shards, pair_shards, transaction_shards};
pub use store::{Regions, Store};
pub use track::Track;
