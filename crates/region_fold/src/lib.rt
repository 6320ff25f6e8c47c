//! One-thread objects over a client, which are folded over the nodes of all their colours in the order of the region; and one of
//! them, the transactional map: a commit stands as one node, and whether it committed is decided by the nodes before it.
#![tactic(auto)]

mod fold;
mod reads;
mod transactions;

pub use fold::RegionFold;
pub use object_fold::NodeFold;
pub use transactions::{Tx, TxMap};
