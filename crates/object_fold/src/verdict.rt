// What became of a transaction.
use log_node::Text;

/// What became of a transaction.
#[derive(Drop)]
pub enum Verdict {
    /// It committed; its node stands under this stamp.
    Committed { stamp: u64 },
    /// This key, the first such one that it read, has another last committed writer: that writer's stamp, from 1, or 0
    /// where there is none.
    Conflict { key: Text, stamp: u64 },
}
