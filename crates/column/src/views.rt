// What calls of a column show of its entries.
use log_node::Begun;

/// After how many events of the column, how many open entries have a key below, and the least of them. Its begun
/// append is without its node where memory was refused.
#[derive(Drop)]
pub struct Below {
    pub events: u64,
    pub count: u64,
    pub first: Option<Begun>,
}
