// What a store ends with.
use chain_store::{ClosedRegion, Hold};
use log_node::{ListOf, Node};
use std::sync::Arc;

/// What regions end with, by number.
pub type ClosedRegions = ListOf<ClosedRegion>;

/// Nodes of a client's begun rows, in order.
pub type RowNodes = ListOf<Arc<Node>>;

/// What a store ends with: what each region ends with, and for each client, by number, the nodes of its begun rows.
#[derive(Drop)]
pub struct Closed {
    pub regions: ClosedRegions,
    pub nodes: ListOf<RowNodes>,
}

// A client's holds that are left, by region.
#[derive(Drop)]
pub(crate) struct Leaving {
    pub(crate) items: Vec<Hold>,
}
