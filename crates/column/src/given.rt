// A part of a line.
use log_node::Items;

/// The nodes of a region's line from `start` on, counted from 0, as they are handed to another region's column.
#[derive(Drop)]
pub struct Given {
    pub start: u64,
    pub items: Items,
}
