// What a reader sees of a column.
use log_node::{Counts, Items, ListOf};

/// For each region the nodes of its chain.
pub type Chains = ListOf<Items>;

/// What a reader sees of a column: how many events it has, what may be played, from where on nodes are kept, and for
/// each region the nodes from `from` up to the cut.
#[derive(Drop)]
pub struct View {
    pub region: u8,
    pub colour: u8,
    pub events: u64,
    pub cut: Counts,
    pub base: Counts,
    /// For each region the greater of the asked number and the base.
    pub from: Counts,
    pub items: Chains,
}
