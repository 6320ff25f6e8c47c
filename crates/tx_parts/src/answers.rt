// What a player's calls answer.
use append_core::MultiFault;
use log_client::{Appended, StampedRead};
use log_node::{Key, Text};

/// What the own line of a key's colour tells of the key.
#[derive(Drop)]
pub enum Peek {
    /// The key's value, or none: what became of each transaction of the line is known.
    Value(Option<Text>),
    /// The first transaction of the line of which it is not known whether it commits.
    Undecided { key: Key },
}

/// A decision: on the transaction with this key, which commits or does not, as the stamped read has it; and what became of the
/// append of the node that says so.
#[derive(Drop)]
pub struct Decided {
    pub key: Key,
    pub commits: bool,
    pub read: StampedRead,
    pub appended: Result<Appended, MultiFault>,
}
