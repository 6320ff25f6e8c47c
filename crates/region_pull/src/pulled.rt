// What a pull answers.
use log_node::At;
use thiserror::Error;

/// What a pull did: how many nodes it carried, its give, and its carry, which is a look where nothing was new.
#[derive(Clone, Copy, Debug, PartialEq, Eq)]
pub struct Pulled {
    pub nodes: u64,
    pub give: At,
    pub carry: At,
}

/// Why nothing was carried: both regions are one, or memory was refused. A give that was made before stands.
#[derive(Clone, Copy, Debug, PartialEq, Eq, Error)]
pub enum PullFault {
    #[error("a pull from its own region")]
    SameRegion,
    #[error("out of memory")]
    NoMemory,
}
