// What is told of a change.
use object_form::TreeWhy;

/// What is told of a change, with the stamp of its node.
#[derive(Clone, Copy, Debug, PartialEq, Eq)]
pub enum Told {
    /// The change is done.
    Done { stamp: u64 },
    /// The change failed for this reason and left the tree as it was.
    Failed { stamp: u64, why: TreeWhy },
}
