// A change of the tree.
use crate::path::Path;
use log_node::Text;

/// A change of the tree; none of its paths is the root.
#[derive(Drop)]
pub enum Change {
    /// The path comes to be there, with this value: 1 to 16 small letters and digits.
    Make { path: Path, value: Text },
    /// The path, from which none goes on, is no more there.
    Remove { path: Path },
    /// The target comes in the place of the source, at the front of each path that is the source or goes on from it.
    Move { source: Path, target: Path },
}
