//! A tree of names with rename, folded from nodes in rising key.
#![tactic(auto)]

mod change;
mod changing;
mod entries;
mod fold;
mod keys;
mod laws;
mod moving;
mod path;
mod places;
mod reading;
mod told;
mod writing;

pub use change::Change;
pub use fold::TreeFold;
pub use keys::change_keys;
pub use laws::{
    changes_are_plain, changes_fit, forms_are_no_changes, names_are_answered, names_are_one,
    paths_read_as_one, reads_as_one, reads_back, texts_differ,
};
pub use path::{Path, PathFault};
pub use reading::{make_change, move_change, read_change, remove_change};
pub use told::Told;
pub use writing::write_change;
