//! What the texts of nodes say to objects: puts, deletes, transactions and the like, written and read.
#![tactic(auto)]

mod laws;
mod pieces;
mod reading;
mod tree_why;
mod writing;

pub use laws::{forms_fit, reads_as_one, reads_back, texts_differ};
pub use pieces::{are_letters_or_digits, cut, is_word, read_key};
pub use reading::read_form;
pub use tree_why::TreeWhy;
pub use writing::{put_key, write_form};
