//! The greatest vector that can be reached over chains whose nodes have needs.
#![tactic(auto)]

mod cuts;
mod needs_view;

pub use cuts::admit;
pub use needs_view::NeedsView;
