//! The rings through which nodes go from a column to the same colour's columns of other regions, over `rtrb`.
#![tactic(auto)]

mod make;
mod meeting;
mod receives;
mod rings;
mod sends;

pub use make::{RING_ROOM, RingEnds, RingLists, make_rings};
pub use meeting::check;
pub use receives::Receives;
pub use rings::{Rings, place_of};
pub use sends::Sends;
