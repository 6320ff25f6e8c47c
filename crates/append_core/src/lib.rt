//! Appends to the columns of a region: to one colour, and to several; what is open is helped, and what stands in the way
//! of a key is cleared.
#![tactic(auto)]

mod alone;
mod clearing;
mod course;
mod guarded;
mod helping;
mod placing;
mod several;
mod stages;
mod stands;
mod stood;

pub use alone::single;
pub use clearing::clear;
pub use guarded::only;
pub use helping::help;
pub use several::{MultiFault, multi};
pub use stood::{Point, Points, Stood};
