// All rings of one column.
ghost use Rattle.std.specs.Prelude.{◌≡◌, ◌≢◌};
ghost use Rattle.ring_ends.specs.Places.{ring_place};

use crate::receives::Receives;
use crate::sends::Sends;

/// The ends of a column: those of the rings to the other regions, and those of the rings from them, each in the other
/// regions' order.
#[derive(Drop)]
pub struct Rings {
    pub sends: Vec<Sends>,
    pub receives: Vec<Receives>,
}

/// The place of another region among the regions other than `own`.
pub fn place_of(own: u8, other: u8) -> usize
    requires { own ≢ other }
    ensures { result ≡ ring_place own other }
{
    usize::from(if own < other { other - 1 } else { other })
}
