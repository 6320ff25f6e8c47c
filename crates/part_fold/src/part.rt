// The places of shards, and the shard that a part has.
ghost use Rattle.std.specs.Prelude.{◌≡◌, ◌<◌, ◌^◌};
ghost use Rattle.part_fold.specs.Parts.{is_in_shard, place_of};

use std::marker::Model;

/// The shard at a place of an object's colours, counted from 0.
#[derive(Drop)]
pub struct Part {
    place: u8,
    colours: u8,
}

impl Model for Part {
    ghost use Rattle.std.specs.Prelude.{◌<◌};
    ghost use Rattle.part_fold.specs.Parts.{Part as Seen};

    ghost Value = { Seen };

    ghost view = { λ a. record { place = a.place; colours = a.colours } };

    ghost invariant = { λ a. a.place < a.colours };
}

/// The place of a key's shard among so many colours: the sum of its bytes modulo their number.
pub fn place_of(key: &[u8], colours: usize) -> usize
    requires some { 0 < colours }
    requires few { colours < 2 ^ 63 }
    ensures { result ≡ place_of colours key.now }
{
    let mut place = 0;
    for byte in key {
        place = (place + usize::from(*byte) % colours) % colours;
    }
    place
}

impl Part {
    /// The shard at this place of that many colours.
    pub fn of(place: u8, colours: u8) -> Self
        requires { place < colours }
        ensures { result ≡ record { place = place; colours = colours } }
    {
        Part { place, colours }
    }

    /// Whether the key is one of the shard: the sum of its bytes modulo the number of colours is the place.
    pub fn has(&self, key: &[u8]) -> bool
        ensures { result ≡ is_in_shard self.now key.now }
    {
        place_of(key, usize::from(self.colours)) == usize::from(self.place)
    }
}
