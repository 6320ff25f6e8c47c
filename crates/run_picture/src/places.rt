// Where things stand in a timeline.
ghost use Rattle.std.specs.Prelude.{◌≡◌, ◌<◌, ◌^◌};
ghost use Rattle.run_picture.specs.Places.{x_of, top_of};

/// The left end of a command's box, by its place among the commands that are shown.
pub fn x_of(place: usize) -> u64
    ensures value { result ≡ x_of place }
    ensures range { result < 2 ^ 20 }
{
    130 + 150 * place.min(255) as u64
}

/// The upper end of a client's lane, by its number.
pub fn top_of(lane: usize) -> u64
    ensures value { result ≡ top_of lane }
    ensures range { result < 2 ^ 20 }
{
    76 + 92 * lane.min(255) as u64
}
