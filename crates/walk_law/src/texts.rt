// Texts beside one another.
ghost use Rattle.std.specs.Prelude.{◌≡◌};
ghost use Rattle.column_track.specs.Tracks.{Tells};

use log_node::Text;

/// Whether two texts are one.
pub fn same_text(one: &Text, other: &Text) -> bool
    ensures { Tells result (one.now ≡ other.now) }
{
    one.as_bytes() == other.as_bytes()
}
