// What a node wants of a colour.
ghost use Rattle.std.specs.Prelude.{◌≡◌, ◌<◌, true, length};
ghost use Rattle.std.specs.List.{filter, range_with_len};
ghost use Rattle.log_node.specs.Sets.{has};
ghost use Rattle.col_core.specs.Rows.{node_wants};

use log_node::{Colours, Counts, MAX_COLOURS, Node};

// How many lesser colours are in the set.
fn rank(set: Colours, colour: u8) -> usize
    requires { colour < MAX_COLOURS }
    ensures { result ≡ length (filter (has set) (range_with_len 0 colour)) }
{
    (0..colour).filter(|c| set.has(*c)).count()
}

/// What a node wants of one of its colours.
pub(crate) fn wants_for(node: &Node, colour: u8) -> Counts
    requires in_range { colour < MAX_COLOURS }
    requires in_set { has node.now.colours colour ≡ true }
    ensures { result ≡ node_wants node.now colour }
{
    match node.wants.get(rank(node.colours, colour)) {
        Some(wants) => *wants,
        None => Counts([0; 4]),
    }
}
