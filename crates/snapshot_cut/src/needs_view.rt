// What the cut is computed from: how many nodes each chain has, and what they need.
ghost use Rattle.std.specs.Prelude.{◌≡◌, ℕ, ◌<◌, ◌≤◌, Some, length, slice_get};
ghost use Rattle.log_node.specs.declared.ids.Counts.{Counts};
ghost use Rattle.log_node.specs.declared.node.Head.{Head};
ghost use Rattle.log_node.specs.Vectors.{at};
ghost use Rattle.log_node.specs.Reach.{Chains};

use log_node::Counts;

/// The chains of a column, by the regions 0 to 3, with what their nodes need. The chain of a region that the shape
/// lacks is empty. A view means each chain's whole list of heads, also where it tells the needs of its later nodes
/// alone.
pub trait NeedsView {
    ghost chains: { Self → Chains };

    ghost bases: { Self → Counts };

    /// From which position on, counted from 0, the needs of a region's nodes are told.
    fn base(&self, region: u8) -> u64
        requires { region < 4 }
        ensures { result ≡ at (bases self.now) region };

    /// How many nodes a region's chain has.
    fn count(&self, region: u8) -> u64
        requires { region < 4 }
        ensures { result ≡ length (chains self.now region) };

    /// What the node at a position of a region's chain needs.
    fn needs(&self, region: u8, position: u64) -> Counts
        requires region { region < 4 }
        requires base { at (bases self.now) region ≤ position }
        requires count { position < length (chains self.now region) }
        ensures { (head : Head) → slice_get (chains self.now region) position ≡ Some head → result ≡ head.needs };
}
