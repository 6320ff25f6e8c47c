// What stands in the way of a key.
ghost use Rattle.std.specs.Prelude.{◌≡◌, ◌<◌, [], None, IfSome};
ghost use Rattle.std.specs.Option.{option_map};
ghost use Rattle.world_code.specs.WorldView.{world_of};
ghost use Rattle.world_code.specs.Looks.{open_below, IsFirstBelow};

use crate::world::World;
use log_node::{Begun, Key, Row};

// The row of a begun append, if there is one.
fn row_of(first: Option<Begun>) -> Option<Row>
    ensures { result ≡ option_map (λ b. b.row) first }
{
    first.map(|begun| begun.row)
}

impl World {
    /// The row of the least open entry below a key of a region's column; `None` exactly where there is no such entry.
    pub fn open_row_below(&self, region: u8, colour: u8, key: Key) -> Option<Row>
        requires region { region < self.now.shape.regions }
        requires colour { colour < self.now.shape.colours }
        ensures some { IfSome result (λ row. IsFirstBelow (world_of self.now) region colour key row) }
        ensures none { result ≡ None → open_below key ((world_of self.now).histories region colour) ≡ [] }
    {
        let _whole = &self.shape;
        let below = self.column(region, colour).below(key);
        row_of(below.first)
    }
}
