// What a world is as a whole.
ghost use Rattle.std.specs.Prelude.{◌≡◌};
ghost use Rattle.world_code.specs.WorldView.{IsWhole};

use crate::region::RegionColumns;
use crate::world::World;

impl World {
    /// All clients, rows and columns of its shape are there, each in its place, and steps have made it.
    pub fn is_whole(&self)
        ensures { IsWhole self.now }
    {
        let _whole = &self.regions;
    }

    /// Its columns, by region and colour; takes no memory.
    pub fn into_columns(self) -> Vec<RegionColumns>
        ensures { result.items ≡ self.columns }
    {
        self.regions
    }
}
