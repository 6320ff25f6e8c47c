// The regions of a log.
ghost use Rattle.log_client.specs.Regions.{AreRegionsOf};

use chain_store::Region;
use log_node::ListOf;
use stamp_board::Size;

/// Regions, by number.
pub type Regions = ListOf<Region>;

/// All regions of a log, each with its columns and its board. Clients act on it from threads of their own.
#[derive(Drop)]
pub struct Store {
    pub(crate) size: Size,
    pub(crate) regions: Regions,
    ghost fit: { AreRegionsOf size regions },
}

impl Store {
    ghost use Rattle.std.specs.Prelude.{◌≡◌, ◌<◌, Some, length, slice_get};

    // The region with this number.
    pub(crate) fn region(&self, number: u8) -> &Region
        requires { number < length self.now.regions }
        ensures there { slice_get self.now.regions number ≡ Some result.now }
        ensures size { result.now.board.size ≡ self.now.size }
        ensures number { result.now.number ≡ number }
        ensures regions { result.now.regions ≡ length self.now.regions }
    {
        &self.regions.as_slice()[number as usize]
    }
}
