// The places of a column at which a client's commands made events.
ghost use Rattle.std.specs.Prelude.{◌≡◌, ◌+◌, ◌<◌, ◌≤◌, ◌^◌, ◌++◌, [], OnOk};
ghost use Rattle.col_core.specs.Keeping.{seen_past};

use std::alloc::{AllocError, Global};
use std::marker::Model;

/// The places of a column at which a client's commands made events, and the number behind all of them. Contracts see the
/// places.
#[derive(Drop)]
pub(crate) struct Made {
    places: Vec<u64>,
    behind: u128,
}

impl Model for Made {
    ghost use Rattle.std.specs.Prelude.{List, ℕ, ◌≡◌};
    ghost use Rattle.col_core.specs.Keeping.{seen_past};

    ghost Value = { List ℕ };

    ghost view = { λ m. m.places.items };

    ghost invariant = { λ m. m.behind ≡ seen_past 0 m.places.items };
}

/// How many events of a column are seen by one who saw so many, and made events at these places.
pub(crate) fn seen_past(seen: u128, places: &[u64]) -> u128
    ensures { result ≡ seen_past seen places.now }
{
    let mut behind = seen;
    for place in places {
        behind = behind.max(*place as u128 + 1);
    }
    behind
}

impl Made {
    /// None yet; takes no memory.
    pub(crate) fn new(alloc: Global) -> Made
        ensures { result ≡ [] }
    {
        Made {
            places: Vec::new(alloc),
            behind: 0,
        }
    }

    /// The places, in their order.
    pub(crate) fn places(&self) -> &[u64]
        ensures { result.now ≡ self.now }
    {
        self.places.as_slice()
    }

    /// The number behind all of them.
    pub(crate) fn behind(&self) -> u128
        ensures { result ≡ seen_past 0 self.now }
    {
        self.behind
    }

    /// More of them.
    pub(crate) fn extend(&mut self, places: &[u64]) -> Result<(), AllocError>
        ensures { OnOk result (self.new ≡ self.old ++ places.now) }
    {
        self.places.extend_from_slice(places)?;
        self.behind = seen_past(self.behind, places);
        Ok(())
    }
}
