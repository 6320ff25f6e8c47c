// The chain that alone has nodes to be played, taken out of a view.
ghost use Rattle.std.specs.Prelude.{◌≡◌, ◌<◌, IfSome, IsTrue, [], slice_index_or};
ghost use Rattle.playback.specs.Inside.{is_lone};

use col_core::Chains;
use log_node::{Counts, Items, ListOf, MAX_REGIONS};
use std::alloc::Global;

// A region beside which no other one's chain has nodes that are to be played, where there is one.
pub(crate) fn lone_region(from: Counts, to: Counts) -> Option<u8>
    ensures { IfSome result (λ region. (region < 4) × IsTrue (is_lone from to region)) }
{
    for region in 0..MAX_REGIONS {
        if to.with_number(region, 0).is_within(from) {
            return Some(region);
        }
    }
    None
}

// The chain of a region, moved out of those of a view.
pub(crate) fn taken_chain(alloc: Global, chains: Chains, region: u8) -> Items
    ensures { result ≡ slice_index_or chains region [] }
{
    let number = region as usize;
    let mut chains = chains.into_vec();
    if number < chains.len() {
        chains.swap_remove(number)
    } else {
        ListOf::new(alloc)
    }
}
