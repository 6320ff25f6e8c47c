// The rings of all regions of a store, once all of them have ended.
ghost use Rattle.std.specs.Prelude.{◌≡◌, ◌≢◌, ◌<◌, ◌≤◌, ℕ, length, map, Some, slice_get};
ghost use Rattle.log_node.specs.declared.limits.TheConstants.{MAX_REGIONS};
ghost use Rattle.chain_store.specs.declared.closed.ClosedRegion.{ClosedRegion};
ghost use Rattle.chain_store.specs.Joined.{ends_in, AreJoined, AreCarriedAlong, AreBetween, AreAllBetween};
ghost use Rattle.chain_store.specs.Joined.{IsAlong, BothAlong, past_of, ended_past};

use crate::closed::ClosedRegion;
use log_node::MAX_REGIONS;
use ring_ends::{Rings, check, place_of};

// The two rings between columns of one colour, of region a and of region b.
fn check_both(x: &mut Rings, y: &mut Rings, a: u8, b: u8, regions: u8)
    requires apart { a ≢ b }
    requires inside { (a < regions) × (b < regions) }
    requires between { AreBetween regions a b x.old y.old }
    ensures first { past_of x.new ≡ past_of x.old }
    ensures second { past_of y.new ≡ past_of y.old }
    ensures along { IsAlong a b x.old y.old × IsAlong b a y.old x.old }
{
    let to = place_of(a, b);
    let back = place_of(b, a);
    check(&mut x.sends[to], &mut y.receives[back]);
    check(&mut y.sends[back], &mut x.receives[to]);
}

// The rings between two regions' columns, of each colour.
fn check_between(xs: &mut Vec<Rings>, ys: &mut Vec<Rings>, a: u8, b: u8, regions: u8)
    requires apart { a ≢ b }
    requires inside { (a < regions) × (b < regions) }
    requires joined { AreAllBetween regions a b xs.old.items ys.old.items }
    ensures first { map past_of xs.new.items ≡ map past_of xs.old.items }
    ensures second { map past_of ys.new.items ≡ map past_of ys.old.items }
    ensures along { BothAlong (length xs.old.items) a b xs.old.items ys.old.items }
{
    for colour in 0..xs.len() {
        check_both(&mut xs[colour], &mut ys[colour], a, b, regions);
    }
}

// The rings between a region and those before it.
fn check_below(low: &mut [ClosedRegion], last: &mut ClosedRegion, regions: u8)
    requires inside { length low.old < regions }
    requires joined { (a : ℕ) (x : ClosedRegion) → slice_get low.old a ≡ Some x
        → AreAllBetween regions a (length low.old) x.ends.items last.old.ends.items }
    ensures low { map ended_past low.new ≡ map ended_past low.old }
    ensures last { ended_past last.new ≡ ended_past last.old }
    ensures along { (a : ℕ) (x : ClosedRegion) → slice_get low.old a ≡ Some x
        → BothAlong (length x.ends.items) a (length low.old) x.ends.items last.old.ends.items }
{
    let own = low.len();
    for a in 0..own {
        check_between(
            &mut low[a].ends,
            &mut last.ends,
            a as u8,
            own as u8,
            regions,
        );
    }
}

/// What came through each ring is a beginning of what went into it: learnt of all regions of a store that have ended, since
/// both ends of each ring are at hand then. Takes no memory, and changes nothing that is known of the regions.
pub fn check_rings(closed: &mut Vec<ClosedRegion>, regions: u8, colours: u8)
    requires regions { regions ≤ MAX_REGIONS }
    requires joined { AreJoined regions colours (ends_in closed.old.items) }
    ensures checked { AreCarriedAlong (ends_in closed.old.items) }
    ensures same { map ended_past closed.new.items ≡ map ended_past closed.old.items }
{
    for own in 0..regions as usize {
        let (low, high) = closed.split_at_mut(own);
        check_below(low, &mut high[0], regions);
    }
}
