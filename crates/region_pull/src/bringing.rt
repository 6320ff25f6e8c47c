// Nodes from region to region, through their ring.
ghost use Rattle.std.specs.Prelude.{◌≡◌, ◌≢◌, IfOk, OnErr};
ghost use Rattle.chain_store.specs.Regions.{tag_at};
ghost use Rattle.chain_store.specs.Holds.{IsHold, SeesMoreIn, CarriesIn};
ghost use Rattle.chain_store.specs.Going.{GoesOnIn};
ghost use Rattle.region_pull.specs.Stores.{AreOfOneStore};
ghost use Rattle.region_pull.specs.Inside.{HasWatched};

use chain_store::{Hold, Region};
use log_node::At;
use std::alloc::AllocError;
use std::sync::Wait;

// Sends and receives in turns, since a ring takes few nodes at once, until so many of `from`'s line are held or received in
// `to`; then carries all that was received. Nodes that another client received or carried count as well.
pub(crate) fn bring<R: Wait>(
    rt: &R,
    from: &Region,
    to: &Region,
    from_hold: &mut Hold,
    to_hold: &mut Hold,
    colour: u8,
    least: u64,
) -> Result<(At, u64), AllocError>
    requires from_hold { IsHold from.now from_hold.old }
    requires to_hold { IsHold to.now to_hold.old }
    requires store { AreOfOneStore from.now to.now colour }
    requires apart { from.now.number ≢ to.now.number }
    ensures from_hold { HasWatched from.now colour from_hold.old from_hold.new }
    ensures to_hold { GoesOnIn to.now colour to_hold.old to_hold.new }
    ensures ok { IfOk result (λ r.
        CarriesIn colour to_hold.old to_hold.new (tag_at to.now colour) from.now.number least r.0 r.1) }
    ensures err { OnErr result (SeesMoreIn colour to_hold.old to_hold.new) }
{
    for _ in rt.forever() {
        from.feed(rt, from_hold, colour, to.number())?;
        let there = to.drain(rt, to_hold, colour, from.number())?;
        if there >= least {
            if let Some(carried) = to.carry(rt, to_hold, colour, from.number(), least)? {
                return Ok(carried);
            }
        }
    }
    unreachable!()
}
