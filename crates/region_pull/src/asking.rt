// Giving from what another region holds.
ghost use Rattle.std.specs.Prelude.{◌≡◌, ◌≢◌, IfOk, OnErr};
ghost use Rattle.chain_store.specs.Holds.{IsHold, SeesMoreIn};
ghost use Rattle.chain_store.specs.Going.{GoesOnIn};
ghost use Rattle.region_pull.specs.Stores.{AreOfOneStore};
ghost use Rattle.region_pull.specs.Pulls.{GivesAlone};
ghost use Rattle.region_pull.specs.Inside.{HasAsked};

use chain_store::{Hold, Region};
use log_node::At;
use std::alloc::AllocError;
use std::sync::Wait;

// Looks how much of `from`'s line `to` holds, gives from there, and answers the place of the give and the line's length.
pub(crate) fn ask<R: Wait>(
    rt: &R,
    from: &Region,
    to: &Region,
    from_hold: &mut Hold,
    to_hold: &mut Hold,
    colour: u8,
) -> Result<(At, u64), AllocError>
    requires from_hold { IsHold from.now from_hold.old }
    requires to_hold { IsHold to.now to_hold.old }
    requires store { AreOfOneStore from.now to.now colour }
    requires apart { from.now.number ≢ to.now.number }
    ensures from_hold { GoesOnIn from.now colour from_hold.old from_hold.new }
    ensures to_hold { GoesOnIn to.now colour to_hold.old to_hold.new }
    ensures looks { SeesMoreIn colour to_hold.old to_hold.new }
    ensures ok { IfOk result (λ r.
        HasAsked from.now to.now colour from_hold.old from_hold.new to_hold.old to_hold.new r.0 r.1) }
    ensures err { OnErr result (GivesAlone from.now to.now colour from_hold.old from_hold.new to_hold.old to_hold.new) }
{
    let (_, held) = to.held(rt, to_hold, colour);
    let asked = held.0[from.number() as usize];
    from.give(rt, from_hold, colour, to.number(), asked)
}
