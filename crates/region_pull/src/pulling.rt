// A pull, from the look at what is held to the carry.
ghost use Rattle.std.specs.Prelude.{◌≡◌, ◌↔◌, Err, IfOk, IfErr};
ghost use Rattle.chain_store.specs.Holds.{IsHold};
ghost use Rattle.chain_store.specs.Going.{GoesOnIn};
ghost use Rattle.region_pull.specs.Stores.{AreOfOneStore};
ghost use Rattle.region_pull.specs.Origins.{AsksForHeld};
ghost use Rattle.region_pull.specs.Pulls.{PullsByHolds, CarriesNothing};

use crate::asking::ask;
use crate::bringing::bring;
use crate::pulled::{PullFault, Pulled};
use chain_store::{Hold, Region};
use std::sync::Wait;

/// Brings what is new of `from`'s line of the colour into `to`'s column of it. It looks how much of the line `to` holds,
/// gives from there in `from`, and then sends and receives nodes in turns until all are there that stood in the line at the
/// give; these it carries. Nodes that another client's pull sent or received count as well. Each step waits for one turn.
pub fn pull<R: Wait>(
    rt: &R,
    from: &Region,
    to: &Region,
    from_hold: &mut Hold,
    to_hold: &mut Hold,
    colour: u8,
) -> Result<Pulled, PullFault>
    requires from_hold { IsHold from.now from_hold.old }
    requires to_hold { IsHold to.now to_hold.old }
    requires store { AreOfOneStore from.now to.now colour }
    ensures from_hold { GoesOnIn from.now colour from_hold.old from_hold.new }
    ensures to_hold { GoesOnIn to.now colour to_hold.old to_hold.new }
    ensures ok { IfOk result (PullsByHolds from.now to.now colour from_hold.old from_hold.new to_hold.old to_hold.new) }
    ensures same_region { (result ≡ Err PullFault.SameRegion) ↔ (from.now.number ≡ to.now.number) }
    ensures err { IfErr result (CarriesNothing from.now to.now colour from_hold.old from_hold.new to_hold.old to_hold.new) }

    // What it asks for is held, as before.
    ensures held { AsksForHeld from.now to.now colour from_hold.old to_hold.old
        → AsksForHeld from.now to.now colour from_hold.new to_hold.new }
{
    if from.number() == to.number() {
        return Err(PullFault::SameRegion);
    }
    match ask(rt, from, to, from_hold, to_hold, colour) {
        Ok((give, lined)) => match bring(rt, from, to, from_hold, to_hold, colour, lined) {
            Ok((carry, nodes)) => Ok(Pulled { nodes, give, carry }),
            Err(_) => Err(PullFault::NoMemory),
        },
        Err(_) => Err(PullFault::NoMemory),
    }
}
