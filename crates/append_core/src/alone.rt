// Appends to one colour.
ghost use Rattle.std.specs.Prelude.{◌≡◌, ◌<◌, ◌≤◌, ◌+◌, None, IfErr, IfOk, OnOk, OnErr};
ghost use Rattle.stamp_board.specs.Seats.{IsLater};
ghost use Rattle.chain_store.specs.Histories.{FitsColumn};
ghost use Rattle.chain_store.specs.Steps.{HasSingleCause};
ghost use Rattle.chain_store.specs.Holds.{IsHold, SameBut, SeesMoreIn, entries_seen};
ghost use Rattle.append_core.specs.Standing.{HoldAppendsOne};

use crate::stands::line_position;
use crate::stood::{Point, Stood};
use chain_store::{Hold, Region};
use column::ColumnFault;
use log_node::{Key, Node};
use std::alloc::Global;
use std::sync::{Arc, Wait};

/// The node enters the colour's column as final under the next stamp. Open entries before it are helped, so that it stands
/// in the line. The memory of the answer is taken before the turn.
pub fn single<R: Wait>(
    rt: &R,
    alloc: Global,
    region: &Region,
    hold: &mut Hold,
    colour: u8,
    node: &Arc<Node>,
) -> Result<Stood, ColumnFault>
    requires hold { IsHold region.now hold.old }
    requires colour { colour < region.now.board.size.colours }
    requires id { (node.now.value.id.client ≡ hold.old.passes.number) × (hold.old.next ≤ node.now.value.id.count) }
    requires row { node.now.value.row ≡ None }
    requires node { FitsColumn region.now.number colour node.now.value }
    ensures hold { IsHold region.now hold.new }
    ensures seat { IsLater hold.old.seat hold.new.seat }
    ensures next { OnOk result (hold.new.next ≡ node.now.value.id.count + 1) }
    ensures ok { IfOk result (HoldAppendsOne hold.old hold.new node.now.value colour) }
    ensures cause { IfErr result (HasSingleCause (entries_seen hold.new colour) node.now.value.floor) }
    ensures err { OnErr result (SeesMoreIn colour hold.old hold.new × (hold.new.next ≡ hold.old.next)) }
    ensures others { OnErr result (SameBut colour hold.old hold.new × (hold.new.seat ≡ hold.old.seat)) }
{
    let Ok(mut points) = Vec::with_capacity(alloc, 1) else {
        return Err(ColumnFault::NoMemory);
    };
    let entered = region.single(rt, hold, colour, node)?;
    let key = Key {
        stamp: entered.stamp,
        id: node.id,
    };
    let position = line_position(rt, region, hold, colour, key, entered.position);
    points.push_reserved(Point {
        colour,
        at: entered.at,
        position,
    });
    Ok(Stood {
        key,
        points: points.into(),
    })
}
