// Appends to one colour that may only stand next.
ghost use Rattle.std.specs.Prelude.{◌≡◌, ◌⊎◌, ◌<◌, ◌≤◌, ◌+◌, None, IfErr, IfOk, OnOk, OnErr};
ghost use Rattle.chain_store.specs.Histories.{FitsColumn};
ghost use Rattle.chain_store.specs.Guarded.{HasNextCause};
ghost use Rattle.chain_store.specs.Holds.{IsHold, SameBut, SeesMoreIn, entries_seen};
ghost use Rattle.append_core.specs.Standing.{HoldAppendsNext};

use crate::stood::{Point, Stood};
use chain_store::{Hold, Region};
use column::OnlyFault;
use log_node::{Key, Node};
use std::alloc::Global;
use std::sync::{Arc, Wait};

/// The node enters the colour's column as final under the next stamp, exactly where no entry is open there and the own line
/// has as many nodes as it wants of it, which is then its position. Nothing is helped. The memory of the answer is taken
/// before the turn.
pub fn only<R: Wait>(
    rt: &R,
    alloc: Global,
    region: &Region,
    hold: &mut Hold,
    colour: u8,
    node: &Arc<Node>,
) -> Result<Stood, OnlyFault>
    requires hold { IsHold region.now hold.old }
    requires colour { colour < region.now.board.size.colours }
    requires id { (node.now.value.id.client ≡ hold.old.passes.number) × (hold.old.next ≤ node.now.value.id.count) }
    requires row { node.now.value.row ≡ None }
    requires node { FitsColumn region.now.number colour node.now.value }
    ensures hold { IsHold region.now hold.new }
    ensures others { SameBut colour hold.old hold.new }
    ensures seat { hold.new.seat ≡ hold.old.seat }
    ensures next { OnOk result (hold.new.next ≡ node.now.value.id.count + 1) }
    ensures ok { IfOk result (HoldAppendsNext region.now.number hold.old hold.new node.now.value colour) }
    // Memory for the answer was refused before the turn, or it is what the turn showed.
    ensures cause { IfErr result (λ fault. ((fault ≡ OnlyFault.NoMemory) × (hold.new ≡ hold.old))
        ⊎ HasNextCause region.now.number colour (entries_seen hold.new colour) node.now.value fault) }
    ensures err { OnErr result (SeesMoreIn colour hold.old hold.new × (hold.new.next ≡ hold.old.next)) }
{
    let Ok(mut points) = Vec::with_capacity(alloc, 1) else {
        return Err(OnlyFault::NoMemory);
    };
    let entered = region.only(rt, hold, colour, node)?;
    let position = match entered.position {
        Some(position) => position,
        None => unreachable!(),
    };
    points.push_reserved(Point {
        colour,
        at: entered.at,
        position,
    });
    let key = Key {
        stamp: entered.stamp,
        id: node.id,
    };
    Ok(Stood {
        key,
        points: points.into(),
    })
}
