// Where final nodes stand in the lines of their colours.
ghost use Rattle.std.specs.Prelude.{◌≡◌, ◌<◌, Some, slice_get, IfSome};
ghost use Rattle.col_core.specs.History.{line};
ghost use Rattle.col_core.specs.Ids.{IsFinal};
ghost use Rattle.stamp_board.specs.Seats.{IsLater};
ghost use Rattle.chain_store.specs.Holds.{IsHold, entries_seen};
ghost use Rattle.chain_store.specs.Going.{GoesOn};
ghost use Rattle.append_core.specs.Helping.{HelpsOpen};

use crate::clearing::clear;
use chain_store::{Hold, Region};
use log_node::Key;
use std::sync::Wait;

// The position of a final key in the line, once all open entries below it were helped.
fn cleared_position<R: Wait>(rt: &R, region: &Region, hold: &mut Hold, colour: u8, key: Key) -> u64
    requires hold { IsHold region.now hold.old }
    requires colour { colour < region.now.board.size.colours }
    requires stamped { IsFinal (entries_seen hold.old colour) key.id key.stamp }
    ensures hold { IsHold region.now hold.new }
    ensures seat { IsLater hold.old.seat hold.new.seat }
    ensures next { hold.new.next ≡ hold.old.next }
    ensures goes { GoesOn (λ c e. HelpsOpen hold.old hold.new e) hold.old hold.new }
    ensures stands { slice_get (line (entries_seen hold.new colour)) result ≡ Some key }
{
    clear(rt, region, hold, colour, key);
    let (_, position) = region.place(rt, hold, colour, key);
    match position {
        Some(position) => position,
        None => unreachable!(),
    }
}

// The position of a final key in the line: the known one, or that after help.
pub(crate) fn line_position<R: Wait>(
    rt: &R,
    region: &Region,
    hold: &mut Hold,
    colour: u8,
    key: Key,
    known: Option<u64>,
) -> u64
    requires hold { IsHold region.now hold.old }
    requires colour { colour < region.now.board.size.colours }
    requires stamped { IsFinal (entries_seen hold.old colour) key.id key.stamp }
    requires known { IfSome known (λ p. slice_get (line (entries_seen hold.old colour)) p ≡ Some key) }
    ensures hold { IsHold region.now hold.new }
    ensures seat { IsLater hold.old.seat hold.new.seat }
    ensures next { hold.new.next ≡ hold.old.next }
    ensures goes { GoesOn (λ c e. HelpsOpen hold.old hold.new e) hold.old hold.new }
    ensures stands { slice_get (line (entries_seen hold.new colour)) result ≡ Some key }
{
    match known {
        Some(position) => position,
        None => cleared_position(rt, region, hold, colour, key),
    }
}
