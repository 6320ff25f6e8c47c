// How the open entries that stand in the way of a key are cleared.
ghost use Rattle.std.specs.Prelude.{◌≡◌, ◌<◌, ◌≤◌, ◌-◌, [], length};
ghost use Rattle.col_core.specs.Ids.{open_below};
ghost use Rattle.stamp_board.specs.Seats.{IsLater};
ghost use Rattle.chain_store.specs.Holds.{IsHold, entries_seen};
ghost use Rattle.chain_store.specs.Going.{GoesOn};
ghost use Rattle.append_core.specs.Helping.{HelpsOpen, IsUnderClock};

use crate::helping::help;
use chain_store::{Hold, Region};
use column::Below;
use log_node::Key;
use std::sync::Wait;

// Helps the append of the least open entry below the key, where there is one. Answers how many there were.
fn help_first<R: Wait>(rt: &R, region: &Region, hold: &mut Hold, colour: u8, key: Key) -> u64
    requires hold { IsHold region.now hold.old }
    requires colour { colour < region.now.board.size.colours }
    requires under { IsUnderClock key (entries_seen hold.old colour) }
    ensures hold { IsHold region.now hold.new }
    ensures seat { IsLater hold.old.seat hold.new.seat }
    ensures next { hold.new.next ≡ hold.old.next }
    ensures goes { GoesOn (λ c e. HelpsOpen hold.old hold.new e) hold.old hold.new }
    ensures count { result ≤ length (open_below key (entries_seen hold.old colour)) }
    ensures fewer { length (open_below key (entries_seen hold.new colour)) ≤ result - 1 }
{
    let Below {
        events: _,
        count,
        first,
    } = region.below(rt, hold, colour, key);
    match first {
        Some(begun) => {
            help(rt, region, hold, &begun);
            count
        }
        None => 0,
    }
}

/// Helps the open entries of the colour's column that have a key below, the least first, until there is none. No later
/// one may come below the key, so there are no more helps than there are such entries at the first look.
pub fn clear<R: Wait>(rt: &R, region: &Region, hold: &mut Hold, colour: u8, key: Key)
    requires hold { IsHold region.now hold.old }
    requires colour { colour < region.now.board.size.colours }
    requires under { IsUnderClock key (entries_seen hold.old colour) }
    ensures hold { IsHold region.now hold.new }
    ensures seat { IsLater hold.old.seat hold.new.seat }
    ensures next { hold.new.next ≡ hold.old.next }
    ensures goes { GoesOn (λ c e. HelpsOpen hold.old hold.new e) hold.old hold.new }
    ensures none { open_below key (entries_seen hold.new colour) ≡ [] }
{
    let count = help_first(rt, region, hold, colour, key);
    for turn in 1..count {
        let _turn = turn;
        let found = help_first(rt, region, hold, colour, key);
        if found <= 1 {
            return;
        }
    }
}
