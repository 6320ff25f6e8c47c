// A column's journal that was done again, and what can be looked up in it.
ghost use Rattle.std.specs.Prelude.{◌≡◌, ◌≤◌, ◌<◌, Some, length, take, slice_get};
ghost use Rattle.std.specs.Option.{option_map};
ghost use Rattle.log_node.specs.Standings.{queue_of};
ghost use Rattle.col_core.specs.History.{entries, line};
ghost use Rattle.col_core.specs.RegionOrder.{IsClearUpTo};
ghost use Rattle.col_core.specs.Computed.{dated};
ghost use Rattle.col_core.specs.Legal.{IsColumnHistory};
ghost use Rattle.column_track.specs.Tracks.{Tells, mark_after, WasClock, EntersAt};
ghost use Rattle.column_track.specs.Doing.{ClocksDoNotFall, HasClock};

use crate::marks::Mark;
use crate::places::Places;
use column::Column;
use log_node::{Id, Key};
use std::marker::Model;

/// A column's journal that was done again, with what held after each number of its events. Contracts see the region, how
/// many regions there are, and the journal.
#[derive(Drop)]
pub struct Track {
    pub(crate) column: Column,
    pub(crate) marks: Vec<Mark>,
    pub(crate) places: Places,
}

impl Model for Track {
    ghost use Rattle.column_track.specs.Tracks.{Tracked};

    ghost Value = { Tracked };

    ghost use Rattle.column_track.specs.Doing.{IsTrack, tracked};

    ghost view = { λ a. tracked a.column };

    ghost invariant = { λ a. IsTrack a.column a.marks.items a.places };
}

// The mark at a place.
fn mark_in(marks: &[Mark], at: usize) -> Mark
    requires { at < length marks.now }
    ensures { slice_get marks.now at ≡ Some result }
{
    marks[at]
}

// Whether a mark from one place to another has this clock, where clocks do not fall.
fn clock_among(marks: &[Mark], from: usize, to: usize, stamp: u64) -> bool
    requires rises { ClocksDoNotFall marks.now }
    requires within { to < length marks.now }
    ensures { Tells result (HasClock marks.now from to stamp) }
{
    let place = from.max(marks.partition_point(|mark| mark.clock < stamp));
    place <= to && marks[place].clock == stamp
}

impl Track {
    /// What held after so many events.
    pub fn mark(&self, events: u64) -> Mark
        requires { events ≤ length self.now.journal }
        ensures { result ≡ mark_after self.now.region self.now.regions (take events self.now.journal) }
    {
        mark_in(&self.marks, events as usize)
    }

    /// Whether the clock was the stamp after some number of events, from one number to another.
    pub fn was_clock(&self, from: u64, to: u64, stamp: u64) -> bool
        requires { to ≤ length self.now.journal }
        ensures { Tells result (WasClock self.now.journal from to stamp) }
    {
        clock_among(&self.marks, from as usize, to as usize, stamp)
    }

    /// The place of the event by which an id enters, if one does.
    pub fn place(&self, id: Id) -> Option<u64>
        ensures { EntersAt self.now.journal id result }
    {
        self.places.of(id)
    }

    /// Whether after so many events no open entry has a stamp up to this one.
    pub fn is_clear(&self, events: u64, stamp: u64) -> bool
        requires { events ≤ length self.now.journal }
        ensures { Tells result (IsClearUpTo stamp (take events self.now.journal)) }
    {
        self.column.agrees();
        match self.mark(events).least_open {
            Some(least) => stamp < least,
            None => true,
        }
    }

    /// The keys of the line after all events.
    pub fn line(&self) -> &[Key]
        ensures { result.now ≡ line self.now.journal }
    {
        self.column.line()
    }

    /// After all events the key at that place among the entries that are not in the line, in rising key, counted from 0,
    /// and whether it is settled. `None` exactly where there are no more than `at`.
    pub fn waiting(&self, at: u64) -> Option<(Key, bool)>
        ensures { result ≡ option_map (λ e. (e.key, e.settled)) (slice_get (queue_of (entries self.now.journal)) at) }
    {
        self.column.waiting(at)
    }

    /// Says that the journal is a lawful history.
    pub fn agrees(&self)
        ensures { IsColumnHistory self.now.region self.now.regions (dated self.now.region self.now.journal) }
    {
        self.column.agrees();
    }
}
