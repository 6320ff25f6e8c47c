// What is looked up of columns between events, and of single events.
ghost use Rattle.std.specs.Prelude.{◌≡◌, ◌<◌, ◌≤◌, length, take, true, slice_get, Some};
ghost use Rattle.std.specs.Option.{option_copied};
ghost use Rattle.col_core.specs.declared.Event.TheVariants as events;
ghost use Rattle.col_core.specs.History.{line};
ghost use Rattle.column_track.specs.Tracks.{Tells, mark_after};
ghost use Rattle.walk_law.specs.Looks.{HadClock, IsClockWithin, IsInShape, IsOfShape, IsSyncedAt, event_by};
ghost use Rattle.walk_law.specs.Walking.{journal_walked};

use crate::subject::Subject;
use col_core::{Entry, Event};
use column_track::Mark;
use log_node::Counts;
use report_text::SyncPiece;

// Whether a sync is as it has to be, of a client that had seen so many events, knew so many nodes to stand and had played so far,
// where this held of the column.
pub(crate) fn is_synced_at(
    own: u8,
    seen: u128,
    known: u128,
    start: Counts,
    mark: Mark,
    sync: SyncPiece,
) -> bool
    requires { own < 4 }
    ensures { Tells result (IsSyncedAt own seen known start mark sync) }
{
    if sync.counts != mark.cut {
        return false;
    }
    seen <= sync.events as u128
        && known <= sync.counts.of_region(own) as u128
        && mark.base.is_within(start)
}

// The event that a client made at a place, where it gave no stamp.
pub(crate) fn event_by(journal: &[Entry], client: u8, place: u64) -> Option<&Event>
    ensures { option_copied result ≡ event_by client (slice_get journal.now place) }
{
    match journal.get(place as usize) {
        Some(entry) => {
            if entry.by == client && entry.stamp == 0 {
                Some(&entry.event)
            } else {
                None
            }
        }
        None => None,
    }
}

// Whether an event raises the clock to this stamp.
pub(crate) fn is_raise(event: Option<&Event>, stamp: u64) -> bool
    ensures { Tells result (option_copied event.entry ≡ Some (events.Raise stamp)) }
{
    match event {
        Some(Event::Raise { to }) => *to == stamp,
        _ => false,
    }
}

impl Subject<'_> {
    // Whether the column is one of the shape.
    pub(crate) fn is_in_shape(&self, region: u8, colour: u8) -> bool
        ensures { IsInShape self.now region colour result }
    {
        self.agrees();
        let shape = &self.script().shape;
        if region >= shape.regions {
            return false;
        }
        if colour >= shape.colours {
            return false;
        }
        true
    }

    // How many events a column has in all.
    pub(crate) fn event_count(&self, region: u8, colour: u8) -> u64
        ensures { result ≡ length (journal_walked self.now region colour) }
    {
        self.journal(region, colour).len() as u64
    }

    // What held of a column after so many events.
    pub(crate) fn mark(&self, region: u8, colour: u8, events: u64) -> Mark
        requires column { IsOfShape self.now region colour }
        requires events { events ≤ length (journal_walked self.now region colour) }
        ensures { result ≡ mark_after region self.now.script.shape.regions
            (take events (journal_walked self.now region colour)) }
    {
        self.track(region, colour).mark(events)
    }

    // How long a column's line was after so many events.
    pub(crate) fn line_length(&self, region: u8, colour: u8, events: u64) -> u64
        requires column { IsOfShape self.now region colour }
        requires events { events ≤ length (journal_walked self.now region colour) }
        ensures { result ≡ length (line (take events (journal_walked self.now region colour))) }
    {
        self.mark(region, colour, events).held.of_region(region)
    }

    // Whether a column's clock was the stamp after some number of events, from one to another.
    pub(crate) fn had_clock(&self, region: u8, colour: u8, from: u128, to: u64, stamp: u64) -> bool
        requires { IsOfShape self.now region colour }
        ensures { Tells result (HadClock (journal_walked self.now region colour) from to stamp) }
    {
        if from > to as u128 {
            return false;
        }
        let all = self.event_count(region, colour);
        let first = from.min(all as u128) as u64;
        self.track(region, colour)
            .was_clock(first, to.min(all), stamp)
    }

    // Whether a column has so many events, and its clock after them is within a stamp.
    pub(crate) fn is_clock_within(&self, region: u8, colour: u8, events: u128, stamp: u64) -> bool
        requires { IsOfShape self.now region colour }
        ensures { Tells result (IsClockWithin (journal_walked self.now region colour) events stamp) }
    {
        if events > self.event_count(region, colour) as u128 {
            return false;
        }
        self.mark(region, colour, events as u64).clock <= stamp
    }
}
