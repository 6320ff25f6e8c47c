// What a client keeps goes on from reply to reply.
ghost use Rattle.std.specs.Prelude.{◌≡◌, ◌+◌, ◌<◌, ◌≤◌, ◌^◌, List, OnOk, Some, None};
ghost use Rattle.log_node.specs.declared.forms.Version.{Version};
ghost use Rattle.col_core.specs.Keeping.{Kept, kept_after_event, kept_after_point, kept_after_single, seen_after};
ghost use Rattle.report_text.specs.declared.report.ReplyLine.{ReplyLine};
ghost use Rattle.lawful_run.specs.Appends.{kept_after_points};
ghost use Rattle.lawful_run.specs.Moves.{with_places};
ghost use Rattle.script_text.specs.Commands.{use_of};
ghost use Rattle.lawful_run.specs.Callers.{Caller};
ghost use Rattle.lawful_run.specs.Reads.{events_until, kept_after_place};
ghost use Rattle.lawful_run.specs.Refusals.{kept_before, kept_behind};
ghost use Rattle.run_rules.specs.Told.{Untold, kept_after_end, kept_trimmed, with_found};
ghost use Rattle.walk_law.specs.Keepings.{IsCounted, IsFoundAt, KeepsCount, kept_raised};

use crate::keeping::Keeping;
use crate::made::seen_past;
use log_node::{At, MAX_COLOURS, MAX_REGIONS};
use report_text::{Ended, PointPiece, RaisePiece};
use script_text::{ReadUse, Use, What};
use std::alloc::AllocError;

/// The events before a place, and those of a look.
pub(crate) fn events_until(at: At) -> u64
    ensures { result ≡ events_until at }
{
    match at {
        At::Event(place) => place,
        At::Look(events) => events,
    }
}

// How many events are seen where a reply names this place.
fn seen_after(at: At) -> u128
    ensures { result ≡ seen_after at }
{
    match at {
        At::Event(place) => place as u128 + 1,
        At::Look(events) => events as u128,
    }
}

impl Keeping {
    /// A command begins: a read lets an earlier one of its object go.
    pub fn begin(&mut self, what: &What)
        ensures kept { (replies : List ReplyLine) (kept : Kept) → IsCounted replies kept self.old
            → IsCounted replies (kept_before what.now kept) self.new }
        ensures count { KeepsCount self.old self.new }
    {
        if let Use::OfObject {
            object,
            read: ReadUse::Takes,
        } = what.use_of()
        {
            self.keep_read(object, None);
        }
    }

    // A command ends: a commit has used its read up.
    pub fn end(&mut self, what: &What)
        ensures kept { (replies : List ReplyLine) (kept : Kept) → IsCounted replies kept self.old
            → IsCounted replies (kept_behind what.now kept) self.new }
        ensures count { KeepsCount self.old self.new }
    {
        if let Use::OfObject {
            object,
            read: ReadUse::UsesUp,
        } = what.use_of()
        {
            self.keep_read(object, None);
        }
    }

    // A read of an object that a commit may use up is kept, whose reply is in this place.
    pub(crate) fn found(&mut self, what: &What, place: usize)
        ensures kept { (replies : List ReplyLine) (kept : Kept) (found : List Version) → IsFoundAt replies (Some found) (Some place)
            → IsCounted replies kept self.old → IsCounted replies (with_found (use_of what.now) found kept) self.new }
        ensures count { KeepsCount self.old self.new }
    {
        if let Use::OfObject {
            object,
            read: ReadUse::Takes,
        } = what.use_of()
        {
            self.keep_read(object, Some(place));
        }
    }

    // Behind an event of its own.
    pub(crate) fn event(&mut self, region: u8, colour: u8, place: u64) -> Result<(), AllocError>
        ensures kept { (replies : List ReplyLine) (kept : Kept) → IsCounted replies kept self.old
            → OnOk result (IsCounted replies (kept_after_event kept region colour place) self.new) }
        ensures count { OnOk result (KeepsCount self.old self.new) }
    {
        self.make(region, colour, &[place])?;
        self.see(region, colour, place as u128 + 1);
        Ok(())
    }

    // Behind an event or a look that a reply names.
    pub(crate) fn place_at(&mut self, region: u8, colour: u8, at: At) -> Result<(), AllocError>
        ensures kept { (replies : List ReplyLine) (kept : Kept) → IsCounted replies kept self.old
            → OnOk result (IsCounted replies (kept_after_place kept region colour at) self.new) }
        ensures count { OnOk result (KeepsCount self.old self.new) }
    {
        match at {
            At::Event(place) => self.event(region, colour, place),
            At::Look(events) => {
                self.see(region, colour, events as u128);
                Ok(())
            }
        }
    }

    // Behind events of its own at these places of a column.
    pub(crate) fn places(
        &mut self,
        region: u8,
        colour: u8,
        places: &[u64],
    ) -> Result<(), AllocError>
        ensures kept { (replies : List ReplyLine) (kept : Kept) → IsCounted replies kept self.old
            → OnOk result (IsCounted replies (with_places kept region colour places.now) self.new) }
        ensures count { OnOk result (KeepsCount self.old self.new) }
    {
        if region >= MAX_REGIONS || colour >= MAX_COLOURS {
            return Ok(());
        }
        self.make(region, colour, places)?;
        self.see(region, colour, seen_past(self.seen(region, colour), places));
        Ok(())
    }

    // Behind an append to one colour.
    pub(crate) fn single(
        &mut self,
        own: u8,
        colour: u8,
        place: u64,
        stamp: u64,
        position: u64,
    ) -> Result<(), AllocError>
        requires { self.old.ids + 1 < 2 ^ 64 }
        ensures kept { (replies : List ReplyLine) (kept : Kept) → IsCounted replies kept self.old
            → OnOk result (IsCounted replies (kept_after_single kept own colour place stamp position) self.new) }
        ensures ids { OnOk result (self.new.ids ≡ self.old.ids + 1) }
        ensures rows { OnOk result (self.new.rows ≡ self.old.rows) }
    {
        self.event(own, colour, place)?;
        self.raise_floor(stamp);
        self.know(colour, position as u128 + 1);
        self.use_id();
        Ok(())
    }

    // Behind a point of an append to several colours.
    pub(crate) fn point(&mut self, own: u8, point: PointPiece)
        ensures kept { (replies : List ReplyLine) (kept : Kept) → IsCounted replies kept self.old
            → IsCounted replies (kept_after_point kept own point.colour point.at point.position) self.new }
        ensures count { KeepsCount self.old self.new }
    {
        self.see(own, point.colour, seen_after(point.at));
        self.know(point.colour, point.position as u128 + 1);
    }

    // Behind the points of an append to several colours.
    pub(crate) fn points(&mut self, own: u8, points: &[PointPiece])
        ensures kept { (replies : List ReplyLine) (kept : Kept) → IsCounted replies kept self.old
            → IsCounted replies (kept_after_points kept own points.now) self.new }
        ensures count { KeepsCount self.old self.new }
    {
        for point in points {
            self.point(own, *point);
        }
    }

    // Behind the raises of a stamped read.
    pub(crate) fn raises(&mut self, own: u8, raises: &[RaisePiece]) -> Result<(), AllocError>
        ensures kept { (replies : List ReplyLine) (kept : Kept) → IsCounted replies kept self.old
            → OnOk result (IsCounted replies (kept_raised own kept raises.now) self.new) }
        ensures count { OnOk result (KeepsCount self.old self.new) }
    {
        for raise in raises {
            self.place_at(own, raise.colour, raise.at)?;
        }
        Ok(())
    }

    // Behind the append of a decision's node.
    pub(crate) fn ended(&mut self, client: u8, own: u8, ended: Ended) -> Result<(), AllocError>
        requires ids { self.old.ids + 1 < 2 ^ 64 }
        ensures kept { (replies : List ReplyLine) (caller : Caller) (kept : Kept) (untold : Untold) → caller.own ≡ own
            → IsCounted replies kept self.old
            → OnOk result (IsCounted replies (kept_after_end untold caller kept ended) self.new) }
        ensures ids { OnOk result (self.new.ids ≤ self.old.ids + 1) }
        ensures rows { OnOk result (self.new.rows ≤ self.old.rows + 1) }
    {
        match ended {
            Ended::Stood { stamp, point } => self.single(
                own,
                point.colour,
                events_until(point.at),
                stamp,
                point.position,
            ),
            Ended::StampEnd { .. } => Ok(()),
            Ended::NoMemory => Ok(()),
        }
    }

    // Behind a trim.
    pub(crate) fn trimmed(&mut self, own: u8, what: &What, at: At) -> Result<(), AllocError>
        ensures kept { (replies : List ReplyLine) (caller : Caller) (kept : Kept) → caller.own ≡ own → IsCounted replies kept self.old
            → OnOk result (IsCounted replies (kept_trimmed caller kept what.now at) self.new) }
        ensures count { OnOk result (KeepsCount self.old self.new) }
    {
        match what {
            What::Trim { colour } => self.event(own, *colour, events_until(at)),
            _ => Ok(()),
        }
    }
}
