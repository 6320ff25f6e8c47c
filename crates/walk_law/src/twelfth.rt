// The twelfth rule: an append that may only stand next stands so, or was refused since something had come between.
ghost use Rattle.std.specs.Prelude.{◌≡◌, ◌<◌, List, IfOk, ℕ, length};
ghost use Rattle.std.specs.List.{All};
ghost use Rattle.log_node.specs.Vectors.{at};
ghost use Rattle.col_core.specs.Keeping.{Kept};
ghost use Rattle.report_text.specs.declared.report.PointPiece.{PointPiece as PointTold};
ghost use Rattle.script_text.specs.declared.commands.What.TheVariants as whats;
ghost use Rattle.lawful_run.specs.Callers.{caller_of};
ghost use Rattle.lawful_run.specs.Asks.{Guarding};
ghost use Rattle.lawful_run.specs.Deeds.{manner_of};
ghost use Rattle.column_track.specs.Tracks.{Tells};
ghost use Rattle.run_rules.specs.Telling.{replies_to};
ghost use Rattle.run_rules.specs.Deciding.{account_showing};
ghost use Rattle.run_rules.specs.Keeping.{RulesTo};
ghost use Rattle.run_rules.specs.Shown.{Rule12};
ghost use Rattle.walk_law.specs.Keepings.{IsCounted};
ghost use Rattle.walk_law.specs.Twelfth.{HasLowPoints, HasMoved, IsGuarded, IsLong, StandsFirst, WasFirst, open_in};
ghost use Rattle.walk_law.specs.Walking.{log_walked};

use crate::keeping::Keeping;
use crate::laws::twelfth_is_bare;
use crate::opens::Opens;
use crate::subject::Subject;
use crate::walking::{Check, each_step};
use col_core::own_line_within;
use log_node::At;
use report_text::{Answer, PointPiece};
use script_text::What;
use std::alloc::{AllocError, Global};

// Whether a command appends only where nothing has come between.
fn is_guarding(what: &What) -> bool
    ensures { Tells result (manner_of what.now ≡ Guarding) }
{
    matches!(what, What::Only { .. })
}

// Whether it appends so to this colour.
fn guards_in(what: &What, colour: u8) -> bool
    ensures { Tells result ((text : List ℕ) × (what.now ≡ whats.Only colour text)) }
{
    match what {
        What::Only { colour: other, .. } => *other == colour,
        _ => false,
    }
}

// Whether a client has played so many nodes of its region's line of a colour.
fn has_played(
    subject: &Subject<'_>,
    client: u8,
    keeping: &Keeping,
    colour: u8,
    position: u64,
) -> bool
    requires { client < length subject.now.report.clients }
    ensures { (kept : Kept) → IsCounted (replies_to subject.now.report client) kept keeping.now → Tells result
        (position ≡ at (kept.starts colour) (caller_of subject.now.script client).own) }
{
    subject.agrees();
    keeping.start(colour).of_region(subject.own(client)) == position
}

/// What is looked up of appends that may only stand next: how many entries of columns are open.
#[derive(Drop)]
pub(crate) struct Guards {
    opens: Opens,
}

impl Guards {
    // Whether after so many events, no fewer than a client has seen, its region's line had this length, and so many entries were open.
    fn is_so_long(
        &self,
        subject: &Subject<'_>,
        client: u8,
        keeping: &Keeping,
        colour: u8,
        events: u64,
        lined: u64,
        waiting: u64,
    ) -> bool
        requires { client < length subject.now.report.clients }
        ensures { (kept : Kept) → IsCounted (replies_to subject.now.report client) kept keeping.now
            → colour < subject.now.script.shape.colours → Tells result
            (IsLong (open_in subject.now.script.shape.colours self.now.opens.by_column.items) (log_walked subject.now)
            (caller_of subject.now.script client) kept colour events lined waiting) }
    {
        let colours = subject.script().shape.colours;
        if colour >= colours {
            return false;
        }
        subject.agrees();
        own_line_within();
        let own = subject.own(client);
        let seen = keeping.seen(own, colour);
        let all = subject.journal(own, colour).len() as u64;
        if seen > events as u128 {
            return false;
        }
        if events > all {
            return false;
        }
        let track = subject.track(own, colour);
        track.agrees();
        let cut = track.mark(events).cut;
        if cut.of_region(own) != lined {
            return false;
        }
        self.opens.number(colours, own, colour, events) == waiting
    }

    // Whether right before the event of a point no entry was open, and the line was as long as a client has played.
    fn was_first(
        &self,
        subject: &Subject<'_>,
        client: u8,
        keeping: &Keeping,
        point: PointPiece,
    ) -> bool
        requires { client < length subject.now.report.clients }
        ensures { (kept : Kept) → IsCounted (replies_to subject.now.report client) kept keeping.now
            → point.colour < subject.now.script.shape.colours → Tells result
            (WasFirst (open_in subject.now.script.shape.colours self.now.opens.by_column.items) (log_walked subject.now)
            (caller_of subject.now.script client) kept point) }
    {
        let At::Event(place) = point.at else {
            return false;
        };
        if !self.is_so_long(
            subject,
            client,
            keeping,
            point.colour,
            place,
            point.position,
            0,
        ) {
            return false;
        }
        has_played(subject, client, keeping, point.colour, point.position)
    }

    // Whether all points are so.
    fn were_first(
        &self,
        subject: &Subject<'_>,
        client: u8,
        keeping: &Keeping,
        points: &[PointPiece],
    ) -> bool
        requires { client < length subject.now.report.clients }
        ensures { (kept : Kept) → IsCounted (replies_to subject.now.report client) kept keeping.now
            → All (λ (p : PointTold). p.colour < subject.now.script.shape.colours) points.now → Tells result (All
            (WasFirst (open_in subject.now.script.shape.colours self.now.opens.by_column.items) (log_walked subject.now)
            (caller_of subject.now.script client) kept) points.now) }
    {
        for point in points {
            if !self.was_first(subject, client, keeping, *point) {
                return false;
            }
        }
        true
    }

    // Whether an append to a colour that may only stand next was refused since something had come between.
    fn has_moved(
        &self,
        subject: &Subject<'_>,
        client: u8,
        keeping: &Keeping,
        what: &What,
        lined: u64,
        waiting: u64,
        colour: u8,
        events: u64,
    ) -> bool
        requires { client < length subject.now.report.clients }
        ensures { (kept : Kept) → IsCounted (replies_to subject.now.report client) kept keeping.now
            → colour < subject.now.script.shape.colours → Tells result
            (HasMoved (open_in subject.now.script.shape.colours self.now.opens.by_column.items) (log_walked subject.now)
            (caller_of subject.now.script client) kept what.now lined waiting colour events) }
    {
        if !guards_in(what, colour) {
            return false;
        }
        if !self.is_so_long(subject, client, keeping, colour, events, lined, waiting) {
            return false;
        }
        waiting != 0 || !has_played(subject, client, keeping, colour, lined)
    }

    // Whether an append that may only stand next stands so, or was refused so.
    fn stands_first(
        &self,
        subject: &Subject<'_>,
        client: u8,
        keeping: &Keeping,
        what: &What,
        answer: &Answer,
    ) -> bool
        requires { client < length subject.now.report.clients }
        ensures { (kept : Kept) → IsCounted (replies_to subject.now.report client) kept keeping.now
            → HasLowPoints subject.now.script.shape.colours answer.now → Tells result
            (StandsFirst (open_in subject.now.script.shape.colours self.now.opens.by_column.items) (log_walked subject.now)
            (caller_of subject.now.script client) kept what.now answer.now) }
    {
        match answer {
            Answer::Stood { points, .. } => {
                if !is_guarding(what) {
                    return true;
                }
                self.were_first(subject, client, keeping, points.as_slice())
            }
            Answer::Moved {
                length,
                waiting,
                colour,
                events,
            } => self.has_moved(
                subject, client, keeping, what, *length, *waiting, *colour, *events,
            ),
            _ => true,
        }
    }
}

impl Check for Guards {
    // an append that may only stand next stands so, or was refused so, as open entries are looked up
    ghost Asks = { λ guards walked caller step. IsGuarded (open_in walked.script.shape.colours guards.opens.by_column.items) walked
        caller step };

    fn go_on(
        &self,
        alloc: Global,
        subject: &Subject<'_>,
        client: u8,
        place: usize,
        keeping: &mut Keeping,
    ) -> Result<bool, AllocError> {
        subject.agrees();
        let what = &subject.command(client, place).what;
        let answer = &subject.reply(client, place).answer;
        if !self.stands_first(subject, client, keeping, what, answer) {
            return Ok(false);
        }
        keeping.go_on(alloc, subject, client, place)?;
        Ok(true)
    }
}

/// Whether a report keeps the twelfth rule, where it keeps those before: an append that may only stand next stands where nothing
/// had come between, and is refused only where something had.
pub fn keeps_twelfth(alloc: Global, subject: &Subject<'_>) -> Result<bool, AllocError>
    requires { RulesTo subject.now.script subject.now.report (account_showing subject.now.script subject.now.report) 11 }
    ensures { IfOk result (λ b. Tells b (Rule12 subject.now.script subject.now.report
        (account_showing subject.now.script subject.now.report))) }
{
    twelfth_is_bare();
    subject.agrees();
    let opens = Opens::of_columns(alloc, subject.report().columns.as_slice(), subject.tracks())?;
    each_step(alloc, subject, &Guards { opens })
}
