// The eleventh rule: each refusal has its cause.
ghost use Rattle.std.specs.Prelude.{◌≡◌, ◌∷◌, [], ◌<◌, ◌≢◌, ℕ, List, None, Some, IfOk, IsTrue, length};
ghost use Rattle.std.specs.List.{All};
ghost use Rattle.log_node.specs.declared.ids.Id.{Id as NodeId};
ghost use Rattle.log_node.specs.declared.marks.Why.TheVariants as whys;
ghost use Rattle.log_node.specs.declared.marks.Outcome.TheVariants as outcomes;
ghost use Rattle.log_node.specs.Outcomes.{is_stamp_end_fence};
ghost use Rattle.col_core.specs.Keeping.{Kept};
ghost use Rattle.script_text.specs.declared.commands.What.TheVariants as whats;
ghost use Rattle.report_text.specs.declared.report.ReplyLine.{ReplyLine};
ghost use Rattle.lawful_run.specs.Callers.{caller_of};
ghost use Rattle.lawful_run.specs.Appends.{HadNoStamp};
ghost use Rattle.lawful_run.specs.Asks.{home_asked, tells_stamp_end};
ghost use Rattle.lawful_run.specs.Deeds.{manner_of};
ghost use Rattle.lawful_run.specs.Explains.{IsNoStopAtOnce};
ghost use Rattle.lawful_run.specs.Reads.{IsTrimmed};
ghost use Rattle.lawful_run.specs.Refusals.{IsAway, IsHomeRefusal};
ghost use Rattle.column_track.specs.Tracks.{Tells};
ghost use Rattle.run_rules.specs.Told.{colours_asked, is_several};
ghost use Rattle.run_rules.specs.Telling.{replies_to};
ghost use Rattle.run_rules.specs.Deciding.{account_showing};
ghost use Rattle.run_rules.specs.Keeping.{RulesTo};
ghost use Rattle.run_rules.specs.Shown.{Rule11, begins_row};
ghost use Rattle.walk_law.specs.Eleventh.{AreOpenIds, HasEnd, HasEndedRow, HasItsCause, HasLateEnd, HasLowColour, HasLowEnd, HasNoTx, IsCaused, IsEndMark, IsEndedRow, is_left, looks_in};
ghost use Rattle.walk_law.specs.Fifth.{next_id};
ghost use Rattle.walk_law.specs.Keepings.{IsCounted};
ghost use Rattle.walk_law.specs.RowPlaces.{AreRowPlaces};
ghost use Rattle.walk_law.specs.Walking.{log_walked};

use crate::bases::was_base;
use crate::can_have::home_of;
use crate::keeping::Keeping;
use crate::laws::eleventh_is_causes;
use crate::left_open::open_ids;
use crate::object_colours::kind_asked;
use crate::row_places::RowPlaces;
use crate::row_table::RowTable;
use crate::rows::is_at_end;
use crate::subject::Subject;
use crate::walking::{Check, each_step};
use log_node::{ColourMark, Counts, Id, Mark, Outcome, Why};
use report_text::{Answer, ColumnReport, Ended, Report, RowReport};
use script_text::What;
use std::alloc::{AllocError, Global};

/// What the causes of refusals are looked up in: the places of rows, and by region the ids that its columns leave open.
#[derive(Drop)]
pub(crate) struct Causes {
    places: RowPlaces,
    open: Vec<RowTable>,
}

// ONE COLUMN

// Whether a column had no stamp left for a client's floor, after some number of events from what it has seen.
fn had_no_stamp(subject: &Subject<'_>, client: u8, keeping: &Keeping, colour: u8) -> bool
    requires { client < length subject.now.report.clients }
    ensures { (kept : Kept) → IsCounted (replies_to subject.now.report client) kept keeping.now
        → colour < subject.now.script.shape.colours
        → Tells result (HadNoStamp (log_walked subject.now) (caller_of subject.now.script client) kept colour) }
{
    if colour >= subject.script().shape.colours {
        return false;
    }
    subject.agrees();
    let own = subject.own(client);
    let journal = subject.journal(own, colour);
    let track = subject.track(own, colour);
    track.agrees();
    keeping.seen(own, colour) <= journal.len() as u128 && is_at_end(journal, track, keeping.floor())
}

// Whether a column's base was this one, after some number of events from what a client has seen, and is not within its start.
fn is_trimmed(
    subject: &Subject<'_>,
    client: u8,
    keeping: &Keeping,
    colour: u8,
    base: Counts,
) -> bool
    requires { client < length subject.now.report.clients }
    ensures { (kept : Kept) → IsCounted (replies_to subject.now.report client) kept keeping.now
        → colour < subject.now.script.shape.colours
        → Tells result (IsTrimmed (log_walked subject.now) (caller_of subject.now.script client) kept colour base) }
{
    if colour >= subject.script().shape.colours {
        return false;
    }
    subject.agrees();
    let own = subject.own(client);
    let events = subject.journal(own, colour).len();
    let seen = keeping.seen(own, colour);
    if seen > events as u128 || base.is_within(keeping.start(colour)) {
        return false;
    }
    was_base(subject.track(own, colour), seen as u64, events as u64, base)
}

// ROWS

// Whether a mark is a fence for the stamps' end.
fn is_end(mark: Mark) -> bool
    ensures { result ≡ is_stamp_end_fence mark }
{
    match mark {
        Mark::None | Mark::Number(_) => false,
        Mark::Fenced(why) => match why {
            Why::Memory => false,
            Why::StampEnd => true,
        },
    }
}

// Whether a mark is such a fence exactly if it is of this colour; later colours may be either.
fn is_end_mark(mark: ColourMark, colour: u8) -> bool
    ensures { Tells result (IsEndMark colour mark) }
{
    mark.colour > colour || is_end(mark.mark) == (mark.colour == colour)
}

// Whether all marks are so.
fn are_end_marks(marks: &[ColourMark], colour: u8) -> bool
    ensures { Tells result (All (IsEndMark colour) marks.now) }
{
    for mark in marks {
        if !is_end_mark(*mark, colour) {
            return false;
        }
    }
    true
}

// Whether a row is gone for the stamps' end.
fn is_gone_at_end(outcome: Outcome) -> bool
    ensures { Tells result (outcome ≡ outcomes.Gone whys.StampEnd) }
{
    match outcome {
        Outcome::Open | Outcome::Final(_) => false,
        Outcome::Gone(why) => match why {
            Why::Memory => false,
            Why::StampEnd => true,
        },
    }
}

impl Causes {
    // Whether a region's columns leave an id open.
    fn is_left(&self, region: u8, id: Id) -> bool
        ensures { result ≡ is_left self.now region id }
    {
        match self.open.get(region as usize) {
            Some(ids) => ids.has(id),
            None => false,
        }
    }

    // Whether a row is gone, since this colour had no stamp left, which is the least such one, and its id is left open nowhere.
    fn is_ended_row(&self, row: &RowReport, colour: u8) -> bool
        ensures { Tells result (IsEndedRow (is_left self.now) colour row.now) }
    {
        if !is_gone_at_end(row.last) {
            return false;
        }
        if self.is_left(row.region, row.id) {
            return false;
        }
        are_end_marks(row.marks.as_slice(), colour)
    }

    // Whether the row of the client's next node is there, and so.
    fn has_ended_row(
        &self,
        subject: &Subject<'_>,
        client: u8,
        keeping: &Keeping,
        colour: u8,
    ) -> bool
        requires { client < length subject.now.report.clients }
        ensures { (kept : Kept) → IsCounted (replies_to subject.now.report client) kept keeping.now → Tells result
            (HasEndedRow (is_left self.now) colour ((looks_in self.now subject.now.report.rows).row
            (caller_of subject.now.script client).own (next_id (caller_of subject.now.script client) kept))) }
    {
        let rows = subject.report().rows.as_slice();
        match self
            .places
            .row(rows, subject.own(client), keeping.next_id(client))
        {
            Some(row) => self.is_ended_row(row, colour),
            None => false,
        }
    }
}

// COMMANDS

// Whether a command is answered by a colour alone where no stamp was left there for its node.
fn tells_end(what: &What) -> bool
    ensures { result ≡ tells_stamp_end (manner_of what.now) }
{
    match what {
        What::Append { .. }
        | What::Put { .. }
        | What::Del { .. }
        | What::PutAll { .. }
        | What::Commit { .. }
        | What::Enq { .. }
        | What::Deq { .. }
        | What::Only { .. }
        | What::Mk { .. }
        | What::Rm { .. }
        | What::Mv { .. } => true,
        What::Stop { .. }
        | What::Sync { .. }
        | What::Scan { .. }
        | What::Pull { .. }
        | What::Trim { .. }
        | What::Get { .. }
        | What::GetAll { .. }
        | What::Read { .. }
        | What::Ls { .. }
        | What::Peek { .. }
        | What::Decide { .. } => false,
    }
}

// Whether a command is no stop before the first step.
fn is_no_stop_at_once(what: &What) -> bool
    ensures { Tells result (IsNoStopAtOnce what.now) }
{
    match what {
        What::Stop { steps, .. } => *steps > 0,
        _ => true,
    }
}

// Whether a command pulls of this region.
fn pulls_of(what: &What, region: u8) -> bool
    ensures { Tells result ((colour : ℕ) × (what.now ≡ whats.Pull region colour)) }
{
    match what {
        What::Pull { region: other, .. } => *other == region,
        _ => false,
    }
}

// The home of the object that a command is of, where it has one.
fn home_asked(subject: &Subject<'_>, what: &What) -> Option<u8>
    ensures { (client : ℕ) → result ≡ home_asked (caller_of subject.now.script client) what.now }
{
    let _may = subject.tracks();
    home_of(kind_asked(subject.script().objects.as_slice(), what))
}

// Whether a colour is the only one of these.
fn is_only(colours: &[u8], colour: u8) -> bool
    ensures { Tells result (colours.now ≡ colour ∷ []) }
{
    colours == [colour].as_slice()
}

// Whether the home of an object is this region.
fn is_home(home: Option<u8>, region: u8) -> bool
    ensures { Tells result (home ≡ Some region) }
{
    match home {
        Some(other) => other == region,
        None => false,
    }
}

// Whether a client keeps no read of an object.
fn is_unread(keeping: &Keeping, object: u8) -> bool
    ensures { (replies : List ReplyLine) (kept : Kept) → IsCounted replies kept keeping.now
        → Tells result (kept.reads object ≡ None) }
{
    keeping.read(object).is_none()
}

// Whether a command commits at its object's home, of which no read is kept.
fn has_no_tx(subject: &Subject<'_>, client: u8, keeping: &Keeping, what: &What) -> bool
    requires { client < length subject.now.report.clients }
    ensures { (kept : Kept) → IsCounted (replies_to subject.now.report client) kept keeping.now
        → Tells result (HasNoTx (caller_of subject.now.script client) kept what.now) }
{
    match what {
        What::Commit { object, .. } => {
            if !is_home(home_asked(subject, what), subject.own(client)) {
                return false;
            }
            is_unread(keeping, *object)
        }
        _ => false,
    }
}

// Whether a command is of an object with this home, which is not the client's region.
fn is_not_home(subject: &Subject<'_>, client: u8, what: &What, home: u8) -> bool
    requires { client < length subject.now.report.clients }
    ensures { Tells result ((home_asked (caller_of subject.now.script client) what.now ≡ Some home)
        × ((caller_of subject.now.script client).own ≢ home)) }
{
    if !is_home(home_asked(subject, what), home) {
        return false;
    }
    subject.own(client) != home
}

// Whether a client that keeps this has begun so many rows, and all that it may.
fn is_full(subject: &Subject<'_>, keeping: &Keeping, what: &What, used: u32) -> bool
    ensures { (client : ℕ) (kept : Kept) → IsCounted (replies_to subject.now.report client) kept keeping.now
        → Tells result (IsNoStopAtOnce what.now × (used ≡ kept.rows) × (kept.rows ≡ (caller_of subject.now.script client).rows)) }
{
    if !is_no_stop_at_once(what) {
        return false;
    }
    used as u64 == keeping.rows() && keeping.rows() == subject.script().shape.rows as u64
}

// STEPS

// Whether no stamp was left in a colour for the node of a decision, where its end says so.
fn has_late_end(
    alloc: Global,
    subject: &Subject<'_>,
    client: u8,
    keeping: &Keeping,
    what: &What,
    ended: Ended,
) -> Result<bool, AllocError>
    requires { client < length subject.now.report.clients }
    ensures { (kept : Kept) → IsCounted (replies_to subject.now.report client) kept keeping.now
        → HasLowEnd subject.now.script.shape.colours ended
        → IfOk result (λ b. Tells b (HasLateEnd subject.now (caller_of subject.now.script client) kept what.now ended)) }
{
    match ended {
        Ended::StampEnd { colour } => {
            let asked = keeping.asked(alloc, subject, client, what)?;
            if !is_only(asked.as_slice(), colour) {
                return Ok(false);
            }
            Ok(had_no_stamp(subject, client, keeping, colour))
        }
        Ended::Stood { .. } | Ended::NoMemory => Ok(true),
    }
}

// Whether behind an answer a row was begun.
fn begins_row(
    alloc: Global,
    subject: &Subject<'_>,
    client: u8,
    keeping: &Keeping,
    what: &What,
    answer: &Answer,
) -> Result<bool, AllocError>
    requires { client < length subject.now.report.clients }
    ensures { (kept : Kept) → IsCounted (replies_to subject.now.report client) kept keeping.now → IfOk result (λ b. b
        ≡ begins_row (is_several (caller_of subject.now.script client) kept what.now) answer.now) }
{
    match answer {
        Answer::Stood { row, .. } => Ok(row.is_some()),
        Answer::Ruled { row, .. } => Ok(row.is_some()),
        Answer::Changed { row, .. } => Ok(row.is_some()),
        Answer::StampEnd { .. } => keeping.is_several(alloc, subject, client, what),
        Answer::Stopped { steps } => Ok(*steps > 0),
        _ => Ok(false),
    }
}

// Whether a client that has begun all its rows begins none.
fn has_room(
    alloc: Global,
    subject: &Subject<'_>,
    client: u8,
    keeping: &Keeping,
    what: &What,
    answer: &Answer,
) -> Result<bool, AllocError>
    requires { client < length subject.now.report.clients }
    ensures { (kept : Kept) → IsCounted (replies_to subject.now.report client) kept keeping.now → IfOk result (λ b. Tells b
        (IsTrue (begins_row (is_several (caller_of subject.now.script client) kept what.now) answer.now)
        → kept.rows < (caller_of subject.now.script client).rows)) }
{
    if !begins_row(alloc, subject, client, keeping, what, answer)? {
        return Ok(true);
    }
    Ok(keeping.rows() < subject.script().shape.rows as u64)
}

// Whether an answer is that of a client that is away from an object's home.
fn is_home_refusal(answer: &Answer) -> bool
    ensures { Tells result (IsHomeRefusal answer.now) }
{
    matches!(answer, Answer::NoMemory | Answer::NotHome { .. })
}

// Whether a client that is away from an object's home is answered so.
fn is_kept_away(subject: &Subject<'_>, client: u8, what: &What, answer: &Answer) -> bool
    requires { client < length subject.now.report.clients }
    ensures { Tells result (IsAway (caller_of subject.now.script client) (home_asked (caller_of subject.now.script client) what.now)
        → IsHomeRefusal answer.now) }
{
    match home_asked(subject, what) {
        Some(home) => {
            if home == subject.own(client) {
                return true;
            }
            is_home_refusal(answer)
        }
        None => true,
    }
}

// The ids that columns leave open, by region.
fn open_by_region(
    alloc: Global,
    columns: &[ColumnReport],
    regions: u8,
) -> Result<Vec<RowTable>, AllocError>
    ensures { IfOk result (λ tables. AreOpenIds regions columns.now tables.items) }
{
    let mut tables = Vec::new(alloc);
    for region in 0..regions {
        tables.push(open_ids(alloc, columns, region)?)?;
    }
    Ok(tables)
}

impl Causes {
    // Those of a report.
    fn of_report(alloc: Global, regions: u8, report: &Report) -> Result<Causes, AllocError>
        ensures rows { IfOk result (λ causes. AreRowPlaces report.now.rows causes.places) }
        ensures open { IfOk result (λ causes. AreOpenIds regions report.now.columns causes.open.items) }
    {
        let places = RowPlaces::of_rows(alloc, report.rows.as_slice())?;
        let open = open_by_region(alloc, report.columns.as_slice(), regions)?;
        Ok(Causes { places, open })
    }

    // Whether no stamp was left in a colour for the node of a command.
    fn has_end(
        &self,
        alloc: Global,
        subject: &Subject<'_>,
        client: u8,
        keeping: &Keeping,
        what: &What,
        colour: u8,
    ) -> Result<bool, AllocError>
        requires { client < length subject.now.report.clients }
        ensures { (kept : Kept) → IsCounted (replies_to subject.now.report client) kept keeping.now
            → colour < subject.now.script.shape.colours → IfOk result (λ b. Tells b
            (IsTrue (tells_stamp_end (manner_of what.now)) × HasEnd (looks_in self.now subject.now.report.rows) subject.now
            (caller_of subject.now.script client) kept colour (colours_asked (caller_of subject.now.script client) kept what.now))) }
    {
        if !tells_end(what) {
            return Ok(false);
        }
        let asked = keeping.asked(alloc, subject, client, what)?;
        if asked.len() > 1 {
            return Ok(self.has_ended_row(subject, client, keeping, colour));
        }
        if !is_only(asked.as_slice(), colour) {
            return Ok(false);
        }
        Ok(had_no_stamp(subject, client, keeping, colour))
    }

    // Whether a refusal has its cause, by what the client keeps when the command's node is appended.
    fn is_caused(
        &self,
        alloc: Global,
        subject: &Subject<'_>,
        client: u8,
        keeping: &Keeping,
        what: &What,
        answer: &Answer,
    ) -> Result<bool, AllocError>
        requires { client < length subject.now.report.clients }
        ensures { (kept : Kept) → IsCounted (replies_to subject.now.report client) kept keeping.now
            → HasLowColour subject.now.script.shape.colours answer.now → IfOk result (λ b. Tells b
            (IsCaused (looks_in self.now subject.now.report.rows) subject.now (caller_of subject.now.script client) kept what.now
            answer.now)) }
    {
        match answer {
            Answer::StampEnd { colour } => {
                self.has_end(alloc, subject, client, keeping, what, *colour)
            }
            Answer::Full { used } => Ok(is_full(subject, keeping, what, *used)),
            Answer::SameRegion => Ok(pulls_of(what, subject.own(client))),
            Answer::Decided { ended, .. } => {
                has_late_end(alloc, subject, client, keeping, what, *ended)
            }
            Answer::NoTx => Ok(has_no_tx(subject, client, keeping, what)),
            Answer::Trimmed { colour, base } => {
                Ok(is_trimmed(subject, client, keeping, *colour, *base))
            }
            Answer::NotHome { home } => Ok(is_not_home(subject, client, what, *home)),
            _ => Ok(true),
        }
    }
}

impl Check for Causes {
    // the step has its cause, as it is looked up
    ghost Asks = { λ causes walked caller step. HasItsCause (looks_in causes walked.report.rows) walked caller step };

    fn go_on(
        &self,
        alloc: Global,
        subject: &Subject<'_>,
        client: u8,
        place: usize,
        keeping: &mut Keeping,
    ) -> Result<bool, AllocError> {
        subject.agrees();
        let what = &subject.command(client, place).what;
        let answer = &subject.reply(client, place).answer;
        if !has_room(alloc, subject, client, keeping, what, answer)? {
            return Ok(false);
        }
        if !is_kept_away(subject, client, what, answer) {
            return Ok(false);
        }
        keeping.to_append(subject, client, answer)?;
        if !self.is_caused(alloc, subject, client, keeping, what, answer)? {
            return Ok(false);
        }
        keeping.from_append(alloc, subject, client, place)?;
        Ok(true)
    }
}

/// Whether a report keeps the eleventh rule, where it keeps those before: each refusal has its cause, a client that has begun all
/// its rows begins none, and who is away from an object's home is refused.
pub fn keeps_eleventh(alloc: Global, subject: &Subject<'_>) -> Result<bool, AllocError>
    requires { RulesTo subject.now.script subject.now.report (account_showing subject.now.script subject.now.report) 10 }
    ensures { IfOk result (λ b. Tells b (Rule11 subject.now.script subject.now.report
        (account_showing subject.now.script subject.now.report))) }
{
    eleventh_is_causes();
    subject.agrees();
    let causes = Causes::of_report(alloc, subject.script().shape.regions, subject.report())?;
    each_step(alloc, subject, &causes)
}
