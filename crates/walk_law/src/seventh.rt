// The seventh rule: appends that stopped.
ghost use Rattle.std.specs.Prelude.{◌≡◌, ◌≢◌, ◌+◌, ◌<◌, ◌≤◌, ℕ, IfOk, Some, length, slice_get};
ghost use Rattle.log_node.specs.declared.ids.Id.{Id as NodeId};
ghost use Rattle.log_node.specs.declared.marks.ColourMark.{ColourMark as MarkOfColour};
ghost use Rattle.log_node.specs.declared.marks.Outcome.TheVariants as outcomes;
ghost use Rattle.col_core.specs.Keeping.{Kept};
ghost use Rattle.lawful_run.specs.Callers.{caller_of};
ghost use Rattle.column_track.specs.Tracks.{Tells};
ghost use Rattle.run_rules.specs.Keeping.{RulesTo};
ghost use Rattle.run_rules.specs.Nodes.{nodes_told};
ghost use Rattle.run_rules.specs.Rules.{Rule7};
ghost use Rattle.run_rules.specs.Told.{Untold};
ghost use Rattle.run_rules.specs.Telling.{account_of, replies_to};
ghost use Rattle.walk_law.specs.Behind.{steps_untold};
ghost use Rattle.walk_law.specs.Fifth.{finding_in, next_id};
ghost use Rattle.walk_law.specs.Keepings.{IsCounted};
ghost use Rattle.walk_law.specs.LeftOpen.{has_id, is_open_in};
ghost use Rattle.walk_law.specs.Seventh.{AreOpenTables, AsksToStop, IsClosed, IsFence, SeventhIsStopping, StopsBeside, StopsBy, StopsIn, StopsOn, StopsSo, opening_in};
ghost use Rattle.walk_law.specs.Walking.{journal_walked, log_walked};

use crate::copies::column_place;
use crate::keeping::Keeping;
use crate::left_open::put_open;
use crate::points::next_place;
use crate::row_places::RowPlaces;
use crate::row_table::RowTable;
use crate::subject::Subject;
use crate::turn::Turn;
use crate::walking::{Check, each_step};
use log_node::{ColourMark, Mark, Outcome};
use report_text::{Answer, ColumnReport, RowReport};
use script_text::What;
use std::alloc::{AllocError, Global};

/// Where a report keeps the first six rules, the seventh is what is looked at of each step.
pub fn seventh_is_stopping()
    ensures { SeventhIsStopping }
{}

// WHAT COLUMNS LEAVE OPEN

// The ids that a column leaves open.
fn open_in(alloc: Global, column: &ColumnReport) -> Result<RowTable, AllocError>
    ensures { (id : NodeId) → IfOk result (λ ids. has_id ids id ≡ is_open_in id column.now) }
{
    let mut ids = RowTable::new(alloc);
    put_open(&mut ids, column.queue.as_slice())?;
    Ok(ids)
}

// Those of all columns, in their order.
fn open_tables(alloc: Global, columns: &[ColumnReport]) -> Result<Vec<RowTable>, AllocError>
    ensures { IfOk result (λ tables. AreOpenTables columns.now tables.items) }
{
    let mut tables = Vec::with_capacity(alloc, columns.len())?;
    for column in columns {
        tables.push(open_in(alloc, column)?)?;
    }
    Ok(tables)
}

// WHAT IS LOOKED AT

// Whether it is a fence.
fn is_fence(mark: Mark) -> bool
    ensures { Tells result (IsFence mark) }
{
    match mark {
        Mark::Fenced(_) => true,
        Mark::None | Mark::Number(_) => false,
    }
}

// Whether an outcome is decided.
fn is_decided(outcome: Outcome) -> bool
    ensures { Tells result (outcome ≢ outcomes.Open) }
{
    match outcome {
        Outcome::Open => false,
        Outcome::Gone(_) | Outcome::Final(_) => true,
    }
}

// Whether the outcome of k colours is decided, if so many steps decide it.
fn has_decided(k: usize, steps: u8, outcome: Outcome) -> bool
    ensures { Tells result (k + 2 ≤ steps → outcome ≢ outcomes.Open) }
{
    if (k as u128 + 2) <= steps as u128 {
        is_decided(outcome)
    } else {
        true
    }
}

// Whether a command asks to stop after so many steps.
fn asks_to_stop(what: &What, steps: u8) -> bool
    ensures { Tells result (AsksToStop what.now steps) }
{
    match what {
        What::Stop { steps: asked, .. } => *asked == steps,
        _ => false,
    }
}

// STEPS OF CLIENTS

/// Looks at stops, by the places of rows and by the ids that columns leave open.
#[derive(Drop)]
struct Stopping {
    rows: RowPlaces,
    open: Vec<RowTable>,
}

impl Stopping {
    // Whether a column of a client's region leaves its next node open.
    fn is_open(
        &self,
        subject: &Subject<'_>,
        client: u8,
        own: u8,
        keeping: &Keeping,
        colour: u8,
    ) -> bool
        requires own { own ≡ (caller_of subject.now.script client).own }
        ensures { (kept : Kept) → IsCounted (replies_to subject.now.report client) kept keeping.now → result
            ≡ opening_in self.now.open.items subject.now.script.shape.colours (caller_of subject.now.script client).own colour
            (next_id (caller_of subject.now.script client) kept) }
    {
        let colours = subject.script().shape.colours;
        match self.open.get(column_place(colours, own, colour)) {
            Some(ids) => ids.has(keeping.next_id(client)),
            None => false,
        }
    }

    // Whether a client's next node of this mark is closed for good.
    fn is_closed(
        &self,
        subject: &Subject<'_>,
        client: u8,
        own: u8,
        keeping: &Keeping,
        mark: ColourMark,
    ) -> bool
        requires own { own ≡ (caller_of subject.now.script client).own }
        ensures { (kept : Kept) → IsCounted (replies_to subject.now.report client) kept keeping.now → Tells result
            (IsClosed (opening_in self.now.open.items subject.now.script.shape.colours (caller_of subject.now.script client).own
            mark.colour (next_id (caller_of subject.now.script client) kept))
            (journal_walked subject.now (caller_of subject.now.script client).own mark.colour)
            (next_id (caller_of subject.now.script client) kept) mark.mark) }
    {
        if self.is_open(subject, client, own, keeping, mark.colour) {
            return false;
        }
        if is_fence(mark.mark) {
            return true;
        }
        next_place(subject, client, own, keeping, mark.colour).is_some()
    }

    // Whether it is, if these steps settle it.
    fn has_settled(
        &self,
        subject: &Subject<'_>,
        client: u8,
        own: u8,
        keeping: &Keeping,
        turn: Turn,
        mark: ColourMark,
    ) -> bool
        requires own { own ≡ (caller_of subject.now.script client).own }
        ensures { (kept : Kept) → IsCounted (replies_to subject.now.report client) kept keeping.now → Tells result
            (turn.n + turn.k + 2 < turn.steps → IsClosed (opening_in self.now.open.items subject.now.script.shape.colours
            (caller_of subject.now.script client).own mark.colour (next_id (caller_of subject.now.script client) kept))
            (journal_walked subject.now (caller_of subject.now.script client).own mark.colour)
            (next_id (caller_of subject.now.script client) kept) mark.mark) }
    {
        if turn.settles() {
            self.is_closed(subject, client, own, keeping, mark)
        } else {
            true
        }
    }

    // Whether a colour of the row is as a stop after these steps leaves it.
    fn stops_in(
        &self,
        alloc: Global,
        subject: &Subject<'_>,
        client: u8,
        own: u8,
        keeping: &Keeping,
        turn: Turn,
        mark: ColourMark,
    ) -> Result<bool, AllocError>
        requires walker { client < length subject.now.report.clients }
        requires own { own ≡ (caller_of subject.now.script client).own }
        ensures { (kept : Kept) → IsCounted (replies_to subject.now.report client) kept keeping.now → IfOk result (λ b. Tells b
            (StopsIn (opening_in self.now.open.items subject.now.script.shape.colours) (log_walked subject.now)
            (caller_of subject.now.script client) kept (steps_untold subject.now client kept.ids) turn.k turn.steps turn.n mark)) }
    {
        if !turn.has_marked(mark.mark) {
            return Ok(false);
        }
        if !self.has_settled(subject, client, own, keeping, turn, mark) {
            return Ok(false);
        }
        turn.took_no_later(alloc, subject, client, own, keeping, mark.colour)
    }

    // Whether all colours are.
    fn stop_in(
        &self,
        alloc: Global,
        subject: &Subject<'_>,
        client: u8,
        own: u8,
        keeping: &Keeping,
        steps: u8,
        marks: &[ColourMark],
    ) -> Result<bool, AllocError>
        requires walker { client < length subject.now.report.clients }
        requires own { own ≡ (caller_of subject.now.script client).own }
        ensures { (kept : Kept) → IsCounted (replies_to subject.now.report client) kept keeping.now → IfOk result (λ b. Tells b
            ((n : ℕ) (m : MarkOfColour) → slice_get marks.now n ≡ Some m
            → StopsIn (opening_in self.now.open.items subject.now.script.shape.colours) (log_walked subject.now)
            (caller_of subject.now.script client) kept (steps_untold subject.now client kept.ids) (length marks.now) steps n m)) }
    {
        let k = marks.len();
        for n in 0..marks.len() {
            let turn = Turn { n, k, steps };
            if !self.stops_in(alloc, subject, client, own, keeping, turn, marks[n])? {
                return Ok(false);
            }
        }
        Ok(true)
    }

    // Whether a row is as a stop after so many steps leaves it.
    fn stops_on(
        &self,
        alloc: Global,
        subject: &Subject<'_>,
        client: u8,
        own: u8,
        keeping: &Keeping,
        steps: u8,
        row: &RowReport,
    ) -> Result<bool, AllocError>
        requires walker { client < length subject.now.report.clients }
        requires own { own ≡ (caller_of subject.now.script client).own }
        ensures { (kept : Kept) → IsCounted (replies_to subject.now.report client) kept keeping.now → IfOk result (λ b. Tells b
            (StopsOn (opening_in self.now.open.items subject.now.script.shape.colours) (log_walked subject.now)
            (caller_of subject.now.script client) kept (steps_untold subject.now client kept.ids) steps row.now)) }
    {
        let marks = row.marks.as_slice();
        if !has_decided(marks.len(), steps, row.last) {
            return Ok(false);
        }
        self.stop_in(alloc, subject, client, own, keeping, steps, marks)
    }

    // Whether a client stopped after so many steps, and took no later one.
    fn stops_so(
        &self,
        alloc: Global,
        subject: &Subject<'_>,
        client: u8,
        keeping: &Keeping,
        steps: u8,
    ) -> Result<bool, AllocError>
        requires { client < length subject.now.report.clients }
        ensures { (kept : Kept) → IsCounted (replies_to subject.now.report client) kept keeping.now → IfOk result (λ b. Tells b
            (StopsSo (finding_in self.now.rows subject.now.report.rows)
            (opening_in self.now.open.items subject.now.script.shape.colours) (log_walked subject.now)
            (caller_of subject.now.script client) kept (steps_untold subject.now client kept.ids) steps)) }
    {
        if steps == 0 {
            return Ok(true);
        }
        let own = subject.own(client);
        let rows = subject.report().rows.as_slice();
        match self.rows.row(rows, own, keeping.next_id(client)) {
            Some(row) => self.stops_on(alloc, subject, client, own, keeping, steps, row),
            None => Ok(false),
        }
    }

    // Whether an answer to a command, if it is that of a stop, tells what was done.
    fn stops_by(
        &self,
        alloc: Global,
        subject: &Subject<'_>,
        client: u8,
        keeping: &Keeping,
        what: &What,
        answer: &Answer,
    ) -> Result<bool, AllocError>
        requires { client < length subject.now.report.clients }
        ensures { (kept : Kept) (untold : Untold) → IsCounted (replies_to subject.now.report client) kept keeping.now
            → untold.places ≡ steps_untold subject.now client kept.ids → IfOk result (λ b. Tells b
            (StopsBy (finding_in self.now.rows subject.now.report.rows)
            (opening_in self.now.open.items subject.now.script.shape.colours) (log_walked subject.now) untold
            (caller_of subject.now.script client) kept what.now answer.now)) }
    {
        let Answer::Stopped { steps } = answer else {
            return Ok(true);
        };
        if !asks_to_stop(what, *steps) {
            return Ok(false);
        }
        self.stops_so(alloc, subject, client, keeping, *steps)
    }
}

impl Check for Stopping {
    // a stop did its first steps and no more, by the row that is found and the ids that are open
    ghost Asks = { λ s walked caller step. StopsBeside (finding_in s.rows walked.report.rows)
        (opening_in s.open.items walked.script.shape.colours) walked caller step };

    fn go_on(
        &self,
        alloc: Global,
        subject: &Subject<'_>,
        client: u8,
        place: usize,
        keeping: &mut Keeping,
    ) -> Result<bool, AllocError> {
        let what = &subject.command(client, place).what;
        let answer = &subject.reply(client, place).answer;
        if !self.stops_by(alloc, subject, client, keeping, what, answer)? {
            return Ok(false);
        }
        keeping.go_on(alloc, subject, client, place)?;
        Ok(true)
    }
}

/// Whether a report that keeps the first six rules keeps the seventh one, at the account with the nodes of its commands: a stopped
/// append did its first steps, as many as were asked, and took no later one.
pub fn keeps_seventh(alloc: Global, subject: &Subject<'_>) -> Result<bool, AllocError>
    requires { RulesTo subject.now.script subject.now.report
        (account_of subject.now.script subject.now.report (nodes_told subject.now.script subject.now.report)) 6 }
    ensures { IfOk result (λ b. Tells b (Rule7 subject.now.script subject.now.report
        (account_of subject.now.script subject.now.report (nodes_told subject.now.script subject.now.report)))) }
{
    seventh_is_stopping();
    subject.agrees();
    let rows = RowPlaces::of_rows(alloc, subject.report().rows.as_slice())?;
    let open = open_tables(alloc, subject.report().columns.as_slice())?;
    let stopping = Stopping { rows, open };
    each_step(alloc, subject, &stopping)
}
