// The begun rows of one client, with memory for all that it may begin. The marks of all its rows stand in one list, for each row
// as many as the board has colours.
ghost use Rattle.std.specs.Prelude.{◌≡◌, ◌+◌, ◌<◌, ◌≤◌, ◌++◌, ◌∷◌, [], length, map, replicate, slice_get, vec_capacity, IfOk};
ghost use Rattle.std.specs.List.{list_any};
ghost use Rattle.log_node.specs.Outcomes.{is_missing, is_stamp_end_fence, is_memory_fence};
ghost use Rattle.log_node.specs.Outcomes.{number_of, greatest};
ghost use Rattle.skeen_core.specs.Boards.{changed_at, fresh_row, mark_in, marks_in, with_mark, decided, outcome_in, last_in};

use crate::outcomes::{Tally, outcome_of_tally, with_mark};
use log_node::{Colours, Id, MAX_COLOURS, MAX_ROWS, Mark, Outcome};
use std::alloc::{AllocError, Global};
use std::marker::Model;

// A begun row without its marks.
#[derive(Clone, Copy)]
pub(crate) struct RowHead {
    id: Id,
    colours: Colours,
    // `Open` as long as none is kept.
    last: Outcome,
}

#[derive(Drop)]
pub(crate) struct ClientRows {
    begun: Vec<RowHead>,
    marks: Vec<Mark>,
    colours: u8,
    rows: u32,
}

impl Model for ClientRows {
    ghost use Rattle.std.specs.Prelude.{vec_capacity};
    ghost use Rattle.skeen_core.specs.Boards.{RowsOfClient};
    ghost use Rattle.skeen_core.specs.KeptRows.{rows_kept, IsKept};

    ghost Value = { RowsOfClient };

    ghost view = { λ a. record { begun = rows_kept a.colours a.marks.items 0 a.begun.items; colours = a.colours; rows = a.rows } };

    ghost invariant = { λ a. IsKept a.colours a.rows a.marks.items a.begun.items (vec_capacity a.marks) (vec_capacity a.begun) };
}

// So many colours more that have no mark.
fn push_unmarked(marks: &mut Vec<Mark>, colours: u8)
    requires { length marks.old.items + colours ≤ vec_capacity marks.old }
    ensures items { marks.new.items ≡ marks.old.items ++ replicate colours Mark.None }
    ensures room { vec_capacity marks.new ≡ vec_capacity marks.old }
{
    for _ in 0..colours {
        marks.push_reserved(Mark::None);
    }
}

impl ClientRows {
    // No row, and memory for so many.
    pub(crate) fn open(alloc: Global, colours: u8, rows: u32) -> Result<Self, AllocError>
        requires colours { colours ≤ MAX_COLOURS }
        requires rows { rows ≤ MAX_ROWS }
        ensures { IfOk result (λ client. client ≡ record { begun = []; colours = colours; rows = rows }) }
    {
        Ok(ClientRows {
            begun: Vec::with_capacity(alloc, rows as usize)?,
            marks: Vec::with_capacity(alloc, rows as usize * colours as usize)?,
            colours,
            rows,
        })
    }

    // How many rows are begun.
    pub(crate) fn used(&self) -> u32
        ensures value { result ≡ length self.now.begun }
        ensures bound { length self.now.begun ≤ self.now.rows }
    {
        self.begun.len() as u32
    }

    // One more row, of which nothing is said yet.
    pub(crate) fn begin(&mut self, id: Id, colours: Colours)
        requires { length self.old.begun < self.old.rows }
        ensures { self.new ≡ record self.old { begun = self.old.begun ++ fresh_row id colours ∷ [] } }
    {
        push_unmarked(&mut self.marks, self.colours);
        self.begun.push_reserved(RowHead {
            id,
            colours,
            last: Outcome::Open,
        });
    }

    // The mark of a colour of a row; none where the row is not begun.
    pub(crate) fn read(&self, number: u32, colour: u8) -> Mark
        ensures { result ≡ mark_in (slice_get self.now.begun number) colour }
    {
        if colour >= self.colours {
            return Mark::None;
        }
        match self
            .marks
            .get(number as usize * self.colours as usize + colour as usize)
        {
            None => Mark::None,
            Some(mark) => *mark,
        }
    }

    // The outcome that is kept for a row; open where none is.
    pub(crate) fn last(&self, number: u32) -> Outcome
        ensures { result ≡ last_in (slice_get self.now.begun number) }
    {
        match self.begun.get(number as usize) {
            None => Outcome::Open,
            Some(row) => row.last,
        }
    }

    // Marks a colour of a begun row, unless it is marked. The answer is the mark before.
    pub(crate) fn mark(&mut self, number: u32, colour: u8, mark: Mark) -> Mark
        requires begun { number < length self.old.begun }
        requires colour { colour < self.old.colours }
        ensures before { result ≡ mark_in (slice_get self.old.begun number) colour }
        ensures rows { self.new ≡ record self.old { begun = changed_at self.old.begun number (with_mark colour mark) } }
    {
        let at = number as usize * self.colours as usize + colour as usize;
        let before = self.marks[at];
        if let Mark::None = before {
            self.marks[at] = mark;
        }
        before
    }

    // What the marks of these colours of a row have among them.
    fn tally(&self, number: u32, colours: Colours) -> Tally
        ensures missing { result.missing ≡ list_any is_missing (marks_in (slice_get self.now.begun number) colours) }
        ensures stamp_end { result.stamp_end ≡ list_any is_stamp_end_fence (marks_in (slice_get self.now.begun number) colours) }
        ensures memory { result.memory ≡ list_any is_memory_fence (marks_in (slice_get self.now.begun number) colours) }
        ensures greatest { result.greatest ≡ greatest (map number_of (marks_in (slice_get self.now.begun number) colours)) }
    {
        let mut tally = Tally::NOTHING;
        for colour in colours.members() {
            tally = with_mark(tally, self.read(number, colour));
        }
        tally
    }

    // Keeps the outcome of a row's marks, which is the answer. A row that is not begun is open.
    pub(crate) fn decide(&mut self, number: u32) -> Outcome
        ensures outcome { result ≡ outcome_in (slice_get self.old.begun number) }
        ensures rows { self.new ≡ record self.old { begun = changed_at self.old.begun number decided } }
    {
        let at = number as usize;
        if at >= self.begun.len() {
            return Outcome::Open;
        }
        let outcome = outcome_of_tally(self.tally(number, self.begun[at].colours));
        self.begun[at].last = outcome;
        outcome
    }
}
