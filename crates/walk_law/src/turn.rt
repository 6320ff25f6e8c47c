// The turn of one colour of an append that stopped: which of its steps were done.
ghost use Rattle.std.specs.Prelude.{◌≡◌, ◌≢◌, ◌+◌, ◌<◌, IfOk, length};
ghost use Rattle.std.specs.List.{All};
ghost use Rattle.log_node.specs.declared.marks.Mark.TheVariants as marks;
ghost use Rattle.col_core.specs.Appending.{IsStepWithin};
ghost use Rattle.col_core.specs.Keeping.{Kept};
ghost use Rattle.lawful_run.specs.Callers.{caller_of};
ghost use Rattle.column_track.specs.Tracks.{Tells};
ghost use Rattle.run_rules.specs.Telling.{replies_to};
ghost use Rattle.walk_law.specs.Behind.{steps_untold};
ghost use Rattle.walk_law.specs.Keepings.{IsCounted};
ghost use Rattle.walk_law.specs.Seventh.{IsEarlyAt};
ghost use Rattle.walk_law.specs.Walking.{journal_walked};

use crate::keeping::Keeping;
use crate::subject::Subject;
use col_core::Event;
use log_node::Mark;
use std::alloc::{AllocError, Global};

/// The n-th of the k colours of an append, of which so many steps were done.
#[derive(Clone, Copy)]
pub(crate) struct Turn {
    pub(crate) n: usize,
    pub(crate) k: usize,
    pub(crate) steps: u8,
}

impl Turn {
    // Whether the colour is marked by these steps.
    fn marks(self) -> bool
        ensures { Tells result (self.n + 1 < self.steps) }
    {
        (self.n as u128 + 1) < self.steps as u128
    }

    /// Whether it is settled by them.
    pub(crate) fn settles(self) -> bool
        ensures { Tells result (self.n + self.k + 2 < self.steps) }
    {
        (self.n as u128 + self.k as u128 + 2) < self.steps as u128
    }

    // Whether an event is one of them.
    fn has_step(self, event: &Event) -> bool
        ensures { Tells result (IsStepWithin self.n self.k self.steps event.now) }
    {
        match event {
            Event::Propose { .. } => self.marks(),
            Event::Settle { .. } => self.settles(),
            Event::Single { .. }
            | Event::Raise { .. }
            | Event::Give { .. }
            | Event::Carry { .. }
            | Event::Trim { .. } => false,
        }
    }

    // Whether that at a place of a column is.
    fn is_early_at(self, subject: &Subject<'_>, region: u8, colour: u8, place: u64) -> bool
        ensures { Tells result (IsEarlyAt (journal_walked subject.now region colour) self.n self.k self.steps place) }
    {
        match subject.journal(region, colour).get(place as usize) {
            Some(entry) => self.has_step(&entry.event),
            None => false,
        }
    }

    // Whether those at all places are.
    fn are_early_at(self, subject: &Subject<'_>, region: u8, colour: u8, places: &[u64]) -> bool
        ensures { Tells result (All (IsEarlyAt (journal_walked subject.now region colour) self.n self.k self.steps) places.now) }
    {
        for place in places {
            if !self.is_early_at(subject, region, colour, *place) {
                return false;
            }
        }
        true
    }

    /// Whether the mark of the colour is set, if these steps set it.
    pub(crate) fn has_marked(self, mark: Mark) -> bool
        ensures { Tells result (self.n + 1 < self.steps → mark ≢ marks.None) }
    {
        if self.marks() { is_marked(mark) } else { true }
    }

    /// Whether a client took no later step of its next node.
    pub(crate) fn took_no_later(
        self,
        alloc: Global,
        subject: &Subject<'_>,
        client: u8,
        own: u8,
        keeping: &Keeping,
        colour: u8,
    ) -> Result<bool, AllocError>
        requires walker { client < length subject.now.report.clients }
        requires own { own ≡ (caller_of subject.now.script client).own }
        ensures { (kept : Kept) → IsCounted (replies_to subject.now.report client) kept keeping.now → IfOk result (λ b. Tells b
            (All (IsEarlyAt (journal_walked subject.now (caller_of subject.now.script client).own colour) self.n self.k self.steps)
            (steps_untold subject.now client kept.ids colour))) }
    {
        let places = subject.steps(alloc, client, colour, keeping.ids())?;
        Ok(self.are_early_at(subject, own, colour, places.as_slice()))
    }
}

// Whether a mark is set.
fn is_marked(mark: Mark) -> bool
    ensures { Tells result (mark ≢ marks.None) }
{
    match mark {
        Mark::None => false,
        Mark::Number(_) | Mark::Fenced(_) => true,
    }
}
