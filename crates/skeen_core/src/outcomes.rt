// The outcome of a row's marks.
ghost use Rattle.std.specs.Prelude.{◌≡◌, ◌<◌, ◌||◌, max, map, length};
ghost use Rattle.std.specs.List.{list_any};
ghost use Rattle.log_node.specs.Outcomes.{outcome_of, is_missing, is_stamp_end_fence, is_memory_fence};
ghost use Rattle.log_node.specs.Outcomes.{number_of, greatest, final_number};
ghost use Rattle.skeen_core.specs.Inside.{outcome_among};

use log_node::{Mark, Outcome, Why};

// What the marks seen so far have among them.
#[derive(Clone, Copy)]
pub(crate) struct Tally {
    missing: bool,
    stamp_end: bool,
    memory: bool,
    greatest: u64,
}

impl Tally {
    // What no mark at all has.
    pub(crate) const NOTHING: Tally = Tally {
        missing: false,
        stamp_end: false,
        memory: false,
        greatest: 0,
    };
}

// One more mark.
pub(crate) fn with_mark(tally: Tally, mark: Mark) -> Tally
    ensures missing { result.missing ≡ (is_missing mark || tally.missing) }
    ensures stamp_end { result.stamp_end ≡ (is_stamp_end_fence mark || tally.stamp_end) }
    ensures memory { result.memory ≡ (is_memory_fence mark || tally.memory) }
    ensures greatest { result.greatest ≡ max (number_of mark) tally.greatest }
{
    match mark {
        Mark::None => Tally {
            missing: true,
            ..tally
        },
        Mark::Number(stamp) => Tally {
            greatest: stamp.max(tally.greatest),
            ..tally
        },
        Mark::Fenced(Why::StampEnd) => Tally {
            stamp_end: true,
            ..tally
        },
        Mark::Fenced(Why::Memory) => Tally {
            memory: true,
            ..tally
        },
    }
}

fn tally_of(marks: &[Mark]) -> Tally
    ensures missing { result.missing ≡ list_any is_missing marks.now }
    ensures stamp_end { result.stamp_end ≡ list_any is_stamp_end_fence marks.now }
    ensures memory { result.memory ≡ list_any is_memory_fence marks.now }
    ensures greatest { result.greatest ≡ greatest (map number_of marks.now) }
{
    match marks.split_first() {
        None => Tally::NOTHING,
        Some((mark, rest)) => with_mark(tally_of(rest), *mark),
    }
}

/// Open while a mark is missing; else gone where one is a fence, first for the stamps' end; else final under the
/// greatest number. Takes no memory.
pub fn outcome(marks: &[Mark]) -> Outcome
    requires { 0 < length marks.now }
    ensures { result ≡ outcome_of marks.now }
{
    outcome_of_tally(tally_of(marks))
}

// The outcome of marks that have this among them.
pub(crate) fn outcome_of_tally(all: Tally) -> Outcome
    ensures { result ≡ outcome_among all }
{
    if all.missing {
        Outcome::Open
    } else if all.stamp_end {
        Outcome::Gone(Why::StampEnd)
    } else if all.memory {
        Outcome::Gone(Why::Memory)
    } else {
        Outcome::Final(all.greatest)
    }
}

// The number to which an outcome raises the clock.
pub(crate) fn final_number(outcome: Outcome) -> u64
    ensures { result ≡ final_number outcome }
{
    match outcome {
        Outcome::Open => 0,
        Outcome::Gone(_) => 0,
        Outcome::Final(stamp) => stamp,
    }
}
