// Appends that are made only where nothing has come between, and are told otherwise.
ghost use Rattle.wrong_reports.specs.Cases.{IsUnlawful};
ghost use Rattle.wrong_reports.specs.Guarded.{an_only_that_was_not_next, an_only_beside_an_open_entry, a_moved_that_was_not};
ghost use Rattle.wrong_reports.specs.Guarded.{moved_to_another_length, moved_by_another_number, moved_behind_what_was_seen};
ghost use Rattle.wrong_reports.specs.Guarded.{moved_beyond_the_events, an_append_told_moved, one_who_appends_only_helps};

/// Such an append stands next in the line that its client has played.
#[tactic(auto, using(crate::proofs::WrongGuarded::not_next))]
pub fn an_only_that_was_not_next_is_unlawful()
    ensures { IsUnlawful an_only_that_was_not_next }
{}

/// It is not made behind an open entry.
#[tactic(auto, using(crate::proofs::WrongGuarded::beside_one))]
pub fn an_only_beside_an_open_entry_is_unlawful()
    ensures { IsUnlawful an_only_beside_an_open_entry }
{}

/// It is refused only where an entry was open or the line was not as long as its client had played.
#[tactic(auto, using(crate::proofs::WrongGuarded::not_moved))]
pub fn a_moved_that_was_not_is_unlawful()
    ensures { IsUnlawful a_moved_that_was_not }
{}

/// It is told how long the line was.
#[tactic(auto, using(crate::proofs::WrongGuarded::another_length))]
pub fn moved_to_another_length_is_unlawful()
    ensures { IsUnlawful moved_to_another_length }
{}

/// It is told how many entries were open.
#[tactic(auto, using(crate::proofs::WrongGuarded::another_number))]
pub fn moved_by_another_number_is_unlawful()
    ensures { IsUnlawful moved_by_another_number }
{}

/// It looks at no less than was seen.
#[tactic(auto, using(crate::proofs::WrongGuarded::behind_seen))]
pub fn moved_behind_what_was_seen_is_unlawful()
    ensures { IsUnlawful moved_behind_what_was_seen }
{}

/// It looks at events that are there.
#[tactic(auto, using(crate::proofs::WrongGuarded::beyond_events))]
pub fn moved_beyond_the_events_is_unlawful()
    ensures { IsUnlawful moved_beyond_the_events }
{}

/// Only such an append is told that the colour has moved.
#[tactic(auto, using(crate::proofs::WrongGuarded::append_moved))]
pub fn an_append_told_moved_is_unlawful()
    ensures { IsUnlawful an_append_told_moved }
{}

/// It helps nobody.
#[tactic(auto, using(crate::proofs::WrongGuarded::helps_nobody))]
pub fn one_who_appends_only_helps_is_unlawful()
    ensures { IsUnlawful one_who_appends_only_helps }
{}
