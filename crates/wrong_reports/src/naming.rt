// Replies that name other events or nodes than they may.
ghost use Rattle.wrong_reports.specs.Cases.{IsUnlawful};
ghost use Rattle.wrong_reports.specs.Naming.{an_own_event_that_no_reply_names, an_event_named_twice};
ghost use Rattle.wrong_reports.specs.Naming.{events_named_out_of_order, an_event_seen_before_it_is_made};
ghost use Rattle.wrong_reports.specs.Naming.{a_look_behind_what_was_seen, an_event_that_is_not_there};
ghost use Rattle.wrong_reports.specs.Naming.{an_append_at_another_position, an_append_under_another_stamp};
ghost use Rattle.wrong_reports.specs.Naming.{an_append_not_above_the_floor, a_single_of_nobody};
ghost use Rattle.wrong_reports.specs.Naming.{no_stamp_with_stamps_left, a_full_that_needs_no_row};
ghost use Rattle.wrong_reports.specs.Naming.{a_floor_that_is_forgotten, a_raise_that_no_reply_names};
ghost use Rattle.wrong_reports.specs.Naming.{a_single_that_no_reply_names, an_append_that_reads};
ghost use Rattle.wrong_reports.specs.Naming.{an_append_refused_for_a_trim};

/// Each own event is of a command.
#[tactic(auto, using(crate::proofs::WrongNaming::own_event_left_out))]
pub fn an_own_event_that_no_reply_names_is_unlawful()
    ensures { IsUnlawful an_own_event_that_no_reply_names }
{}

/// No event is named twice.
#[tactic(auto, using(crate::proofs::WrongNaming::named_twice))]
pub fn an_event_named_twice_is_unlawful()
    ensures { IsUnlawful an_event_named_twice }
{}

/// Own events come in the order of the commands.
#[tactic(auto, using(crate::proofs::WrongNaming::out_of_order))]
pub fn events_named_out_of_order_is_unlawful()
    ensures { IsUnlawful events_named_out_of_order }
{}

/// An event that was seen is not made later.
#[tactic(auto, using(crate::proofs::WrongNaming::seen_before))]
pub fn an_event_seen_before_it_is_made_is_unlawful()
    ensures { IsUnlawful an_event_seen_before_it_is_made }
{}

/// No look sees less than an earlier one.
#[tactic(auto, using(crate::proofs::WrongNaming::look_behind))]
pub fn a_look_behind_what_was_seen_is_unlawful()
    ensures { IsUnlawful a_look_behind_what_was_seen }
{}

/// An event that is named is there.
#[tactic(auto, using(crate::proofs::WrongNaming::not_there))]
pub fn an_event_that_is_not_there_is_unlawful()
    ensures { IsUnlawful an_event_that_is_not_there }
{}

/// An append names where its node stands.
#[tactic(auto, using(crate::proofs::WrongNaming::another_position))]
pub fn an_append_at_another_position_is_unlawful()
    ensures { IsUnlawful an_append_at_another_position }
{}

/// An append tells the stamp of its event.
#[tactic(auto, using(crate::proofs::WrongNaming::another_stamp))]
pub fn an_append_under_another_stamp_is_unlawful()
    ensures { IsUnlawful an_append_under_another_stamp }
{}

/// An append's stamp is above its client's floor.
#[tactic(auto, using(crate::proofs::WrongNaming::not_above_floor))]
pub fn an_append_not_above_the_floor_is_unlawful()
    ensures { IsUnlawful an_append_not_above_the_floor }
{}

/// What enters is the node of the command.
#[tactic(auto, using(crate::proofs::WrongNaming::of_nobody))]
pub fn a_single_of_nobody_is_unlawful()
    ensures { IsUnlawful a_single_of_nobody }
{}

/// No stamp is left only at the last one.
#[tactic(auto, using(crate::proofs::WrongNaming::stamps_left))]
pub fn no_stamp_with_stamps_left_is_unlawful()
    ensures { IsUnlawful no_stamp_with_stamps_left }
{}

/// An append to one colour needs no row.
#[tactic(auto, using(crate::proofs::WrongNaming::no_row_needed))]
pub fn a_full_that_needs_no_row_is_unlawful()
    ensures { IsUnlawful a_full_that_needs_no_row }
{}

/// A node has its client's floor.
#[tactic(auto, using(crate::proofs::WrongNaming::forgotten))]
pub fn a_floor_that_is_forgotten_is_unlawful()
    ensures { IsUnlawful a_floor_that_is_forgotten }
{}

/// Raises are own steps.
#[tactic(auto, using(crate::proofs::WrongNaming::raise_unnamed))]
pub fn a_raise_that_no_reply_names_is_unlawful()
    ensures { IsUnlawful a_raise_that_no_reply_names }
{}

/// Singles are own steps.
#[tactic(auto, using(crate::proofs::WrongNaming::single_unnamed))]
pub fn a_single_that_no_reply_names_is_unlawful()
    ensures { IsUnlawful a_single_that_no_reply_names }
{}

/// Only a commit and a dequeue are told unread.
#[tactic(auto, using(crate::proofs::WrongNaming::reads_too))]
pub fn an_append_that_reads_is_unlawful()
    ensures { IsUnlawful an_append_that_reads }
{}

/// Only what syncs is refused for a trim.
#[tactic(auto, using(crate::proofs::WrongNaming::refused_for_trim))]
pub fn an_append_refused_for_a_trim_is_unlawful()
    ensures { IsUnlawful an_append_refused_for_a_trim }
{}
