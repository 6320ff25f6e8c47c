// Appends that tell a wrong place.
ghost use Rattle.wrong_reports.specs.Cases.{IsUnlawful};
ghost use Rattle.wrong_reports.specs.Points.{an_append_in_another_colour, a_single_told_as_a_look};
ghost use Rattle.wrong_reports.specs.Points.{an_append_that_shows_a_node, an_append_of_what_was_seen};
ghost use Rattle.wrong_reports.specs.Points.{a_row_that_is_not_told, a_settling_told_as_the_proposal};
ghost use Rattle.wrong_reports.specs.Points.{anothers_proposal_told_as_its_own, a_look_before_the_proposal};
ghost use Rattle.wrong_reports.specs.Points.{a_point_beyond_the_events, a_proposal_that_was_seen};
ghost use Rattle.wrong_reports.specs.Points.{a_point_behind_what_was_seen};

/// An append to one colour is told in that colour.
#[tactic(auto, using(crate::proofs::WrongPoints::another_colour))]
pub fn an_append_in_another_colour_is_unlawful()
    ensures { IsUnlawful an_append_in_another_colour }
{}

/// An append to one colour names its own event.
#[tactic(auto, using(crate::proofs::WrongPoints::told_as_look))]
pub fn a_single_told_as_a_look_is_unlawful()
    ensures { IsUnlawful a_single_told_as_a_look }
{}

/// Only a sync and a scan show nodes.
#[tactic(auto, using(crate::proofs::WrongPoints::shows_node))]
pub fn an_append_that_shows_a_node_is_unlawful()
    ensures { IsUnlawful an_append_that_shows_a_node }
{}

/// A node enters after what its client has seen.
#[tactic(auto, using(crate::proofs::WrongPoints::single_seen))]
pub fn an_append_of_what_was_seen_is_unlawful()
    ensures { IsUnlawful an_append_of_what_was_seen }
{}

/// An append to several colours tells that it took a row.
#[tactic(auto, using(crate::proofs::WrongPoints::no_row_told))]
pub fn a_row_that_is_not_told_is_unlawful()
    ensures { IsUnlawful a_row_that_is_not_told }
{}

/// A point names the proposal.
#[tactic(auto, using(crate::proofs::WrongPoints::settling_told))]
pub fn a_settling_told_as_the_proposal_is_unlawful()
    ensures { IsUnlawful a_settling_told_as_the_proposal }
{}

/// A point names no other client's event.
#[tactic(auto, using(crate::proofs::WrongPoints::anothers_proposal))]
pub fn anothers_proposal_told_as_its_own_is_unlawful()
    ensures { IsUnlawful anothers_proposal_told_as_its_own }
{}

/// A point looks at the proposal of another client.
#[tactic(auto, using(crate::proofs::WrongPoints::before_proposal))]
pub fn a_look_before_the_proposal_is_unlawful()
    ensures { IsUnlawful a_look_before_the_proposal }
{}

/// A point looks at events that are there.
#[tactic(auto, using(crate::proofs::WrongPoints::beyond_events))]
pub fn a_point_beyond_the_events_is_unlawful()
    ensures { IsUnlawful a_point_beyond_the_events }
{}

/// A proposal comes after what its client has seen.
#[tactic(auto, using(crate::proofs::WrongPoints::proposal_seen))]
pub fn a_proposal_that_was_seen_is_unlawful()
    ensures { IsUnlawful a_proposal_that_was_seen }
{}

/// A point looks at no less than was seen.
#[tactic(auto, using(crate::proofs::WrongPoints::point_behind))]
pub fn a_point_behind_what_was_seen_is_unlawful()
    ensures { IsUnlawful a_point_behind_what_was_seen }
{}
