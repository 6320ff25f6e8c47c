// Replies to an append to several colours that are unlike its row.
ghost use Rattle.wrong_reports.specs.Cases.{IsUnlawful};
ghost use Rattle.wrong_reports.specs.Several.{another_rows_number, a_colour_without_a_point};
ghost use Rattle.wrong_reports.specs.Several.{stood_before_it_is_settled, stood_before_it_is_decided};
ghost use Rattle.wrong_reports.specs.Several.{a_row_that_no_command_began, an_append_to_several_that_leaves_the_floor};
ghost use Rattle.wrong_reports.specs.Several.{a_look_before_its_own_settling, its_own_proposal_told_as_a_look};
ghost use Rattle.wrong_reports.specs.Several.{no_memory_for_what_stands, the_stamps_end_of_a_greater_colour};
ghost use Rattle.wrong_reports.specs.Several.{a_single_with_a_rows_node, a_row_of_an_unknown_node};
ghost use Rattle.wrong_reports.specs.Several.{full_of_another_number, a_proposal_over_another_floor};
ghost use Rattle.wrong_reports.specs.Several.{no_memory_for_what_is_open};

/// An append tells its row.
#[tactic(auto, using(crate::proofs::WrongSeveral::rows_number))]
pub fn another_rows_number_is_unlawful()
    ensures { IsUnlawful another_rows_number }
{}

/// An append has a point in each of its colours.
#[tactic(auto, using(crate::proofs::WrongSeveral::without_point))]
pub fn a_colour_without_a_point_is_unlawful()
    ensures { IsUnlawful a_colour_without_a_point }
{}

/// An append that was answered stands in its colours.
#[tactic(auto, using(crate::proofs::WrongSeveral::not_settled))]
pub fn stood_before_it_is_settled_is_unlawful()
    ensures { IsUnlawful stood_before_it_is_settled }
{}

/// An append that was answered is final.
#[tactic(auto, using(crate::proofs::WrongSeveral::not_decided))]
pub fn stood_before_it_is_decided_is_unlawful()
    ensures { IsUnlawful stood_before_it_is_decided }
{}

/// Each row is begun by a command.
#[tactic(auto, using(crate::proofs::WrongSeveral::no_command))]
pub fn a_row_that_no_command_began_is_unlawful()
    ensures { IsUnlawful a_row_that_no_command_began }
{}

/// An append to several colours raises the floor.
#[tactic(auto, using(crate::proofs::WrongSeveral::leaves_floor))]
pub fn an_append_to_several_that_leaves_the_floor_is_unlawful()
    ensures { IsUnlawful an_append_to_several_that_leaves_the_floor }
{}

/// A look comes after all own events.
#[tactic(auto, using(crate::proofs::WrongSeveral::before_settling))]
pub fn a_look_before_its_own_settling_is_unlawful()
    ensures { IsUnlawful a_look_before_its_own_settling }
{}

/// Only what another client proposed is told as a look.
#[tactic(auto, using(crate::proofs::WrongSeveral::told_as_look))]
pub fn its_own_proposal_told_as_a_look_is_unlawful()
    ensures { IsUnlawful its_own_proposal_told_as_a_look }
{}

/// An append that found no memory stands nowhere.
#[tactic(auto, using(crate::proofs::WrongSeveral::without_memory))]
pub fn no_memory_for_what_stands_is_unlawful()
    ensures { IsUnlawful no_memory_for_what_stands }
{}

/// An append tells the least colour that has no stamp left.
#[tactic(auto, using(crate::proofs::WrongNodes::greater_colour))]
pub fn the_stamps_end_of_a_greater_colour_is_unlawful()
    ensures { IsUnlawful the_stamps_end_of_a_greater_colour }
{}

/// What enters by a single has no row.
#[tactic(auto, using(crate::proofs::WrongNodes::has_row))]
pub fn a_single_with_a_rows_node_is_unlawful()
    ensures { IsUnlawful a_single_with_a_rows_node }
{}

/// A row is for a node that its client appended.
#[tactic(auto, using(crate::proofs::WrongNodes::unknown_node))]
pub fn a_row_of_an_unknown_node_is_unlawful()
    ensures { IsUnlawful a_row_of_an_unknown_node }
{}

/// A client that is refused a row is told how many it has begun.
#[tactic(auto, using(crate::proofs::WrongNodes::other_number))]
pub fn full_of_another_number_is_unlawful()
    ensures { IsUnlawful full_of_another_number }
{}

/// A proposal has the floor of its row's node.
#[tactic(auto, using(crate::proofs::WrongNodes::other_floor))]
pub fn a_proposal_over_another_floor_is_unlawful()
    ensures { IsUnlawful a_proposal_over_another_floor }
{}

/// An append that found no memory is open nowhere.
#[tactic(auto, using(crate::proofs::WrongStops::still_open))]
pub fn no_memory_for_what_is_open_is_unlawful()
    ensures { IsUnlawful no_memory_for_what_is_open }
{}
