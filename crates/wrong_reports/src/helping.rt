// Phantoms, appends that stop and go on, and wrong helpers.
ghost use Rattle.wrong_reports.specs.Cases.{IsUnlawful};
ghost use Rattle.wrong_reports.specs.Helping.{a_phantom_of_another_region, a_phantom_of_nobody};
ghost use Rattle.wrong_reports.specs.Helping.{a_stopped_append_that_goes_on, a_stop_before_its_steps};
ghost use Rattle.wrong_reports.specs.Helping.{a_stop_after_other_steps, a_stop_for_the_stamps_end};
ghost use Rattle.wrong_reports.specs.Helping.{left_open_by_one_who_did_not_stop, a_row_left_open};
ghost use Rattle.wrong_reports.specs.Helping.{one_who_only_syncs_helps, one_who_only_stops_helps, one_of_another_region_helps};
ghost use Rattle.wrong_reports.specs.Helping.{a_helped_append_left_open, a_stop_before_its_decision};
ghost use Rattle.wrong_reports.specs.Helping.{a_stop_before_its_settling, a_helped_append_open_in_a_colour};

/// A row is of a client of its region.
#[tactic(auto, using(crate::proofs::WrongHelping::other_region))]
pub fn a_phantom_of_another_region_is_unlawful()
    ensures { IsUnlawful a_phantom_of_another_region }
{}

/// A row is of a client of the script.
#[tactic(auto, using(crate::proofs::WrongHelping::nobody))]
pub fn a_phantom_of_nobody_is_unlawful()
    ensures { IsUnlawful a_phantom_of_nobody }
{}

/// A stopped append takes no later step.
#[tactic(auto, using(crate::proofs::WrongHelping::goes_on))]
pub fn a_stopped_append_that_goes_on_is_unlawful()
    ensures { IsUnlawful a_stopped_append_that_goes_on }
{}

/// A stopped append took its steps.
#[tactic(auto, using(crate::proofs::WrongHelping::before_its_steps))]
pub fn a_stop_before_its_steps_is_unlawful()
    ensures { IsUnlawful a_stop_before_its_steps }
{}

/// A stop tells the steps that were asked.
#[tactic(auto, using(crate::proofs::WrongHelping::other_steps))]
pub fn a_stop_after_other_steps_is_unlawful()
    ensures { IsUnlawful a_stop_after_other_steps }
{}

/// A stop does not answer for the stamps' end.
#[tactic(auto, using(crate::proofs::WrongHelping::stamps_end))]
pub fn a_stop_for_the_stamps_end_is_unlawful()
    ensures { IsUnlawful a_stop_for_the_stamps_end }
{}

/// An open entry is of a client that stopped.
#[tactic(auto, using(crate::proofs::WrongHelping::did_not_stop))]
pub fn left_open_by_one_who_did_not_stop_is_unlawful()
    ensures { IsUnlawful left_open_by_one_who_did_not_stop }
{}

/// A row without an outcome is of a client that stopped.
#[tactic(auto, using(crate::proofs::WrongHelping::row_open))]
pub fn a_row_left_open_is_unlawful()
    ensures { IsUnlawful a_row_left_open }
{}

/// Who helps has a command that may help.
#[tactic(auto, using(crate::proofs::WrongHelping::syncs_only))]
pub fn one_who_only_syncs_helps_is_unlawful()
    ensures { IsUnlawful one_who_only_syncs_helps }
{}

/// A stop helps nobody.
#[tactic(auto, using(crate::proofs::WrongHelping::stops_only))]
pub fn one_who_only_stops_helps_is_unlawful()
    ensures { IsUnlawful one_who_only_stops_helps }
{}

/// Who helps is of the column's region.
#[tactic(auto, using(crate::proofs::WrongHelping::helps_elsewhere))]
pub fn one_of_another_region_helps_is_unlawful()
    ensures { IsUnlawful one_of_another_region_helps }
{}

/// A helped append is complete.
#[tactic(auto, using(crate::proofs::WrongHelping::left_open))]
pub fn a_helped_append_left_open_is_unlawful()
    ensures { IsUnlawful a_helped_append_left_open }
{}

/// An append that stopped after its decision has an outcome.
#[tactic(auto, using(crate::proofs::WrongStops::not_decided))]
pub fn a_stop_before_its_decision_is_unlawful()
    ensures { IsUnlawful a_stop_before_its_decision }
{}

/// An append that stopped after a settling is settled there.
#[tactic(auto, using(crate::proofs::WrongStops::not_settled))]
pub fn a_stop_before_its_settling_is_unlawful()
    ensures { IsUnlawful a_stop_before_its_settling }
{}

/// A helped append is settled in each colour that it entered.
#[tactic(auto, using(crate::proofs::WrongHelping::open_somewhere))]
pub fn a_helped_append_open_in_a_colour_is_unlawful()
    ensures { IsUnlawful a_helped_append_open_in_a_colour }
{}
