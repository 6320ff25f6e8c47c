// Events that may not come.
ghost use Rattle.wrong_reports.specs.Cases.{IsUnlawful};
ghost use Rattle.wrong_reports.specs.Events.{a_base_that_forgets_another_region, a_stamp_that_is_not_next};
ghost use Rattle.wrong_reports.specs.Events.{an_id_that_enters_twice, a_settling_of_what_is_not_open};
ghost use Rattle.wrong_reports.specs.Events.{a_raise_to_the_clock, a_give_to_its_own_region, a_give_beyond_the_line};
ghost use Rattle.wrong_reports.specs.Events.{a_trim_with_a_stamp, an_event_by_nobody, a_carry_with_a_gap};
ghost use Rattle.wrong_reports.specs.Events.{a_carry_of_nothing, a_carry_of_its_own_region};
ghost use Rattle.wrong_reports.specs.Events.{a_carry_of_what_the_origin_lacks, a_carry_with_other_needs};
ghost use Rattle.wrong_reports.specs.Events.{noted_more_than_is_held};

/// Nothing is trimmed that another region has not asked past.
#[tactic(auto, using(crate::proofs::WrongEvents::base_forgets))]
pub fn a_base_that_forgets_another_region_is_unlawful()
    ensures { IsUnlawful a_base_that_forgets_another_region }
{}

/// A stamp is the next one.
#[tactic(auto, using(crate::proofs::WrongEvents::not_next))]
pub fn a_stamp_that_is_not_next_is_unlawful()
    ensures { IsUnlawful a_stamp_that_is_not_next }
{}

/// An id enters once.
#[tactic(auto, using(crate::proofs::WrongEvents::enters_twice))]
pub fn an_id_that_enters_twice_is_unlawful()
    ensures { IsUnlawful an_id_that_enters_twice }
{}

/// What is settled was open.
#[tactic(auto, using(crate::proofs::WrongEvents::not_open))]
pub fn a_settling_of_what_is_not_open_is_unlawful()
    ensures { IsUnlawful a_settling_of_what_is_not_open }
{}

/// A raise raises the clock.
#[tactic(auto, using(crate::proofs::WrongEvents::raise_to_clock))]
pub fn a_raise_to_the_clock_is_unlawful()
    ensures { IsUnlawful a_raise_to_the_clock }
{}

/// Nodes are given to another region.
#[tactic(auto, using(crate::proofs::WrongEvents::give_to_own))]
pub fn a_give_to_its_own_region_is_unlawful()
    ensures { IsUnlawful a_give_to_its_own_region }
{}

/// Nothing is given from beyond the line.
#[tactic(auto, using(crate::proofs::WrongEvents::give_beyond))]
pub fn a_give_beyond_the_line_is_unlawful()
    ensures { IsUnlawful a_give_beyond_the_line }
{}

/// Only what enters has a stamp.
#[tactic(auto, using(crate::proofs::WrongEvents::trim_with_stamp))]
pub fn a_trim_with_a_stamp_is_unlawful()
    ensures { IsUnlawful a_trim_with_a_stamp }
{}

/// Events are made by clients of the script.
#[tactic(auto, using(crate::proofs::WrongEvents::by_nobody))]
pub fn an_event_by_nobody_is_unlawful()
    ensures { IsUnlawful an_event_by_nobody }
{}

/// What is carried begins where what is held ends.
#[tactic(auto, using(crate::proofs::WrongEvents::carry_gap))]
pub fn a_carry_with_a_gap_is_unlawful()
    ensures { IsUnlawful a_carry_with_a_gap }
{}

/// A carry carries.
#[tactic(auto, using(crate::proofs::WrongEvents::carry_nothing))]
pub fn a_carry_of_nothing_is_unlawful()
    ensures { IsUnlawful a_carry_of_nothing }
{}

/// Nodes are carried of another region.
#[tactic(auto, using(crate::proofs::WrongEvents::carry_own))]
pub fn a_carry_of_its_own_region_is_unlawful()
    ensures { IsUnlawful a_carry_of_its_own_region }
{}

/// What is carried stands in the origin.
#[tactic(auto, using(crate::proofs::WrongEvents::lacks))]
pub fn a_carry_of_what_the_origin_lacks_is_unlawful()
    ensures { IsUnlawful a_carry_of_what_the_origin_lacks }
{}

/// What is carried has the needs that it has in the origin.
#[tactic(auto, using(crate::proofs::WrongEvents::other_needs))]
pub fn a_carry_with_other_needs_is_unlawful()
    ensures { IsUnlawful a_carry_with_other_needs }
{}

/// No more is asked past than is held.
#[tactic(auto, using(crate::proofs::WrongEvents::noted_more))]
pub fn noted_more_than_is_held_is_unlawful()
    ensures { IsUnlawful noted_more_than_is_held }
{}
