// What refused commands did that they may not have done, and refusals that do not come so.
ghost use Rattle.wrong_reports.specs.Cases.{IsUnlawful};
ghost use Rattle.wrong_reports.specs.Hidden.{a_hidden_raise_below_the_floor, a_hidden_raise_below_a_clock};
ghost use Rattle.wrong_reports.specs.Hidden.{a_hidden_raise_in_another_colour, a_gets_hidden_look_at_nothing};
ghost use Rattle.wrong_reports.specs.Hidden.{a_dequeues_hidden_look_at_nothing, a_refused_pull_that_gives_twice};
ghost use Rattle.wrong_reports.specs.Hidden.{a_refused_pull_that_carries, trimmed_by_nothing};
ghost use Rattle.wrong_reports.specs.Hidden.{a_base_behind_what_was_seen, a_stop_at_once_that_is_full};
ghost use Rattle.wrong_reports.specs.Hidden.{the_stamps_end_of_what_is_open, a_refused_give_of_more_than_was_held};

/// A read that found no memory raises to no stamp below its client's floor.
#[tactic(auto, using(crate::proofs::WrongRefusals::below_floor))]
pub fn a_hidden_raise_below_the_floor_is_unlawful()
    ensures { IsUnlawful a_hidden_raise_below_the_floor }
{}

/// Nor to one below a clock that was seen.
#[tactic(auto, using(crate::proofs::WrongRefusals::below_clock))]
pub fn a_hidden_raise_below_a_clock_is_unlawful()
    ensures { IsUnlawful a_hidden_raise_below_a_clock }
{}

/// Nor does it raise another colour than it reads.
#[tactic(auto, using(crate::proofs::WrongRefusals::other_colour))]
pub fn a_hidden_raise_in_another_colour_is_unlawful()
    ensures { IsUnlawful a_hidden_raise_in_another_colour }
{}

/// What a refused get played is a snapshot.
#[tactic(auto, using(crate::proofs::WrongRefusals::get_looks))]
pub fn a_gets_hidden_look_at_nothing_is_unlawful()
    ensures { IsUnlawful a_gets_hidden_look_at_nothing }
{}

/// What a refused dequeue played is a snapshot.
#[tactic(auto, using(crate::proofs::WrongRefusals::dequeue_looks))]
pub fn a_dequeues_hidden_look_at_nothing_is_unlawful()
    ensures { IsUnlawful a_dequeues_hidden_look_at_nothing }
{}

/// A refused pull gave once, and again only where what it asked for was trimmed.
#[tactic(auto, using(crate::proofs::WrongRefusals::gives_twice))]
pub fn a_refused_pull_that_gives_twice_is_unlawful()
    ensures { IsUnlawful a_refused_pull_that_gives_twice }
{}

/// A refused pull asks for no more than was held before its client's next step there.
#[tactic(auto, using(crate::proofs::WrongRefusals::more_than_held))]
pub fn a_refused_give_of_more_than_was_held_is_unlawful()
    ensures { IsUnlawful a_refused_give_of_more_than_was_held }
{}

/// A refused pull carries nothing.
#[tactic(auto, using(crate::proofs::WrongRefusals::carries))]
pub fn a_refused_pull_that_carries_is_unlawful()
    ensures { IsUnlawful a_refused_pull_that_carries }
{}

/// A refusal for a trim tells the base.
#[tactic(auto, using(crate::proofs::WrongRefusals::by_nothing))]
pub fn trimmed_by_nothing_is_unlawful()
    ensures { IsUnlawful trimmed_by_nothing }
{}

/// A refusal for a trim looks at no less than was seen.
#[tactic(auto, using(crate::proofs::WrongRefusals::earlier_base))]
pub fn a_base_behind_what_was_seen_is_unlawful()
    ensures { IsUnlawful a_base_behind_what_was_seen }
{}

/// A stop before the first step is never refused a row.
#[tactic(auto, using(crate::proofs::WrongRefusals::at_once))]
pub fn a_stop_at_once_that_is_full_is_unlawful()
    ensures { IsUnlawful a_stop_at_once_that_is_full }
{}

/// An append that no stamp was left for is open nowhere.
#[tactic(auto, using(crate::proofs::WrongRefusals::still_open))]
pub fn the_stamps_end_of_what_is_open_is_unlawful()
    ensures { IsUnlawful the_stamps_end_of_what_is_open }
{}
