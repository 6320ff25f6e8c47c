// Syncs, reads, pulls and trims that look elsewhere or at another time than they may.
ghost use Rattle.wrong_reports.specs.Cases.{IsUnlawful};
ghost use Rattle.wrong_reports.specs.Looks.{a_sync_behind_an_own_later_step};
ghost use Rattle.wrong_reports.specs.Looks.{a_refused_read_that_tells_a_later_colour, a_refused_read_that_raises_the_floor};
ghost use Rattle.wrong_reports.specs.Looks.{a_sync_of_another_colour, a_scan_of_another_text};
ghost use Rattle.wrong_reports.specs.Looks.{a_scan_under_another_stamp, a_trim_told_as_a_raise};
ghost use Rattle.wrong_reports.specs.Looks.{a_raise_behind_what_was_seen, a_raise_that_was_seen};
ghost use Rattle.wrong_reports.specs.Looks.{a_raise_before_its_clients_node_is_settled, a_read_that_leaves_the_floor};
ghost use Rattle.wrong_reports.specs.Looks.{a_trim_told_as_a_look, a_give_told_as_a_look, a_trim_told_as_a_give, a_sync_answered_as_a_trim};
ghost use Rattle.wrong_reports.specs.Looks.{a_carry_beyond_the_events, a_pull_behind_what_was_seen};
ghost use Rattle.wrong_reports.specs.Looks.{a_carry_that_was_seen, a_get_of_another_colour};
ghost use Rattle.wrong_reports.specs.Looks.{a_causal_get_of_another_colour, a_dequeue_of_another_colour};
ghost use Rattle.wrong_reports.specs.Looks.{a_value_of_another_text, a_refused_read_that_keeps_an_earlier_one};
ghost use Rattle.wrong_reports.specs.Looks.{a_causal_value_of_another_text};

/// A sync is of the colour that was asked.
#[tactic(auto, using(crate::proofs::WrongLooks::sync_elsewhere))]
pub fn a_sync_of_another_colour_is_unlawful()
    ensures { IsUnlawful a_sync_of_another_colour }
{}

/// Of several colours that refuse a read the least is told.
#[tactic(auto, using(crate::proofs::WrongLooks::later_colour))]
pub fn a_refused_read_that_tells_a_later_colour_is_unlawful()
    ensures { IsUnlawful a_refused_read_that_tells_a_later_colour }
{}

/// A read that was refused for a trim leaves its client's floor to what it played.
#[tactic(auto, using(crate::proofs::WrongLooks::floor_stays))]
pub fn a_refused_read_that_raises_the_floor_is_unlawful()
    ensures { IsUnlawful a_refused_read_that_raises_the_floor }
{}

/// The steps of a client's own append come after what it had seen.
#[tactic(auto, using(crate::proofs::WrongLooks::own_step_seen))]
pub fn a_sync_behind_an_own_later_step_is_unlawful()
    ensures { IsUnlawful a_sync_behind_an_own_later_step }
{}

/// A scan shows the text that was appended.
#[tactic(auto, using(crate::proofs::WrongLooks::other_text))]
pub fn a_scan_of_another_text_is_unlawful()
    ensures { IsUnlawful a_scan_of_another_text }
{}

/// A scan shows the stamp in the line.
#[tactic(auto, using(crate::proofs::WrongLooks::other_stamp))]
pub fn a_scan_under_another_stamp_is_unlawful()
    ensures { IsUnlawful a_scan_under_another_stamp }
{}

/// The event that a read names is its raise.
#[tactic(auto, using(crate::proofs::WrongLooks::trim_as_raise))]
pub fn a_trim_told_as_a_raise_is_unlawful()
    ensures { IsUnlawful a_trim_told_as_a_raise }
{}

/// A read looks at no less than was seen.
#[tactic(auto, using(crate::proofs::WrongLooks::raise_behind))]
pub fn a_raise_behind_what_was_seen_is_unlawful()
    ensures { IsUnlawful a_raise_behind_what_was_seen }
{}

/// A raise comes after what its client has seen.
#[tactic(auto, using(crate::proofs::WrongLooks::raise_seen))]
pub fn a_raise_that_was_seen_is_unlawful()
    ensures { IsUnlawful a_raise_that_was_seen }
{}

/// A raise by an event stands behind its client's own nodes too.
#[tactic(auto, using(crate::proofs::WrongLooks::raise_unsettled))]
pub fn a_raise_before_its_clients_node_is_settled_is_unlawful()
    ensures { IsUnlawful a_raise_before_its_clients_node_is_settled }
{}

/// A read raises the floor.
#[tactic(auto, using(crate::proofs::WrongLooks::leaves_floor))]
pub fn a_read_that_leaves_the_floor_is_unlawful()
    ensures { IsUnlawful a_read_that_leaves_the_floor }
{}

/// A trim names its event.
#[tactic(auto, using(crate::proofs::WrongLooks::trim_as_look))]
pub fn a_trim_told_as_a_look_is_unlawful()
    ensures { IsUnlawful a_trim_told_as_a_look }
{}

/// Only a trim is answered by the base after it.
#[tactic(auto, using(crate::proofs::WrongLooks::sync_as_trim))]
pub fn a_sync_answered_as_a_trim_is_unlawful()
    ensures { IsUnlawful a_sync_answered_as_a_trim }
{}

/// A pull names its give.
#[tactic(auto, using(crate::proofs::WrongLooks::give_as_look))]
pub fn a_give_told_as_a_look_is_unlawful()
    ensures { IsUnlawful a_give_told_as_a_look }
{}

/// The event that a pull names is its give.
#[tactic(auto, using(crate::proofs::WrongLooks::trim_as_give))]
pub fn a_trim_told_as_a_give_is_unlawful()
    ensures { IsUnlawful a_trim_told_as_a_give }
{}

/// A pull that carries nothing looks at events that are there.
#[tactic(auto, using(crate::proofs::WrongLooks::carry_beyond))]
pub fn a_carry_beyond_the_events_is_unlawful()
    ensures { IsUnlawful a_carry_beyond_the_events }
{}

/// A pull looks at no less than was seen.
#[tactic(auto, using(crate::proofs::WrongLooks::pull_behind))]
pub fn a_pull_behind_what_was_seen_is_unlawful()
    ensures { IsUnlawful a_pull_behind_what_was_seen }
{}

/// A carry comes after what its client has seen.
#[tactic(auto, using(crate::proofs::WrongLooks::carry_seen))]
pub fn a_carry_that_was_seen_is_unlawful()
    ensures { IsUnlawful a_carry_that_was_seen }
{}

/// A get syncs its key's colour.
#[tactic(auto, using(crate::proofs::WrongLooks::get_elsewhere))]
pub fn a_get_of_another_colour_is_unlawful()
    ensures { IsUnlawful a_get_of_another_colour }
{}

/// A get of a causal map syncs the map's colour.
#[tactic(auto, using(crate::proofs::WrongLooks::causal_elsewhere))]
pub fn a_causal_get_of_another_colour_is_unlawful()
    ensures { IsUnlawful a_causal_get_of_another_colour }
{}

/// A dequeue syncs the colour in which it stands.
#[tactic(auto, using(crate::proofs::WrongLooks::dequeue_elsewhere))]
pub fn a_dequeue_of_another_colour_is_unlawful()
    ensures { IsUnlawful a_dequeue_of_another_colour }
{}

/// An object reads the text that was appended.
#[tactic(auto, using(crate::proofs::WrongLooks::another_text))]
pub fn a_value_of_another_text_is_unlawful()
    ensures { IsUnlawful a_value_of_another_text }
{}

/// A causal map reads the text that was appended.
#[tactic(auto, using(crate::proofs::WrongCausal::another_text))]
pub fn a_causal_value_of_another_text_is_unlawful()
    ensures { IsUnlawful a_causal_value_of_another_text }
{}

/// A read lets an earlier read go, also where it is refused.
#[tactic(auto, using(crate::proofs::WrongLooks::keeps_earlier))]
pub fn a_refused_read_that_keeps_an_earlier_one_is_unlawful()
    ensures { IsUnlawful a_refused_read_that_keeps_an_earlier_one }
{}
