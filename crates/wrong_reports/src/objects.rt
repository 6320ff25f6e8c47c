// Objects' replies that are wrong.
ghost use Rattle.wrong_reports.specs.Cases.{IsUnlawful};
ghost use Rattle.wrong_reports.specs.Objects.{refused_at_home, answered_away_from_home, another_home};
ghost use Rattle.wrong_reports.specs.Objects.{a_value_of_nothing, a_value_of_another_key, a_causal_value_of_nothing};
ghost use Rattle.wrong_reports.specs.Objects.{a_dequeue_answered_as_an_append, a_dequeue_of_nothing};
ghost use Rattle.wrong_reports.specs.Objects.{a_read_that_is_forgotten, a_commit_that_keeps_its_read};
ghost use Rattle.wrong_reports.specs.Objects.{a_conflict_with_nothing, many_values_of_nothing, a_read_of_nothing};
ghost use Rattle.wrong_reports.specs.Objects.{unread_where_nothing_is_trimmed, unread_for_another_colour};
ghost use Rattle.wrong_reports.specs.Objects.{unread_under_another_stamp, unread_before_it_is_settled};

/// At its home an object is not refused.
#[tactic(auto, using(crate::proofs::WrongObjects::at_home))]
pub fn refused_at_home_is_unlawful()
    ensures { IsUnlawful refused_at_home }
{}

/// Away from its home an object answers nothing.
#[tactic(auto, using(crate::proofs::WrongObjects::away))]
pub fn answered_away_from_home_is_unlawful()
    ensures { IsUnlawful answered_away_from_home }
{}

/// A refusal names the home of the object.
#[tactic(auto, using(crate::proofs::WrongObjects::home))]
pub fn another_home_is_unlawful()
    ensures { IsUnlawful another_home }
{}

/// A map answers what was put.
#[tactic(auto, using(crate::proofs::WrongObjects::value_of_nothing))]
pub fn a_value_of_nothing_is_unlawful()
    ensures { IsUnlawful a_value_of_nothing }
{}

/// Values are of the keys that were asked.
#[tactic(auto, using(crate::proofs::WrongObjects::another_key))]
pub fn a_value_of_another_key_is_unlawful()
    ensures { IsUnlawful a_value_of_another_key }
{}

/// A causal map answers what was put.
#[tactic(auto, using(crate::proofs::WrongObjects::causal))]
pub fn a_causal_value_of_nothing_is_unlawful()
    ensures { IsUnlawful a_causal_value_of_nothing }
{}

/// A dequeue tells what it took.
#[tactic(auto, using(crate::proofs::WrongObjects::no_append))]
pub fn a_dequeue_answered_as_an_append_is_unlawful()
    ensures { IsUnlawful a_dequeue_answered_as_an_append }
{}

/// A dequeue takes what was enqueued before it.
#[tactic(auto, using(crate::proofs::WrongObjects::of_nothing))]
pub fn a_dequeue_of_nothing_is_unlawful()
    ensures { IsUnlawful a_dequeue_of_nothing }
{}

/// A commit finds the read before it.
#[tactic(auto, using(crate::proofs::WrongObjects::forgotten))]
pub fn a_read_that_is_forgotten_is_unlawful()
    ensures { IsUnlawful a_read_that_is_forgotten }
{}

/// A commit uses its read up.
#[tactic(auto, using(crate::proofs::WrongObjects::keeps_read))]
pub fn a_commit_that_keeps_its_read_is_unlawful()
    ensures { IsUnlawful a_commit_that_keeps_its_read }
{}

/// A commit is told its verdict.
#[tactic(auto, using(crate::proofs::WrongVerdict::conflict))]
pub fn a_conflict_with_nothing_is_unlawful()
    ensures { IsUnlawful a_conflict_with_nothing }
{}

/// A read of several keys of a map answers what was put.
#[tactic(auto, using(crate::proofs::WrongUnread::many_values))]
pub fn many_values_of_nothing_is_unlawful()
    ensures { IsUnlawful many_values_of_nothing }
{}

/// A read of a transactional map answers what was committed.
#[tactic(auto, using(crate::proofs::WrongUnread::read_value))]
pub fn a_read_of_nothing_is_unlawful()
    ensures { IsUnlawful a_read_of_nothing }
{}

/// A dequeue is told unread for a trim only where a node that was not played is trimmed.
#[tactic(auto, using(crate::proofs::WrongUnread::nothing_trimmed))]
pub fn unread_where_nothing_is_trimmed_is_unlawful()
    ensures { IsUnlawful unread_where_nothing_is_trimmed }
{}

/// A dequeue is told unread for a trim of its own colour alone.
#[tactic(auto, using(crate::proofs::WrongUnread::other_colour))]
pub fn unread_for_another_colour_is_unlawful()
    ensures { IsUnlawful unread_for_another_colour }
{}

/// A dequeue that is told unread tells the stamp of its node.
#[tactic(auto, using(crate::proofs::WrongUnread::other_stamp))]
pub fn unread_under_another_stamp_is_unlawful()
    ensures { IsUnlawful unread_under_another_stamp }
{}

/// A commit that is told unread stands in all its colours.
#[tactic(auto, using(crate::proofs::WrongUnread::not_settled))]
pub fn unread_before_it_is_settled_is_unlawful()
    ensures { IsUnlawful unread_before_it_is_settled }
{}
