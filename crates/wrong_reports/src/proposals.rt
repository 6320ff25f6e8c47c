// Rows, proposals and settlings that no command may leave so.
ghost use Rattle.wrong_reports.specs.Cases.{IsUnlawful};
ghost use Rattle.wrong_reports.specs.Proposals.{a_row_of_another_number, a_later_row_first, a_row_too_many};
ghost use Rattle.wrong_reports.specs.Proposals.{a_proposal_with_other_wants, a_proposal_in_another_colour};
ghost use Rattle.wrong_reports.specs.Proposals.{a_proposal_for_no_row, a_settling_with_a_stamp};
ghost use Rattle.wrong_reports.specs.Proposals.{a_stopped_append_that_settles, a_fence_of_what_was_proposed};
ghost use Rattle.wrong_reports.specs.Proposals.{gone_without_a_fence, a_trim_made_by_an_append};

/// A node names its row.
#[tactic(auto, using(crate::proofs::WrongProposals::another_number))]
pub fn a_row_of_another_number_is_unlawful()
    ensures { IsUnlawful a_row_of_another_number }
{}

/// A client's rows are shown in the order of their numbers.
#[tactic(auto, using(crate::proofs::WrongProposals::later_first))]
pub fn a_later_row_first_is_unlawful()
    ensures { IsUnlawful a_later_row_first }
{}

/// A client begins no more rows than it may.
#[tactic(auto, using(crate::proofs::WrongProposals::too_many))]
pub fn a_row_too_many_is_unlawful()
    ensures { IsUnlawful a_row_too_many }
{}

/// A proposal has the wants of its row's node.
#[tactic(auto, using(crate::proofs::WrongProposals::other_wants))]
pub fn a_proposal_with_other_wants_is_unlawful()
    ensures { IsUnlawful a_proposal_with_other_wants }
{}

/// A proposal is in a colour of its row's node.
#[tactic(auto, using(crate::proofs::WrongProposals::other_colour))]
pub fn a_proposal_in_another_colour_is_unlawful()
    ensures { IsUnlawful a_proposal_in_another_colour }
{}

/// A proposal is for a row.
#[tactic(auto, using(crate::proofs::WrongProposals::for_no_row))]
pub fn a_proposal_for_no_row_is_unlawful()
    ensures { IsUnlawful a_proposal_for_no_row }
{}

/// A settling gives no stamp.
#[tactic(auto, using(crate::proofs::WrongProposals::with_stamp))]
pub fn a_settling_with_a_stamp_is_unlawful()
    ensures { IsUnlawful a_settling_with_a_stamp }
{}

/// A stopped append settles no colour after its last step.
#[tactic(auto, using(crate::proofs::WrongProposals::still_settles))]
pub fn a_stopped_append_that_settles_is_unlawful()
    ensures { IsUnlawful a_stopped_append_that_settles }
{}

/// No proposal has a fence for memory as its mark.
#[tactic(auto, using(crate::proofs::WrongProposals::fenced_too))]
pub fn a_fence_of_what_was_proposed_is_unlawful()
    ensures { IsUnlawful a_fence_of_what_was_proposed }
{}

/// A row is gone only by a fence.
#[tactic(auto, using(crate::proofs::WrongProposals::without_fence))]
pub fn gone_without_a_fence_is_unlawful()
    ensures { IsUnlawful gone_without_a_fence }
{}

/// What an append does are steps of its own node.
#[tactic(auto, using(crate::proofs::WrongProposals::trim_made))]
pub fn a_trim_made_by_an_append_is_unlawful()
    ensures { IsUnlawful a_trim_made_by_an_append }
{}
