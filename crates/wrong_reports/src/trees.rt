// Replies to commands of a tree that are wrong.
ghost use Rattle.wrong_reports.specs.Cases.{IsUnlawful};
ghost use Rattle.wrong_reports.specs.Trees.{a_change_told_otherwise, a_change_that_fails_for_another_reason};
ghost use Rattle.wrong_reports.specs.Trees.{a_list_with_a_name_too_many, a_path_that_is_not_missing, a_list_of_another_path};

/// A change is told what becomes of it among the nodes read behind it.
#[tactic(auto, using(crate::proofs::WrongTrees::told_otherwise))]
pub fn a_change_told_otherwise_is_unlawful()
    ensures { IsUnlawful a_change_told_otherwise }
{}

/// A change that fails is told the first reason.
#[tactic(auto, using(crate::proofs::WrongTrees::another_reason))]
pub fn a_change_that_fails_for_another_reason_is_unlawful()
    ensures { IsUnlawful a_change_that_fails_for_another_reason }
{}

/// A list has the names that are in the path, and no other.
#[tactic(auto, using(crate::proofs::WrongTrees::too_many))]
pub fn a_list_with_a_name_too_many_is_unlawful()
    ensures { IsUnlawful a_list_with_a_name_too_many }
{}

/// A path is missing only where it is not there.
#[tactic(auto, using(crate::proofs::WrongTrees::not_missing))]
pub fn a_path_that_is_not_missing_is_unlawful()
    ensures { IsUnlawful a_path_that_is_not_missing }
{}

/// A list is of the path that was asked.
#[tactic(auto, using(crate::proofs::WrongTrees::another_path))]
pub fn a_list_of_another_path_is_unlawful()
    ensures { IsUnlawful a_list_of_another_path }
{}
