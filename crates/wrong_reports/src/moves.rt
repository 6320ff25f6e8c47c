// Pulls, trims and syncs that are wrong.
ghost use Rattle.wrong_reports.specs.Cases.{IsUnlawful};
ghost use Rattle.wrong_reports.specs.Moves.{a_base_that_is_not_there, a_trim_beyond_the_snapshot};
ghost use Rattle.wrong_reports.specs.Moves.{trimmed_where_nothing_is, a_sync_of_what_was_trimmed};
ghost use Rattle.wrong_reports.specs.Moves.{another_region_taken_for_its_own, a_pull_that_leaves_a_node};
ghost use Rattle.wrong_reports.specs.Moves.{a_pull_of_more_nodes, a_pull_that_asks_again, a_pull_that_gives_twice};
ghost use Rattle.wrong_reports.specs.Moves.{trimmed_in_another_colour, a_give_of_more_than_was_held};

/// A trim tells the base.
#[tactic(auto, using(crate::proofs::WrongMoves::base_not_there))]
pub fn a_base_that_is_not_there_is_unlawful()
    ensures { IsUnlawful a_base_that_is_not_there }
{}

/// A trim is by the last snapshot.
#[tactic(auto, using(crate::proofs::WrongMoves::beyond_snapshot))]
pub fn a_trim_beyond_the_snapshot_is_unlawful()
    ensures { IsUnlawful a_trim_beyond_the_snapshot }
{}

/// A sync is refused only where a node that was not played is trimmed.
#[tactic(auto, using(crate::proofs::WrongMoves::nothing_trimmed))]
pub fn trimmed_where_nothing_is_is_unlawful()
    ensures { IsUnlawful trimmed_where_nothing_is }
{}

/// A sync plays nothing that is trimmed.
#[tactic(auto, using(crate::proofs::WrongMoves::trimmed_away))]
pub fn a_sync_of_what_was_trimmed_is_unlawful()
    ensures { IsUnlawful a_sync_of_what_was_trimmed }
{}

/// Only its own region is refused to a pull.
#[tactic(auto, using(crate::proofs::WrongMoves::its_own))]
pub fn another_region_taken_for_its_own_is_unlawful()
    ensures { IsUnlawful another_region_taken_for_its_own }
{}

/// After a pull all is held that stood at the give.
#[tactic(auto, using(crate::proofs::WrongMoves::leaves_a_node))]
pub fn a_pull_that_leaves_a_node_is_unlawful()
    ensures { IsUnlawful a_pull_that_leaves_a_node }
{}

/// A pull tells how many nodes it carried.
#[tactic(auto, using(crate::proofs::WrongMoves::more_carried))]
pub fn a_pull_of_more_nodes_is_unlawful()
    ensures { IsUnlawful a_pull_of_more_nodes }
{}

/// A pull asks from no lesser number than is held.
#[tactic(auto, using(crate::proofs::WrongMoves::asks_again))]
pub fn a_pull_that_asks_again_is_unlawful()
    ensures { IsUnlawful a_pull_that_asks_again }
{}

/// A pull asks for no more than was held before its carry.
#[tactic(auto, using(crate::proofs::WrongMoves::more_than_held))]
pub fn a_give_of_more_than_was_held_is_unlawful()
    ensures { IsUnlawful a_give_of_more_than_was_held }
{}

/// A pull gives again only where what it asked for was trimmed.
#[tactic(auto, using(crate::proofs::WrongMoves::gives_twice))]
pub fn a_pull_that_gives_twice_is_unlawful()
    ensures { IsUnlawful a_pull_that_gives_twice }
{}

/// A sync is refused only for a trim of its own colour.
#[tactic(auto, using(crate::proofs::WrongMoves::other_colour))]
pub fn trimmed_in_another_colour_is_unlawful()
    ensures { IsUnlawful trimmed_in_another_colour }
{}
