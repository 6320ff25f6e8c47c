// Syncs that show other nodes than they play.
ghost use Rattle.wrong_reports.specs.Cases.{IsUnlawful};
ghost use Rattle.wrong_reports.specs.Shown.{a_node_with_another_text, a_node_that_is_not_shown};
ghost use Rattle.wrong_reports.specs.Shown.{a_node_under_another_stamp, a_node_shown_twice, nodes_in_another_order};
ghost use Rattle.wrong_reports.specs.Shown.{a_node_that_wants_too_little, free_nodes_in_another_order};
ghost use Rattle.wrong_reports.specs.Shown.{a_text_of_an_unknown_node};

/// A node line shows the text that was appended.
#[tactic(auto, using(crate::proofs::WrongShown::another_text))]
pub fn a_node_with_another_text_is_unlawful()
    ensures { IsUnlawful a_node_with_another_text }
{}

/// Each node that is played is shown.
#[tactic(auto, using(crate::proofs::WrongShown::not_shown))]
pub fn a_node_that_is_not_shown_is_unlawful()
    ensures { IsUnlawful a_node_that_is_not_shown }
{}

/// A node line shows the stamp in the line.
#[tactic(auto, using(crate::proofs::WrongShown::under_another_stamp))]
pub fn a_node_under_another_stamp_is_unlawful()
    ensures { IsUnlawful a_node_under_another_stamp }
{}

/// No node is shown twice.
#[tactic(auto, using(crate::proofs::WrongShown::shown_twice))]
pub fn a_node_shown_twice_is_unlawful()
    ensures { IsUnlawful a_node_shown_twice }
{}

/// Nodes are shown in the order of play.
#[tactic(auto, using(crate::proofs::WrongShown::another_order))]
pub fn nodes_in_another_order_is_unlawful()
    ensures { IsUnlawful nodes_in_another_order }
{}

/// A node wants what its client has played.
#[tactic(auto, using(crate::proofs::WrongShown::wants_less))]
pub fn a_node_that_wants_too_little_is_unlawful()
    ensures { IsUnlawful a_node_that_wants_too_little }
{}

/// Of nodes that may both be played the one with the lesser key goes first.
#[tactic(auto, using(crate::proofs::WrongFree::free_order))]
pub fn free_nodes_in_another_order_is_unlawful()
    ensures { IsUnlawful free_nodes_in_another_order }
{}

/// A node that is shown is one that its client appended.
#[tactic(auto, using(crate::proofs::WrongFree::unknown_text))]
pub fn a_text_of_an_unknown_node_is_unlawful()
    ensures { IsUnlawful a_text_of_an_unknown_node }
{}
