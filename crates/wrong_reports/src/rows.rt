// Rows that are not as they may be.
ghost use Rattle.wrong_reports.specs.Cases.{IsUnlawful};
ghost use Rattle.wrong_reports.specs.Rows.{a_row_out_of_count, a_row_for_anothers_node, a_row_of_one_colour};
ghost use Rattle.wrong_reports.specs.Rows.{two_rows_for_one_node, rows_out_of_order, a_mark_that_was_not_proposed};
ghost use Rattle.wrong_reports.specs.Rows.{a_proposal_without_a_mark, a_proposal_without_a_row};
ghost use Rattle.wrong_reports.specs.Rows.{an_outcome_of_other_marks, a_settling_unlike_the_outcome};
ghost use Rattle.wrong_reports.specs.Rows.{a_settling_under_a_lesser_stamp, two_orders, full_too_early};
ghost use Rattle.wrong_reports.specs.Rows.{a_fence_with_stamps_left};

/// A client's rows are counted from 0.
#[tactic(auto, using(crate::proofs::WrongRows::out_of_count))]
pub fn a_row_out_of_count_is_unlawful()
    ensures { IsUnlawful a_row_out_of_count }
{}

/// A row is for its client's node.
#[tactic(auto, using(crate::proofs::WrongRows::anothers_node))]
pub fn a_row_for_anothers_node_is_unlawful()
    ensures { IsUnlawful a_row_for_anothers_node }
{}

/// A row has two colours or more.
#[tactic(auto, using(crate::proofs::WrongRows::one_colour))]
pub fn a_row_of_one_colour_is_unlawful()
    ensures { IsUnlawful a_row_of_one_colour }
{}

/// A node has one row.
#[tactic(auto, using(crate::proofs::WrongRows::one_node_twice))]
pub fn two_rows_for_one_node_is_unlawful()
    ensures { IsUnlawful two_rows_for_one_node }
{}

/// Rows are shown by client.
#[tactic(auto, using(crate::proofs::WrongRows::rows_order))]
pub fn rows_out_of_order_is_unlawful()
    ensures { IsUnlawful rows_out_of_order }
{}

/// A mark is what its column proposed.
#[tactic(auto, using(crate::proofs::WrongRows::not_proposed))]
pub fn a_mark_that_was_not_proposed_is_unlawful()
    ensures { IsUnlawful a_mark_that_was_not_proposed }
{}

/// What a column proposed is its mark.
#[tactic(auto, using(crate::proofs::WrongRows::without_mark))]
pub fn a_proposal_without_a_mark_is_unlawful()
    ensures { IsUnlawful a_proposal_without_a_mark }
{}

/// What is proposed has a row.
#[tactic(auto, using(crate::proofs::WrongRows::without_row))]
pub fn a_proposal_without_a_row_is_unlawful()
    ensures { IsUnlawful a_proposal_without_a_row }
{}

/// An outcome is that of the marks.
#[tactic(auto, using(crate::proofs::WrongRows::other_outcome))]
pub fn an_outcome_of_other_marks_is_unlawful()
    ensures { IsUnlawful an_outcome_of_other_marks }
{}

/// A settling has the outcome of its row.
#[tactic(auto, using(crate::proofs::WrongRows::unlike_outcome))]
pub fn a_settling_unlike_the_outcome_is_unlawful()
    ensures { IsUnlawful a_settling_unlike_the_outcome }
{}

/// A final stamp is not below the open one.
#[tactic(auto, using(crate::proofs::WrongRows::lesser_stamp))]
pub fn a_settling_under_a_lesser_stamp_is_unlawful()
    ensures { IsUnlawful a_settling_under_a_lesser_stamp }
{}

/// Two columns have two nodes in one order.
#[tactic(auto, using(crate::proofs::WrongRows::orders))]
pub fn two_orders_is_unlawful()
    ensures { IsUnlawful two_orders }
{}

/// A client is refused a row only where it has begun all.
#[tactic(auto, using(crate::proofs::WrongRows::full_early))]
pub fn full_too_early_is_unlawful()
    ensures { IsUnlawful full_too_early }
{}

/// A fence for the stamps' end stands only where no stamp is left.
#[tactic(auto, using(crate::proofs::WrongRows::fence))]
pub fn a_fence_with_stamps_left_is_unlawful()
    ensures { IsUnlawful a_fence_with_stamps_left }
{}
