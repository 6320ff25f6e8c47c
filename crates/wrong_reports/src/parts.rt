// Replies to commands of a map that is played by its parts that are wrong.
ghost use Rattle.wrong_reports.specs.Cases.{IsUnlawful};
ghost use Rattle.wrong_reports.specs.Parts.{a_decision_that_says_the_opposite, a_value_where_a_transaction_waits};
ghost use Rattle.wrong_reports.specs.Parts.{nothing_to_decide_where_a_transaction_waits, undecided_where_nothing_waits};

/// A peek is undecided only where a transaction waits.
#[tactic(auto, using(crate::proofs::WrongParts::nothing_waits))]
pub fn undecided_where_nothing_waits_is_unlawful()
    ensures { IsUnlawful undecided_where_nothing_waits }
{}

/// A peek shows a value only where none waits.
#[tactic(auto, using(crate::proofs::WrongParts::value_waits))]
pub fn a_value_where_a_transaction_waits_is_unlawful()
    ensures { IsUnlawful a_value_where_a_transaction_waits }
{}

/// A decide finds nothing only where none waits.
#[tactic(auto, using(crate::proofs::WrongParts::nothing_decided))]
pub fn nothing_to_decide_where_a_transaction_waits_is_unlawful()
    ensures { IsUnlawful nothing_to_decide_where_a_transaction_waits }
{}

/// A decision says the verdict.
#[tactic(auto, using(crate::proofs::WrongParts::says_the_opposite))]
pub fn a_decision_that_says_the_opposite_is_unlawful()
    ensures { IsUnlawful a_decision_that_says_the_opposite }
{}
