// Stops: which rule is the least that a report breaks.
ghost use Rattle.least_rules.specs.Breaking.{Breaks};
ghost use Rattle.wrong_reports.specs.Helping.{a_row_left_open, a_stop_before_its_steps};

/// A stopped append took its steps.
#[tactic(auto, using(crate::proofs::OneRow::before_steps))]
pub fn a_stop_before_its_steps_breaks_rule_7()
    ensures { Breaks a_stop_before_its_steps 7 }
{}

/// A row without an outcome is of a client that stopped.
#[tactic(auto, using(crate::proofs::OneRow::left_open))]
pub fn a_row_left_open_breaks_rule_8()
    ensures { Breaks a_row_left_open 8 }
{}
