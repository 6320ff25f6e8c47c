// Rows: which rule is the least that a report breaks.
ghost use Rattle.least_rules.specs.Breaking.{Breaks};
ghost use Rattle.wrong_reports.specs.Rows.{an_outcome_of_other_marks};

/// An outcome is that of the marks.
#[tactic(auto, using(crate::proofs::WholeRow::other_outcome))]
pub fn an_outcome_of_other_marks_breaks_rule_3()
    ensures { Breaks an_outcome_of_other_marks 3 }
{}
