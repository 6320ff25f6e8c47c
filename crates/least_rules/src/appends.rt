// Appends: which rule is the least that a report of one append breaks.
ghost use Rattle.least_rules.specs.Breaking.{Breaks};
ghost use Rattle.wrong_reports.specs.Naming.{a_single_of_nobody, an_append_under_another_stamp};
ghost use Rattle.wrong_reports.specs.Naming.{an_append_at_another_position};

/// What enters is the node of the command.
#[tactic(auto, using(crate::proofs::OneNode::of_nobody))]
pub fn a_single_of_nobody_breaks_rule_5()
    ensures { Breaks a_single_of_nobody 5 }
{}

/// An append tells the stamp of its event.
#[tactic(auto, using(crate::proofs::OneNode::under_another))]
pub fn an_append_under_another_stamp_breaks_rule_6()
    ensures { Breaks an_append_under_another_stamp 6 }
{}

/// An append names where its node stands.
#[tactic(auto, using(crate::proofs::OneNode::another_position))]
pub fn an_append_at_another_position_breaks_rule_6()
    ensures { Breaks an_append_at_another_position 6 }
{}
