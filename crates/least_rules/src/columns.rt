// Columns: which rule is the least that a report of one append breaks.
ghost use Rattle.least_rules.specs.Breaking.{Breaks};
ghost use Rattle.wrong_reports.specs.Events.{a_settling_of_what_is_not_open, a_stamp_that_is_not_next, a_trim_with_a_stamp};
ghost use Rattle.wrong_reports.specs.Events.{an_event_by_nobody, an_id_that_enters_twice};
ghost use Rattle.wrong_reports.specs.Columns.{a_missing_column, another_base, another_clock, another_colours_name};
ghost use Rattle.wrong_reports.specs.Columns.{another_cut, another_line, another_queue, another_regions_name, another_version};

/// The closing line shows the clock.
#[tactic(auto, using(crate::proofs::ColumnLaws::clock))]
pub fn another_clock_breaks_rule_2()
    ensures { Breaks another_clock 2 }
{}

/// The closing line shows the line.
#[tactic(auto, using(crate::proofs::ColumnLaws::line))]
pub fn another_line_breaks_rule_2()
    ensures { Breaks another_line 2 }
{}

/// The closing line shows the queue.
#[tactic(auto, using(crate::proofs::ColumnLaws::queue))]
pub fn another_queue_breaks_rule_2()
    ensures { Breaks another_queue 2 }
{}

/// The closing line shows the cut.
#[tactic(auto, using(crate::proofs::ColumnLaws::cut_shown))]
pub fn another_cut_breaks_rule_2()
    ensures { Breaks another_cut 2 }
{}

/// The closing line shows the base.
#[tactic(auto, using(crate::proofs::ColumnLaws::base))]
pub fn another_base_breaks_rule_2()
    ensures { Breaks another_base 2 }
{}

/// A column has its region's name.
#[tactic(auto, using(crate::proofs::ColumnLaws::region_name))]
pub fn another_regions_name_breaks_rule_1()
    ensures { Breaks another_regions_name 1 }
{}

/// A column has its colour's name.
#[tactic(auto, using(crate::proofs::ColumnLaws::colour_name))]
pub fn another_colours_name_breaks_rule_1()
    ensures { Breaks another_colours_name 1 }
{}

/// Each column is shown.
#[tactic(auto, using(crate::proofs::ColumnLaws::missing))]
pub fn a_missing_column_breaks_rule_1()
    ensures { Breaks a_missing_column 1 }
{}

/// A report has its script's version.
#[tactic(auto, using(crate::proofs::ColumnLaws::version))]
pub fn another_version_breaks_rule_1()
    ensures { Breaks another_version 1 }
{}

/// An id enters once.
#[tactic(auto, using(crate::proofs::ColumnLaws::enters_twice))]
pub fn an_id_that_enters_twice_breaks_rule_2()
    ensures { Breaks an_id_that_enters_twice 2 }
{}

/// What is settled was open.
#[tactic(auto, using(crate::proofs::ColumnLaws::not_open))]
pub fn a_settling_of_what_is_not_open_breaks_rule_2()
    ensures { Breaks a_settling_of_what_is_not_open 2 }
{}

/// Only what enters has a stamp.
#[tactic(auto, using(crate::proofs::ColumnLaws::trim_with_stamp))]
pub fn a_trim_with_a_stamp_breaks_rule_2()
    ensures { Breaks a_trim_with_a_stamp 2 }
{}

/// Events are made by clients of the script.
#[tactic(auto, using(crate::proofs::ColumnLaws::by_nobody))]
pub fn an_event_by_nobody_breaks_rule_2()
    ensures { Breaks an_event_by_nobody 2 }
{}

/// A stamp is the next one.
#[tactic(auto, using(crate::proofs::ColumnLaws::not_next))]
pub fn a_stamp_that_is_not_next_breaks_rule_2()
    ensures { Breaks a_stamp_that_is_not_next 2 }
{}
