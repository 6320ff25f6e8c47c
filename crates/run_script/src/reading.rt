// What a reader takes from the report of a run.
ghost use Rattle.run_script.specs.Reading.{LawsForReaders};

use lawful_run::{
    causal_gets_are_folds, changes_are_folds, closing_lines_rise, decisions_are_folds,
    dequeues_are_folds, gets_are_folds, lists_are_folds, nothing_else_stands, one_command, one_key,
    one_order, reads_are_folds, returned_appends_stand, scans_are_whole, shown_as_appended,
    shown_once, undecided_are_folds, verdicts_are_folds,
};

/// What holds of the report of each lawful run of a script.
pub fn laws_for_readers()
    ensures { LawsForReaders }
{
    returned_appends_stand();
    closing_lines_rise();
    one_key();
    one_command();
    one_order();
    nothing_else_stands();
    shown_as_appended();
    shown_once();
    scans_are_whole();
    gets_are_folds();
    causal_gets_are_folds();
    dequeues_are_folds();
    reads_are_folds();
    verdicts_are_folds();
    changes_are_folds();
    lists_are_folds();
    undecided_are_folds();
    decisions_are_folds();
}
