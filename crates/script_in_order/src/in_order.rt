// The run of a script in the order of the file.
ghost use Rattle.std.specs.Prelude.{◌≡◌, ◌≤◌, IfOk};
ghost use Rattle.script_text.specs.Fitting.{IsFitting};
ghost use Rattle.lawful_run.specs.Lawful.{LawfulRun};
ghost use Rattle.script_meaning.specs.States.{StopsAreLast};
ghost use Rattle.script_meaning.specs.Meaning.{IsStepReport, FindsMemory, step_report};

use crate::folds::Folds;
use crate::reports::report;
use crate::run::{do_next, open_world, room_for_replies};
use log_node::MAX_ROWS;
use report_text::Report;
use script_meaning::{runs_are_exact, runs_are_lawful};
use script_text::Script;
use std::alloc::{AllocError, Global};

/// Runs the commands of a script in the order of the file. A command that finds no memory is answered so, and the
/// run goes on; `Err` means that there was no memory before the first command, or none for the report. The report is
/// that of a lawful run; where nothing tells of want of memory, it is the one report that is meant.
pub fn run_in_order(alloc: Global, script: &Script) -> Result<Report, AllocError>
    requires fits { IsFitting script.now }
    requires rows { script.now.shape.rows ≤ MAX_ROWS }
    requires stops { StopsAreLast script.now }
    ensures ok { IfOk result (IsStepReport script.now) }
    ensures lawful { IfOk result (LawfulRun script.now) }
    ensures exact { IfOk result (λ report. FindsMemory report → report ≡ step_report script.now) }
{
    runs_are_lawful();
    runs_are_exact();
    let mut world = open_world(alloc, script)?;
    let mut folds = Folds::open(alloc, script)?;
    let mut replies = room_for_replies(alloc, script)?;
    for place in 0..script.commands.len() {
        do_next(alloc, script, place, &mut world, &mut folds, &mut replies);
    }
    report(alloc, script, world, replies)
}
