// Laws of the runs in the order of the file. Each function does nothing but call the laws that it stands on, and its
// contract is the law.
ghost use Rattle.script_meaning.specs.Laws.{RunsAreLawful, RunsAreExact, ScriptsStopLast};

use object_form::reads_back;
use tree_fold::{names_are_answered, reads_back as changes_read_back};

/// The report of a run in the order of the file is that of a lawful run, wherever its commands find memory.
pub fn runs_are_lawful()
    ensures { RunsAreLawful }
{
    reads_back();
    changes_read_back();
    names_are_answered();
}

/// Where it tells nowhere of want of memory, it is the report of the one run in which memory is found everywhere.
pub fn runs_are_exact()
    ensures { RunsAreExact }
{
    reads_back();
    changes_read_back();
    names_are_answered();
}

/// What is read as a script has no command of a client after its stop.
pub fn scripts_stop_last()
    ensures { ScriptsStopLast }
{}
