// The first rule: what a report lists, and its replies beside their commands.
ghost use Rattle.std.specs.Prelude.{IfOk};
ghost use Rattle.script_text.specs.Fitting.{IsFitting};
ghost use Rattle.column_track.specs.Tracks.{Tells};
ghost use Rattle.run_rules.specs.Keeping.{Keeps};

use crate::listing::is_listed;
use crate::replies::are_replies;
use report_text::Report;
use script_text::Script;
use std::alloc::{AllocError, Global};

/// Whether a report keeps the first rule: it has its script's version and names, all columns and rows in their order, and for
/// each command of each client one reply, with an answer that the command can have.
pub fn keeps_first(alloc: Global, script: &Script, report: &Report) -> Result<bool, AllocError>
    requires { IsFitting script.now }
    ensures { IfOk result (λ it. Tells it (Keeps script.now report.now 1)) }
{
    if !is_listed(alloc, script, report)? {
        return Ok(false);
    }
    are_replies(alloc, script, report.clients.as_slice())
}
