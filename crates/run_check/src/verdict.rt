// What is said of a script and its report, and the line that says it.
ghost use Rattle.std.specs.Prelude.{◌≡◌, IfOk, string_bytes};
ghost use Rattle.report_text.specs.ReportText.{refusal_bytes};

use script_text::Reason;
use std::alloc::{AllocError, Global};

/// What is said of a script and its report.
#[derive(Clone, Copy, Debug, PartialEq, Eq)]
pub enum Verdict {
    /// The text before the report is no script, by this line, and for this reason.
    NoScript { line: u32, why: Reason },
    /// There is no report.
    Missing,
    /// The report has more bytes than one may have.
    TooLong,
    /// No report of the script has this text.
    BadForm,
    /// The reply to the command in this line is the first that hides what was done.
    Hidden { line: u32 },
    /// This rule of a lawful run is the least that the report breaks, from 1 to 14.
    Broken { rule: u8 },
    /// The report is that of a lawful run of the script.
    Lawful,
}

// The line that says why bytes are no script.
fn refusal(alloc: Global, line: u32, why: &str) -> Result<String, AllocError>
    ensures { IfOk result (λ text. string_bytes text ≡ refusal_bytes line why.now) }
{
    format!(in alloc; "refused: line {line}: {why}\n")
}

impl Verdict {
    ghost use Rattle.std.specs.Prelude.{◌≡◌, IfOk, string_bytes};
    ghost use Rattle.run_check.specs.Verdicts.{verdict_text};

    /// The line that says it.
    pub fn text(&self, alloc: Global) -> Result<String, AllocError>
        ensures { IfOk result (λ text. string_bytes text ≡ verdict_text self.now) }
    {
        match self {
            Verdict::NoScript { line, why } => refusal(alloc, *line, why.as_str()),
            Verdict::Missing => format!(in alloc; "refused: report: missing\n"),
            Verdict::TooLong => format!(in alloc; "refused: report: too long\n"),
            Verdict::BadForm => format!(in alloc; "refused: report: bad form\n"),
            Verdict::Hidden { line } => {
                format!(in alloc; "refused: report: hidden at line {line}\n")
            }
            Verdict::Broken { rule } => format!(in alloc; "broken L{rule}\n"),
            Verdict::Lawful => format!(in alloc; "lawful\n"),
        }
    }
}
