// What a program in another language is told of a script and its report.
ghost use Rattle.std.specs.Prelude.{◌≡◌, ◌⊎◌, Some};
ghost use Rattle.run_check.specs.Verdicts.{IsVerdictOf};
ghost use Rattle.run_check.specs.declared.verdict.Verdict.{Verdict as Judged};
ghost use Rattle.fuzzylog_c.specs.Numbers.{NO_MEMORY, IsTold};

use run_check::{Verdict, check_texts};
use std::alloc::Global;

/// What is said of a script and its report, in two numbers.
#[repr(C)]
#[derive(Clone, Copy)]
pub struct Said {
    /// 0 where the report is that of a lawful run, 1 where it breaks a rule, 2 where the script is none, 3 where the report is too
    /// long, 4 where it is the text of no report of the script, 5 where an answer in it hides what was done, 6 where memory was
    /// refused.
    pub kind: u32,
    /// The rule that is the first to be broken for 1; the line of the script for 2, and that of the command for 5; else 0.
    pub number: u32,
}

// The numbers of a verdict.
fn numbers_of(verdict: Verdict) -> Said
    ensures { IsTold verdict result.kind result.number }
{
    let (kind, number) = match verdict {
        Verdict::Lawful => (0, 0),
        Verdict::Broken { rule } => (1, rule as u32),
        Verdict::NoScript { line, .. } => (2, line),
        Verdict::TooLong => (3, 0),
        Verdict::BadForm => (4, 0),
        Verdict::Hidden { line } => (5, line),
        Verdict::Missing => (7, 0),
    };
    Said { kind, number }
}

/// Judges the report with these bytes beside the script with these. It takes memory from the C library's heap,
/// waits for nothing, and may be called by several threads at once.
#[unsafe(no_mangle)]
pub extern "C" fn fuzzylog_check(alloc: Global, script: &[u8], report: &[u8]) -> Said
    ensures { (result.kind ≡ NO_MEMORY) ⊎ ((verdict : Judged) × IsVerdictOf script.now (Some report.now) verdict
        × IsTold verdict result.kind result.number) }
{
    match check_texts(alloc, script, report) {
        Ok(verdict) => numbers_of(verdict),
        Err(_) => Said { kind: 6, number: 0 },
    }
}
