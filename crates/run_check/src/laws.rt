// A law of the definitions. The function does nothing, and its contract is the law.
ghost use Rattle.run_check.specs.Laws.{OneVerdict};

use run_rules::least_is_one;

/// Of one text no two verdicts are right: so `check` says that a report is lawful exactly where it is, and of each other verdict too.
pub fn one_verdict()
    ensures { OneVerdict }
{
    least_is_one();
}
