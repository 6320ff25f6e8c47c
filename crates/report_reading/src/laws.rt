//! Laws of the definitions. Each function does nothing, and its contract is the law.
ghost use Rattle.std.specs.Prelude.{◌≡◌};
ghost use Rattle.script_text.specs.declared.script.Script.{Script};
ghost use Rattle.report_text.specs.declared.report.Report.{Report};
ghost use Rattle.report_text.specs.ReportText.{report_bytes};
ghost use Rattle.report_reading.specs.Apart.{AreApart};
ghost use Rattle.report_reading.specs.Meant.{IsReportOf};

/// A text is that of one report of a script at most.
#[tactic(auto, using(crate::proofs::ReportLemmas::only_report))]
pub fn one_report()
    ensures { (script : Script) (r s : Report) → AreApart script → IsReportOf script r → IsReportOf script s → report_bytes r ≡ report_bytes s → r ≡ s }
{}
