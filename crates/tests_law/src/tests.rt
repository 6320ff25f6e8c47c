// Which of the first nine rules reports are the first to break.
use crate::tests::runs::{Change, RUNS};
use name_law::scripts_name_apart;
use report_reading::read_report;
use run_law::least_of_nine;
use script_text::parse;
use std::alloc::Global;
use std::process::Abort;
use std::test::Fail;

mod runs;

// Of the first nine rules the report of the script breaks this one first, or none.
fn breaks<R: Abort>(
    rt: &R,
    alloc: Global,
    script: &str,
    report: &str,
    rule: Option<u8>,
) -> Result<(), Fail> {
    scripts_name_apart();
    let script = parse(alloc, script.as_bytes())?;
    let shown = read_report(alloc, &script, report.as_bytes())?;
    let least = least_of_nine(alloc, &script, &shown)?;
    assert_eq!(rt; least, rule, "at {report}");
    Ok(())
}

// So it is of the report where a part of it is changed.
fn change_breaks<R: Abort>(
    rt: &R,
    alloc: Global,
    script: &str,
    report: &str,
    change: &Change,
) -> Result<(), Fail> {
    let (right, wrong, rule) = *change;
    let (before, behind) = report.split_once(right).expect(rt, "the part is there");
    let mut changed = String::from_str(alloc, before)?;
    changed.push_str(wrong)?;
    changed.push_str(behind)?;
    breaks(rt, alloc, script, &changed, Some(rule))
}

#[test]
fn a_wrong_report_breaks_its_rule_first(rt: HostRuntime) -> Result<(), Fail> {
    for (script, report, changes) in RUNS {
        breaks(&rt, rt.alloc(), script, report, None)?;
        for change in changes {
            change_breaks(&rt, rt.alloc(), script, report, change)?;
        }
    }
    Ok(())
}
