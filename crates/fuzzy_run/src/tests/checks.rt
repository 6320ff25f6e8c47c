// Scripts with reports behind them, and what is said of the two.
use super::*;
use crate::tests::loads::ask;
use crate::tests::threads::run_at;
use crate::tests::versions::count_in;
use fuzzy_io::SteadySource;

/// One client appends to one colour, and syncs.
const SCRIPT: &str = "fuzzylog 1
regions r
colours x
client a r
begin
a append x hi
a sync x
";

/// What stands behind this script, how the check ends, and what is said.
const REPORTS: [(&str, Status, &str); 9] = [
    (
        "report 1
client a
6 append ok 1 x!0@0
7 sync ok x?1/1 plays 1
+ a.0 1 hi
column r x
0 a single a.0 floor 0 wants 0 stamp 1
= clock 1 line a.0:1 queue - cut 1 base 0
",
        Status::Done,
        "lawful\n",
    ),
    // Another clock in the closing line.
    (
        "report 1
client a
6 append ok 1 x!0@0
7 sync ok x?1/1 plays 1
+ a.0 1 hi
column r x
0 a single a.0 floor 0 wants 0 stamp 1
= clock 2 line a.0:1 queue - cut 1 base 0
",
        Status::Unlawful,
        "broken L2\n",
    ),
    // Another stamp in the reply to the append.
    (
        "report 1
client a
6 append ok 2 x!0@0
7 sync ok x?1/1 plays 1
+ a.0 1 hi
column r x
0 a single a.0 floor 0 wants 0 stamp 1
= clock 1 line a.0:1 queue - cut 1 base 0
",
        Status::Unlawful,
        "broken L6\n",
    ),
    // Another stamp in the sync's node line.
    (
        "report 1
client a
6 append ok 1 x!0@0
7 sync ok x?1/1 plays 1
+ a.0 2 hi
column r x
0 a single a.0 floor 0 wants 0 stamp 1
= clock 1 line a.0:1 queue - cut 1 base 0
",
        Status::Unlawful,
        "broken L9\n",
    ),
    // Without its closing line.
    (
        "report 1
client a
6 append ok 1 x!0@0
7 sync ok x?1/1 plays 1
+ a.0 1 hi
column r x
0 a single a.0 floor 0 wants 0 stamp 1
",
        Status::Refused,
        "refused: report: bad form\n",
    ),
    // A report of the other version.
    (
        "report 2
client a
6 append ok 1 x!0@0
7 sync ok x?1/1 plays 1
+ a.0 1 hi
column r x
0 a single a.0 floor 0 wants 0 stamp 1
= clock 1 line a.0:1 queue - cut 1 base 0
",
        Status::Refused,
        "refused: report: bad form\n",
    ),
    // Two replies hide what was done; the first one is told.
    (
        "report 1
client a
6 append nomemory
7 sync nomemory
column r x
= clock 0 line - queue - cut 0 base 0
",
        Status::Refused,
        "refused: report: hidden at line 6\n",
    ),
    ("", Status::Refused, "refused: report: missing\n"),
    // A faulty line of the script is told, whatever stands behind it.
    (
        "b sync x\nreport 1\n",
        Status::Refused,
        "refused: line 8: unknown client\n",
    ),
];

/// Scripts with reports behind them that break a rule, and which. (The second, the sixth and the ninth are broken above.)
const BROKEN: [(&str, &str); 11] = [
    // A command without a reply.
    (
        "fuzzylog 1
regions e
colours x
client a e
begin
a sync x
report 1
client a
column e x
= clock 0 line - queue - cut 0 base 0
",
        "broken L1\n",
    ),
    // A proposal whose row has no mark for it.
    (
        "fuzzylog 1
regions e
colours x y
rows 1
client a e
client b e
begin
a append x,y s
report 1
client a
8 append ok 1 row 0 x!0@0 y!0@0
client b
row e a.0 a.0 x=- y=1 open
column e x
0 a propose a.0 floor 0 wants 0 stamp 1
1 a settle a.0 final 1
= clock 1 line a.0:1 queue - cut 1 base 0
column e y
0 a propose a.0 floor 0 wants 0 stamp 1
1 a settle a.0 final 1
= clock 1 line a.0:1 queue - cut 1 base 0
",
        "broken L3\n",
    ),
    // One event is named by two trims.
    (
        "fuzzylog 1
regions e
colours x
client a e
begin
a trim x
a trim x
report 1
client a
6 trim ok !0 base 0
7 trim ok !0 base 0
column e x
0 a trim 0
= clock 0 line - queue - cut 0 base 0
",
        "broken L4\n",
    ),
    // A node without the floor of its client.
    (
        "fuzzylog 1
regions e
colours x
client a e
begin
a append x s
a append x s
report 1
client a
6 append ok 1 x!0@0
7 append ok 2 x!1@1
column e x
0 a single a.0 floor 0 wants 0 stamp 1
1 a single a.1 floor 0 wants 0 stamp 2
= clock 2 line a.0:1,a.1:2 queue - cut 2 base 0
",
        "broken L5\n",
    ),
    // A stopped append that goes on.
    (
        "fuzzylog 1
regions e
colours x y
rows 1
client a e
client b e
begin
a stop 1 x,y s
report 1
client a
8 stop stopped 1
client b
row e a.0 a.0 x=1 y=- open
column e x
0 a propose a.0 floor 0 wants 0 stamp 1
= clock 1 line - queue a.0:1? cut 0 base 0
column e y
= clock 0 line - queue - cut 0 base 0
",
        "broken L7\n",
    ),
    // What was helped is left open.
    (
        "fuzzylog 1
regions e
colours x y
rows 1
client a e
client b e
begin
a stop 2 x,y s
b append y t
report 1
client a
8 stop stopped 2
client b
9 append ok 1 y!0@0
row e a.0 a.0 x=1 y=2 open
column e x
0 a propose a.0 floor 0 wants 0 stamp 1
= clock 1 line - queue a.0:1? cut 0 base 0
column e y
0 b single b.0 floor 0 wants 0 stamp 1
1 b propose a.0 floor 0 wants 0 stamp 2
= clock 2 line b.0:1 queue a.0:2? cut 1 base 0
",
        "broken L8\n",
    ),
    // A value from an empty queue.
    (
        "fuzzylog 1
regions e
colours x
client a e
queue o e x
begin
a deq o
report 1
client a
7 deq ok v x!0@0 x?1/1
column e x
0 a single a.0 floor 0 wants 0 stamp 1
= clock 1 line a.0:1 queue - cut 1 base 0
",
        "broken L10\n",
    ),
    // A client that is at home is refused.
    (
        "fuzzylog 1
regions e
colours x
client a e
map o e x
begin
a put o k v
report 1
client a
7 put nothome e
column e x
= clock 0 line - queue - cut 0 base 0
",
        "broken L11\n",
    ),
    // An append that may only stand next, behind what its client has not read.
    (
        "fuzzylog 2
regions e
colours x
client a e
begin
a append x s
a only x t
report 2
client a
6 append ok 1 x!0@0
7 only ok 2 x!1@1
column e x
0 a single a.0 floor 0 wants 0 stamp 1
1 a single a.1 floor 1 wants 0 stamp 2
= clock 2 line a.0:1,a.1:2 queue - cut 2 base 0
",
        "broken L12\n",
    ),
    // A path that is not there is listed.
    (
        "fuzzylog 2
regions e
colours x
client a e
tree o e x
begin
a ls o /d
report 2
client a
7 ls ok 0 - x?0 x?0/0
column e x
= clock 0 line - queue - cut 0 base 0
",
        "broken L13\n",
    ),
    // A peek that waits for nothing.
    (
        "fuzzylog 2
regions e
colours x
client a e
parts o e x
begin
a peek o k
report 2
client a
7 peek undecided 1 x?0/0
column e x
= clock 0 line - queue - cut 0 base 0
",
        "broken L14\n",
    ),
];

/// The first replies among the rows that hide what was done, and what is said of these rows' reports.
const HIDING: [(&str, &str); 7] = [
    (
        "13 get trimmed x 2\n",
        "refused: report: hidden at line 13\n",
    ),
    (
        "12 peek trimmed y 1\n",
        "refused: report: hidden at line 12\n",
    ),
    (
        "18 get trimmed x 2,0\n",
        "refused: report: hidden at line 18\n",
    ),
    (
        "17 deq unread 7 trimmed x 6\n",
        "refused: report: hidden at line 17\n",
    ),
    (
        "15 scan trimmed y 3\n",
        "refused: report: hidden at line 15\n",
    ),
    (
        "13 read trimmed y 1\n",
        "refused: report: hidden at line 13\n",
    ),
    (
        "11 ls trimmed y 1\n",
        "refused: report: hidden at line 11\n",
    ),
];

/// What is said of the report of a row: that it is lawful, if it hides nothing.
fn said_of(report: &str) -> (Status, &'static str) {
    for (reply, said) in HIDING {
        if count_in(report.as_bytes(), reply.as_bytes()) > 0 {
            return (Status::Refused, said);
        }
    }
    (Status::Done, "lawful\n")
}

/// A script with what stands behind it. The last line of the script may lack its line feed.
fn together(alloc: Global, script: &str, report: &str) -> Result<String, AllocError> {
    let mut text = String::from_str(alloc, script)?;
    text.push('\n')?;
    text.push_str(report)?;
    Ok(text)
}

/// The report of a row is judged lawful, or it is told which reply hides what was done.
pub fn is_judged<R: Threads + Wait + Sync + Abort>(
    alloc: Global,
    rt: &R,
    script: &str,
    report: &str,
) -> Result<(), Fail> {
    let text = together(alloc, script, report)?;
    let (status, said) = said_of(report);
    leaves(alloc, rt, "check", text.as_bytes(), status, said.as_bytes())
}

#[test]
fn a_report_is_judged(rt: HostRuntime) -> Result<(), Fail> {
    for (report, status, said) in REPORTS {
        let text = script_of(rt.alloc(), SCRIPT, report)?;
        leaves(
            rt.alloc(),
            &rt,
            "check",
            text.as_bytes(),
            status,
            said.as_bytes(),
        )?;
    }
    Ok(())
}

#[test]
fn the_first_rule_that_is_broken_is_told(rt: HostRuntime) -> Result<(), Fail> {
    for (text, said) in BROKEN {
        leaves(
            rt.alloc(),
            &rt,
            "check",
            text.as_bytes(),
            Status::Unlawful,
            said.as_bytes(),
        )?;
    }
    Ok(())
}

#[test]
fn what_threads_leave_is_lawful(rt: HostRuntime) -> Result<(), Fail> {
    let mut text = Vec::new(rt.alloc());
    let script = ordinary::SERVICE.as_bytes();
    let (status, sink) = run_at(rt.alloc(), &rt, script, &OpenGate)?;
    assert_eq!(rt; status, Status::Done);
    text.extend_from_slice(script)?;
    text.extend_from_slice(sink.bytes())?;
    leaves(rt.alloc(), &rt, "check", &text, Status::Done, b"lawful\n")
}

/// How many bytes a report has, and what is said. Behind a script as long as one may be all of it is read, and not one byte more.
const LONG: [(usize, &str); 2] = [
    (16_777_216, "refused: report: bad form\n"),
    (16_777_217, "refused: report: too long\n"),
];

/// Fills up the text with `#` to so many bytes in all, of which the last one is a line feed.
fn pad(text: &mut Vec<u8>, bytes: usize) -> Result<(), AllocError> {
    let piece = [b'#'; 4_096];
    let wanted = bytes.saturating_sub(text.len()).saturating_sub(1);
    for _ in 0..wanted / piece.len() {
        text.extend_from_slice(&piece)?;
    }
    for _ in 0..wanted % piece.len() {
        text.push(b'#')?;
    }
    text.push(b'\n')?;
    Ok(())
}

/// A script as long as one may be, and what begins as a report behind it, of so many bytes.
fn padded(alloc: Global, report: usize) -> Result<Vec<u8>, AllocError> {
    let mut text = SCRIPT.as_bytes().to_vec(alloc)?;
    pad(&mut text, 1_048_576)?;
    text.extend_from_slice(b"report 1\n")?;
    pad(&mut text, report.saturating_add(1_048_576))?;
    Ok(text)
}

#[test]
fn a_report_has_up_to_16777216_bytes(rt: HostRuntime) -> Result<(), Fail> {
    for (report, said) in LONG {
        let text = padded(rt.alloc(), report)?;
        let mut source = SteadySource::open(rt.alloc(), &text)?;
        let (status, sink) = ask(rt.alloc(), &rt, &["check"], &mut source, &[], &OpenGate)?;
        assert_eq!(rt; status, Status::Refused);
        assert_eq!(rt; sink.bytes(), said.as_bytes());
    }
    Ok(())
}
