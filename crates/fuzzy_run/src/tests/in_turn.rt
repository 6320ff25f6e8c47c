// Clients on threads who act one after the other, as in the order of the file: each waits at its first step until the one before
// it has done what it does.
use super::*;
use crate::tests::threads::run_at;
use fuzzy_io::Gate;
use memchr::memmem;
use std::sync::atomic::{AtomicBool, AtomicU64, Ordering};
use std::thread;

/// Holds each client but the first at the first step of its first append to several colours, until the one before it has passed
/// so many steps; for so many turns at most.
#[derive(Drop)]
struct InTurn {
    wanted: [u64; 3],
    passed: [AtomicU64; 4],
    /// Whether a hold ended without what it waited for.
    late: AtomicBool,
}

impl InTurn {
    fn new(wanted: [u64; 3]) -> InTurn {
        InTurn {
            wanted,
            passed: [
                AtomicU64::new(0),
                AtomicU64::new(0),
                AtomicU64::new(0),
                AtomicU64::new(0),
            ],
            late: AtomicBool::new(false),
        }
    }

    // How many steps the client has passed.
    fn passed_by(&self, client: usize) -> u64 {
        match self.passed.get(client) {
            Some(passed) => passed.load(Ordering::SeqCst),
            None => 0,
        }
    }

    // Waits until the client has passed so many steps as the next one waits for.
    fn hold(&self, client: usize) {
        let wanted = self.wanted.get(client).copied().unwrap_or(0);
        for _ in 0..1_000_000 {
            if self.passed_by(client) >= wanted {
                return;
            }
            thread::yield_now();
        }
        self.late.store(true, Ordering::SeqCst);
    }
}

impl Gate for InTurn {
    fn pass<R: Wait>(&self, _rt: &R, client: u8, _step: u8) {
        let client = client as usize;
        if client > 0 && self.passed_by(client) == 0 {
            self.hold(client - 1);
        }
        if let Some(passed) = self.passed.get(client) {
            passed.fetch_add(1, Ordering::SeqCst);
        }
    }
}

/// A script, how many steps each client passes before the next one goes on, and a part of its report. Each client but the first
/// begins with an append to two colours of its own, whose first five steps it passes, and each but the last ends with one, of
/// which the first step counts.
pub type Row = (&'static str, [u64; 3], &'static str);

const SAME: [Row; 5] = [
    // A node comes to another region by a pull, and what answers it comes back; what all regions have is trimmed, and who comes
    // too late is told so.
    (
        "fuzzylog 1
regions e w
colours x m n o p q r s t
client a e
client b w
client c e
client d e
begin
a append x one
a append m,n end
b append o,p begin
b pull e x
b sync x
b append x two
b pull e x
b append o,p end
c append q,r begin
c pull w x
c sync x
c trim x
c append q,r end
d append s,t begin
d sync x
",
        [1, 6, 6],
        "
client d
22 append ok 1 row 0 s!0@0 t!0@0
23 sync trimmed x 1,1
",
    ),
    // In a third region a node waits for one that it needs.
    (
        "fuzzylog 1
regions e w n
colours x m n o p q r
client a e
client b w
client c n
begin
a append x one
a append m,n end
b append o,p begin
b pull e x
b sync x
b append x two
b append o,p end
c append q,r begin
c pull w x
c sync x
c pull e x
c sync x
",
        [1, 6, 0],
        "
17 sync ok x?1/0,0,0 plays 0
18 pull ok 1 give !2 carry !1
19 sync ok x?2/1,1,0 plays 2
",
    ),
    // A read shows a node of two colours once; the next one goes on behind it.
    (
        "fuzzylog 1
regions r
colours x y m n o p
client a r
client b r
map k r x y
begin
a append x,y m:a=1,b=2
a append m,n end
b append o,p begin
b scan x,y
b getall k a b
b put k a 3
b getall k a b
",
        [6, 0, 0],
        "
11 scan ok 1 nodes 1 x?2 y?2 x?2/1 y?2/1
+ a.0 1 m:a=1,b=2
12 getall ok 1 a=1 b=2 x?2 y?2 x?2/1 y?2/1
",
    ),
    // What one client puts, another gets; what one enqueues, another takes; and a write that follows others ends them.
    (
        "fuzzylog 1
regions e w
colours x y z m n o p q r
client a e
client b w
client c e
map k e x y
queue q e z
causal n y
begin
a put k i 1
a put k j 2
a enq q v
a enq q w
a put n i 4
a append m,n end
b append o,p begin
b put n i 5
b get n i
b append o,p end
c append q,r begin
c get k i
c del k i
c get k i
c deq q
c deq q
c deq q
c pull w y
c get n i
c put n i 6
c get n i
",
        [1, 6, 0],
        "
29 get ok 4,5 ",
    ),
    // Who comes after nodes were trimmed reads nothing and so commits nothing, and has a dequeue's node unread.
    (
        "fuzzylog 1
regions r
colours x y z m n o p
client a r
client b r
tx t r x y
queue q r z
begin
a read t b
a commit t b=7
a enq q v
a deq q
a trim x
a trim z
a append m,n end
b append o,p begin
b read t b
b commit t b=8
b deq q
",
        [1, 0, 0],
        "
17 read trimmed x 1
18 commit notx
19 deq unread 4 trimmed z 2
",
    ),
];

/// The script is done on threads as in the order of the file, and its report has the part.
pub fn is_the_same<R: Threads + Wait + Sync + Abort>(
    alloc: Global,
    rt: &R,
    script: &[u8],
    wanted: [u64; 3],
    part: &str,
) -> Result<(), Fail> {
    let (status, report) = step_on(alloc, rt, script)?;
    assert_eq!(rt; status, Status::Done);
    assert!(rt; memmem::find(report.bytes(), part.as_bytes()).is_some());
    let gate = InTurn::new(wanted);
    leaves_at(alloc, rt, script, &gate, report.bytes())?;
    assert!(rt; !gate.late.load(Ordering::SeqCst));
    Ok(())
}

/// On threads the script is done and writes these bytes.
fn leaves_at<R: Threads + Wait + Sync + Abort>(
    alloc: Global,
    rt: &R,
    script: &[u8],
    gate: &InTurn,
    bytes: &[u8],
) -> Result<(), Fail> {
    let (status, sink) = run_at(alloc, rt, script, gate)?;
    assert_eq!(rt; status, Status::Done);
    assert_eq!(rt; sink.bytes(), bytes);
    Ok(())
}

/// The scripts are done on threads as in the order of the file, and their reports have the parts.
pub fn all_are_the_same<R: Threads + Wait + Sync + Abort>(
    alloc: Global,
    rt: &R,
    rows: &[Row],
) -> Result<(), Fail> {
    for (script, wanted, part) in rows {
        is_the_same(alloc, rt, script.as_bytes(), *wanted, part)?;
    }
    Ok(())
}

#[test]
fn what_clients_do_in_turn_is_the_same_on_threads(rt: HostRuntime) -> Result<(), Fail> {
    all_are_the_same(rt.alloc(), &rt, &SAME)
}

/// What another client does once the first has marked its append in x, which stops after its mark in y; and parts of the report.
/// It begins with an append to two colours of its own.
const BEHIND_A_STOP: [(&str, [&str; 3]); 2] = [
    // Who appends above it completes it.
    (
        "b append x two\n",
        [
            "\n7 stop stopped 3\n",
            "\n9 append ok 2 x!1@1\n",
            "\nrow r a.0 a.0 x=1 y=1 final 1\n",
        ],
    ),
    // Who reads completes it, and shows it.
    (
        "b scan x\n",
        [
            "\n7 stop stopped 3\n",
            "\n9 scan ok 1 nodes 1 x?1 x?2/1\n+ a.0 1 q\n",
            "\n0 a propose a.0 floor 0 wants 0 stamp 1\n1 b settle a.0 final 1\n= clock 1 line a.0:1 queue",
        ],
    ),
];

const STOPPED: &str = "fuzzylog 1\nregions r\ncolours x y o p\nclient a r\nclient b r\nbegin
a stop 3 x,y q\nb append o,p begin\n";

/// On threads, where each client passes so many steps before the next one goes on, the script is done, and its report has all
/// these parts.
pub fn has_all<R: Threads + Wait + Sync + Abort>(
    alloc: Global,
    rt: &R,
    script: &[u8],
    wanted: [u64; 3],
    parts: &[&str],
) -> Result<(), Fail> {
    let gate = InTurn::new(wanted);
    let (status, sink) = run_at(alloc, rt, script, &gate)?;
    assert_eq!(rt; status, Status::Done);
    assert!(rt; !gate.late.load(Ordering::SeqCst));
    for part in parts {
        assert!(rt; memmem::find(sink.bytes(), part.as_bytes()).is_some());
    }
    Ok(())
}

#[test]
fn who_meets_a_stop_on_threads_completes_it(rt: HostRuntime) -> Result<(), Fail> {
    for (lines, parts) in BEHIND_A_STOP {
        let script = script_of(rt.alloc(), STOPPED, lines)?;
        has_all(rt.alloc(), &rt, script.as_bytes(), [2, 0, 0], &parts)?;
    }
    Ok(())
}
