// Runs on threads.
use super::*;
use crate::tests::in_turn::has_all;
use crate::tests::large::{WITH_TURNS, after_appends};
use crate::tests::several::FEW_ROWS;
use crate::tests::stops::STOPS;
use fuzzy_io::Gate;
use memchr::memmem;
use std::sync::atomic::{AtomicBool, AtomicU64, Ordering};
use std::thread;

/// Lines from line 8 on in one region of which one client alone makes events, and the report, which is then the same in
/// every schedule.
const REPORTS: [(&str, &str); 6] = [
    // A second sync plays nothing again.
    (
        "a append x hi
a sync x
a sync x",
        "report 1
client a
8 append ok 1 x!0@0
9 sync ok x?1/1 plays 1
+ a.0 1 hi
10 sync ok x?1/1 plays 0
client b
client c
column r x
0 a single a.0 floor 0 wants 0 stamp 1
= clock 1 line a.0:1 queue - cut 1 base 0
column r y
= clock 0 line - queue - cut 0 base 0
",
    ),
    // A stop before the first step does nothing, one after it begins a row alone, and one after the last does all.
    (
        "a stop 0 x,y q
c stop 1 x,y q
b stop 6 x,y q",
        "report 1
client a
8 stop stopped 0
client b
10 stop stopped 6
client c
9 stop stopped 1
row r b.0 b.0 x=1 y=1 final 1
row r c.0 c.0 x=- y=- open
column r x
0 b propose b.0 floor 0 wants 0 stamp 1
1 b settle b.0 final 1
= clock 1 line b.0:1 queue - cut 1 base 0
column r y
0 b propose b.0 floor 0 wants 0 stamp 1
1 b settle b.0 final 1
= clock 1 line b.0:1 queue - cut 1 base 0
",
    ),
    // A read of two colours, of which one is behind.
    (
        "a append x,y p
a append y q
a scan y,x",
        "report 1
client a
8 append ok 1 row 0 x!0@0 y!0@0
9 append ok 2 y!2@1
10 scan ok 2 nodes 2 x!2 y?3 x?3/1 y?3/2
+ a.0 1 p
+ a.1 2 q
client b
client c
row r a.0 a.0 x=1 y=1 final 1
column r x
0 a propose a.0 floor 0 wants 0 stamp 1
1 a settle a.0 final 1
2 a raise 2
= clock 2 line a.0:1 queue - cut 1 base 0
column r y
0 a propose a.0 floor 0 wants 0 stamp 1
1 a settle a.0 final 1
2 a single a.1 floor 1 wants 0 stamp 2
= clock 2 line a.0:1,a.1:2 queue - cut 2 base 0
",
    ),
    // What is trimmed was played, and is read still.
    (
        "a append y one
a sync y
a trim y
a scan x,y
",
        "report 1
client a
8 append ok 1 y!0@0
9 sync ok y?1/1 plays 1
+ a.0 1 one
10 trim ok !1 base 1
11 scan ok 1 nodes 1 x!0 y?2 x?1/0 y?2/1
+ a.0 1 one
client b
client c
column r x
0 a raise 1
= clock 1 line - queue - cut 0 base 0
column r y
0 a single a.0 floor 0 wants 0 stamp 1
1 a trim 1
= clock 1 line a.0:1 queue - cut 1 base 1
",
    ),
    // An append of more colours stands behind one of its own, and reads see both.
    (
        "a append y p
a append x,y q
a sync y
",
        "report 1
client a
8 append ok 1 y!0@0
9 append ok 2 row 0 x!0@0 y!1@1
10 sync ok y?3/2 plays 2
+ a.0 1 p
+ a.1 2 q
client b
client c
row r a.0 a.1 x=2 y=2 final 2
column r x
0 a propose a.1 floor 1 wants 0 stamp 2
1 a settle a.1 final 2
= clock 2 line a.1:2 queue - cut 1 base 0
column r y
0 a single a.0 floor 0 wants 0 stamp 1
1 a propose a.1 floor 1 wants 0 stamp 2
2 a settle a.1 final 2
= clock 2 line a.0:1,a.1:2 queue - cut 2 base 0
",
    ),
    // A pull from the own region.
    (
        "a pull r x",
        "report 1
client a
8 pull sameregion
client b
client c
column r x
= clock 0 line - queue - cut 0 base 0
column r y
= clock 0 line - queue - cut 0 base 0
",
    ),
];

/// Does a script on threads, with what stands between the steps of appends.
pub fn run_at<R: Threads + Wait + Sync, G: Gate>(
    alloc: Global,
    rt: &R,
    script: &[u8],
    gate: &G,
) -> Result<(Status, MemorySink), AllocError> {
    let words = vec![in alloc; String::from_str(alloc, "run")?]?;
    let mut source = MemorySource::open(alloc, script, 1_000, &[])?;
    let mut sink = MemorySink::open(alloc, 1_000, &[])?;
    let status = run(alloc, rt, words.as_slice(), &mut source, &mut sink, gate);
    Ok((status, sink))
}

#[test]
fn what_one_client_does_alone_is_the_same_on_threads(rt: HostRuntime) -> Result<(), Fail> {
    all_leave(rt.alloc(), &rt, "run", ONE_REGION, &REPORTS)
}

#[test]
fn a_stop_leaves_its_first_steps_on_threads(rt: HostRuntime) -> Result<(), Fail> {
    all_leave(rt.alloc(), &rt, "run", ONE_REGION, &STOPS)
}

#[test]
fn a_client_has_so_many_rows_on_threads(rt: HostRuntime) -> Result<(), Fail> {
    all_leave(rt.alloc(), &rt, "run", WHOLE, &FEW_ROWS[..1])
}

#[test]
fn four_clients_fill_one_line(rt: HostRuntime) -> Result<(), Fail> {
    let mut script = String::from_str(
        rt.alloc(),
        "fuzzylog 1\nregions r\ncolours x\nclient a r\nclient b r\nclient c r\nclient d r\nbegin\n",
    )?;
    for _ in 0..200 {
        script.push_str("a append x p\nb append x p\nc append x p\nd append x p\n")?;
    }
    let (status, sink) = run_at(rt.alloc(), &rt, script.as_bytes(), &OpenGate)?;
    assert_eq!(rt; status, Status::Done);
    assert!(rt; sink.bytes().ends_with(b" queue - cut 800 base 0\n"));
    Ok(())
}

/// A service's users, jobs and notes as plain nodes, between two sites.
const SERVICE: &[u8] = b"fuzzylog 1
regions e w
colours x y z
client a e
client b e
client c w
client d w
begin
a append x p:user1=ann
a append y p:user2=bob
b append x p:user3=cyd
b append x,y m:user1=ada,user2=ben
a append z e:job1
b append z e:job2
a append z q:
b append z q:
c append x note1
d append x,y note2
c append y c:k1=v1
c pull e x
c sync x
d pull e y
d sync y
a pull w x
a sync x
a scan x,y
b sync y
d sync y
";

#[test]
fn a_small_service_comes_to_the_same_lines_in_every_schedule(rt: HostRuntime) -> Result<(), Fail> {
    let (status, sink) = run_at(rt.alloc(), &rt, SERVICE, &OpenGate)?;
    assert_eq!(rt; status, Status::Done);
    // How long the own lines are: that many nodes may be played of them.
    for part in [
        " queue - cut 3,",
        " queue - cut 2,0 base 0,0\ncolumn e z\n",
        " queue - cut 4,0 base 0,0\ncolumn w x\n",
        ",2 base 0,0\ncolumn w y\n",
        ",2 base 0,0\ncolumn w z\n= clock 0 line - queue - cut 0,0 base 0,0\n",
    ] {
        assert!(rt; memmem::find(sink.bytes(), part.as_bytes()).is_some());
    }
    for refusal in ["nomemory", "stampend", "full", "trimmed"] {
        assert!(rt; memmem::find(sink.bytes(), refusal.as_bytes()).is_none());
    }
    Ok(())
}

/// Holds the second client after its first step until the first client has passed its second, and the first client there
/// until the second has begun its second append to several colours.
#[derive(Drop)]
struct Beside {
    marked: AtomicBool,
    begun: AtomicU64,
    /// Whether a hold ended without what it waited for.
    late: AtomicBool,
}

impl Beside {
    // Waits until the other client has come so far; for so many turns at most.
    fn hold(&self, client: u8) {
        for _ in 0..1_000_000 {
            let met = if client == 0 {
                self.begun.load(Ordering::SeqCst) >= 2
            } else {
                self.marked.load(Ordering::SeqCst)
            };
            if met {
                return;
            }
            thread::yield_now();
        }
        self.late.store(true, Ordering::SeqCst);
    }
}

impl Gate for Beside {
    fn pass<R: Wait>(&self, _rt: &R, client: u8, step: u8) {
        if client == 0 && step == 2 {
            self.marked.store(true, Ordering::SeqCst);
            self.hold(client);
        }
        if client == 1 && step == 1 && self.begun.fetch_add(1, Ordering::SeqCst) == 0 {
            self.hold(client);
        }
    }
}

#[test]
fn an_append_returns_beside_one_that_is_between_two_marks(rt: HostRuntime) -> Result<(), Fail> {
    let script = b"fuzzylog 1\nregions r\ncolours x y\nclient a r\nclient b r\nbegin
a append x,y q\nb append x,y t\nb append x s\nb append x,y u\n";
    let gate = Beside {
        marked: AtomicBool::new(false),
        begun: AtomicU64::new(0),
        late: AtomicBool::new(false),
    };
    let (status, sink) = run_at(rt.alloc(), &rt, script, &gate)?;
    assert_eq!(rt; status, Status::Done);
    assert!(rt; !gate.late.load(Ordering::SeqCst));
    for part in [
        "\n8 append ok 2 row 0 x!1@0 y!0@0\n9 append ok 4 x!",
        "@2\n10 append ok ",
        "\nrow r a.0 a.0 x=1 y=3 final 3\n",
        " cut 4 base 0\ncolumn r y\n",
    ] {
        assert!(rt; memmem::find(sink.bytes(), part.as_bytes()).is_some());
    }
    assert!(rt; sink.bytes().ends_with(b" cut 3 base 0\n"));
    Ok(())
}

#[test]
fn two_clients_who_pull_at_once_bring_all_nodes(rt: HostRuntime) -> Result<(), Fail> {
    let lines =
        "a append m,n end\nb append o,p begin\nb pull e x\nc append q,r begin\nc pull e x\n";
    let script = after_appends(rt.alloc(), WITH_TURNS, 200, lines)?;
    has_all(
        rt.alloc(),
        &rt,
        script.as_bytes(),
        [1, 1, 0],
        &[
            "\n210 pull ok ",
            "\n212 pull ok ",
            "\n= clock 0 line - queue - cut 200,0 base 0,0\ncolumn w m\n",
        ],
    )
}
