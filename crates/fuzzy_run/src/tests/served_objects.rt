// Objects on threads.
use super::*;
use crate::tests::ordinary::SERVICE;
use crate::tests::threads::run_at;
use fuzzy_io::Gate;
use memchr::memmem;
use std::sync::atomic::{AtomicU64, Ordering};
use std::thread;

/// Scripts of which no two clients use one colour, and the report, which is then the same in every schedule.
const ALONE: [(&str, &str); 4] = [
    // A map answers the last put of a key, and none behind its deletion. A client of another region is refused.
    (
        "fuzzylog 1
regions e w
colours x y
client a e
client b w
map m e x
begin
a put m k 1
a put m k 2
a get m k
a del m k
a get m k
a get m j
b get m k
",
        "report 1
client a
8 put ok 1 x!0@0
9 put ok 2 x!1@1
10 get ok 2 x?2/2,0
11 del ok 3 x!2@2
12 get none x?3/3,0
13 get none x?3/3,0
client b
14 get nothome e
column e x
0 a single a.0 floor 0 wants 0,0 stamp 1
1 a single a.1 floor 1 wants 0,0 stamp 2
2 a single a.2 floor 2 wants 2,0 stamp 3
= clock 3 line a.0:1,a.1:2,a.2:3 queue - cut 3,0 base 0,0
column e y
= clock 0 line - queue - cut 0,0 base 0,0
column w x
= clock 0 line - queue - cut 0,0 base 0,0
column w y
= clock 0 line - queue - cut 0,0 base 0,0
",
    ),
    // A queue gives in the order of its line, and none where nothing waits.
    (
        "fuzzylog 1
regions e
colours x
client a e
queue q e x
begin
a deq q
a enq q v
a enq q w
a deq q
a deq q
a deq q
a pull e x
",
        "report 1
client a
7 deq none x!0@0 x?1/1
8 enq ok 2 x!1@1
9 enq ok 3 x!2@2
10 deq ok v x!3@3 x?4/4
11 deq ok w x!4@4 x?5/5
12 deq none x!5@5 x?6/6
13 pull sameregion
column e x
0 a single a.0 floor 0 wants 0 stamp 1
1 a single a.1 floor 1 wants 1 stamp 2
2 a single a.2 floor 2 wants 1 stamp 3
3 a single a.3 floor 3 wants 1 stamp 4
4 a single a.4 floor 4 wants 4 stamp 5
5 a single a.5 floor 5 wants 5 stamp 6
= clock 6 line a.0:1,a.1:2,a.2:3,a.3:4,a.4:5,a.5:6 queue - cut 6 base 0
",
    ),
    // A causal map answers the writes that no other one follows; another client's queue and map are elsewhere.
    (
        "fuzzylog 1
regions e w
colours x
client a e
client b w
causal c x
queue q e x
map m e x
begin
a put c k 2
a get c k
a put c k 3
a get c k
a get c j
b get c k
b enq q v
b deq q
b put m k v
b del m k
",
        "report 1
client a
10 put ok 1 x!0@0
11 get ok 2 x?1/1,0
12 put ok 2 x!1@1
13 get ok 3 x?2/2,0
14 get none x?2/2,0
client b
15 get none x?0/0,0
16 enq nothome e
17 deq nothome e
18 put nothome e
19 del nothome e
column e x
0 a single a.0 floor 0 wants 0,0 stamp 1
1 a single a.1 floor 1 wants 1,0 stamp 2
= clock 2 line a.0:1,a.1:2 queue - cut 2,0 base 0,0
column w x
= clock 0 line - queue - cut 0,0 base 0,0
",
    ),
    // One client puts and gets several keys, another one commits, and a third one is away from home. `b` is of the first shard
    // of each map, `a` and `c` are of the second. What was read before another transaction conflicts with it.
    (
        "fuzzylog 1
regions e w
colours x y z v
client a e
client b e
client c w
map m e x y
tx t e z v
begin
a putall m b=1 a=2
b read t b
a getall m a b
b append z t:b@-|b=7
a putall m a=3 c=4
b commit t b=8
a getall m a b c
b read t b
b commit t b=9
b read t a b
b commit t a=1 b=2
b read t b a
c putall m a=1
c getall m a
c read t b
c commit t b=1
",
        "report 1
client a
10 putall ok 1 row 0 x!0@0 y!0@0
12 getall ok 1 a=2 b=1 x?2 y?2 x?2/1,0 y?2/1,0
14 putall ok 2 y!2@1
16 getall ok 2 a=3 b=1 c=4 x!2 y?3 x?3/1,0 y?3/2,0
client b
11 read ok 0 b=- z?0 v?0 z?0/0,0 v?0/0,0
13 append ok 1 z!0@0
15 commit conflict b 1 z!1@1 at 2 z?2 v!0 z?2/2,0 v?1/0,0
17 read ok 2 b=7 z?2 v?1 z?2/2,0 v?1/0,0
18 commit committed 3 z!2@2 at 3 z?3 v!1 z?3/3,0 v?2/0,0
19 read ok 3 a=- b=9 z?3 v?2 z?3/3,0 v?2/0,0
20 commit committed 4 row 0 z!3@3 v!2@0 at 4 z?5 v?4 z?5/4,0 v?4/1,0
21 read ok 4 b=2 a=1 z?5 v?4 z?5/4,0 v?4/1,0
client c
22 putall nothome e
23 getall nothome e
24 read nothome e
25 commit nothome e
row e a.0 a.0 x=1 y=1 final 1
row e b.0 b.3 z=4 v=4 final 4
column e x
0 a propose a.0 floor 0 wants 0,0 stamp 1
1 a settle a.0 final 1
2 a raise 2
= clock 2 line a.0:1 queue - cut 1,0 base 0,0
column e y
0 a propose a.0 floor 0 wants 0,0 stamp 1
1 a settle a.0 final 1
2 a single a.1 floor 1 wants 1,0 stamp 2
= clock 2 line a.0:1,a.1:2 queue - cut 2,0 base 0,0
column e z
0 b single b.0 floor 0 wants 0,0 stamp 1
1 b single b.1 floor 1 wants 0,0 stamp 2
2 b single b.2 floor 2 wants 2,0 stamp 3
3 b propose b.3 floor 3 wants 3,0 stamp 4
4 b settle b.3 final 4
= clock 4 line b.0:1,b.1:2,b.2:3,b.3:4 queue - cut 4,0 base 0,0
column e v
0 b raise 2
1 b raise 3
2 b propose b.3 floor 3 wants 0,0 stamp 4
3 b settle b.3 final 4
= clock 4 line b.3:4 queue - cut 1,0 base 0,0
column w x
= clock 0 line - queue - cut 0,0 base 0,0
column w y
= clock 0 line - queue - cut 0,0 base 0,0
column w z
= clock 0 line - queue - cut 0,0 base 0,0
column w v
= clock 0 line - queue - cut 0,0 base 0,0
",
    ),
];

#[test]
fn what_clients_do_apart_with_objects_is_the_same_on_threads(rt: HostRuntime) -> Result<(), Fail> {
    all_leave(rt.alloc(), &rt, "run", WHOLE, &ALONE)
}

/// Two clients put in a job each, and take one.
const JOBS: &[u8] = b"fuzzylog 1
regions e
colours z
client a e
client b e
queue q e z
begin
a enq q job1
b enq q job2
a deq q
b deq q
";

/// Yields between the steps of appends, now and then for a while.
#[derive(Drop)]
struct Yielding {
    steps: AtomicU64,
}

impl Gate for Yielding {
    fn pass<R: Wait>(&self, _rt: &R, _client: u8, _step: u8) {
        let step = self.steps.fetch_add(1, Ordering::SeqCst);
        for _ in 0..step % 7 {
            thread::yield_now();
        }
    }
}

// Whether the bytes have this part.
fn has(bytes: &[u8], part: &str) -> bool {
    memmem::find(bytes, part.as_bytes()).is_some()
}

// What stands behind the first place of a part; nothing where there is none.
fn behind<'a>(bytes: &'a [u8], part: &str) -> &'a [u8] {
    match memmem::find(bytes, part.as_bytes()) {
        Some(at) => &bytes[at + part.len()..],
        None => &bytes[..0],
    }
}

// Whether the dequeues of two clients, whose reply lines begin so, took a job each.
fn take_each_job(bytes: &[u8], first: &str, second: &str) -> bool {
    let (a, b) = (behind(bytes, first), behind(bytes, second));
    (a.starts_with(b"job1 ") && b.starts_with(b"job2 "))
        || (a.starts_with(b"job2 ") && b.starts_with(b"job1 "))
}

#[test]
fn each_job_is_taken_once(rt: HostRuntime) -> Result<(), Fail> {
    for steps in 0..40 {
        let gate = Yielding {
            steps: AtomicU64::new(steps),
        };
        let (status, sink) = run_at(rt.alloc(), &rt, JOBS, &gate)?;
        assert_eq!(rt; status, Status::Done);
        assert!(rt; take_each_job(sink.bytes(), "\n10 deq ok ", "\n11 deq ok "));
        assert!(rt; sink.bytes().ends_with(b" queue - cut 4 base 0\n"));
    }
    Ok(())
}

/// Words of replies that refuse a command.
const REFUSALS: [&str; 9] = [
    " nomemory",
    " stampend",
    " full",
    " stopped",
    " trimmed",
    " sameregion",
    " nothome",
    " notx",
    " unread",
];

/// The columns of the service, and how many keys the own line of each has in the end.
const OWN_LINES: [(&str, usize); 6] = [
    ("\ncolumn e x\n", 3),
    ("\ncolumn e y\n", 2),
    ("\ncolumn e z\n", 4),
    ("\ncolumn w x\n", 2),
    ("\ncolumn w y\n", 2),
    ("\ncolumn w z\n", 0),
];

// How many keys the own line of a column has: each has a colon.
fn own_line(bytes: &[u8], column: &str) -> usize {
    let line = behind(behind(bytes, column), " line ");
    line.iter()
        .take_while(|b| **b != b' ')
        .filter(|b| **b == b':')
        .count()
}

// Whether no command of the service was refused, its own lines are as long as they have to be, and each job was taken once.
fn is_served(bytes: &[u8]) -> bool {
    for refusal in REFUSALS {
        if has(bytes, refusal) {
            return false;
        }
    }
    for (column, length) in OWN_LINES {
        if !has(bytes, column) || own_line(bytes, column) != length {
            return false;
        }
    }
    take_each_job(bytes, "\n18 deq ok ", "\n19 deq ok ")
}

#[test]
fn a_small_service_is_served_in_each_of_a_hundred_schedules(rt: HostRuntime) -> Result<(), Fail> {
    for steps in 0..100 {
        let gate = Yielding {
            steps: AtomicU64::new(steps),
        };
        let (status, sink) = run_at(rt.alloc(), &rt, SERVICE.as_bytes(), &gate)?;
        assert_eq!(rt; status, Status::Done);
        assert!(rt; is_served(sink.bytes()));
    }
    Ok(())
}
