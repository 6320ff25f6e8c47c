// A transactional map that is played by one colour: what that colour's line tells of a key, transactions of which it does not tell
// whether they commit, and decisions. The shard of `a` is y, that of `b` is x.
use super::*;
use crate::tests::in_turn::{Row as Turns, all_are_the_same};
use crate::tests::refusals::{Row, all_refused};

/// What scripts begin with: two clients and such a map in one region with two colours; commands begin at line 8.
const PARTS: &str =
    "fuzzylog 2\nregions r\ncolours x y\nclient a r\nclient b r\nparts p r x y\nbegin\n";

/// Lines from line 8 on, and the report.
const REPORTS: [(&str, &str); 5] = [
    // A transaction that read a key of y stands in x, and x alone does not tell whether it commits: who has all colours read says so
    // in x, and from then on x tells.
    (
        "a read p a
a commit p b=7
b peek p b
b decide p b
b peek p b
b decide p b
",
        "report 2
client a
8 read ok 0 a=- x?0 y?0 x?0/0 y?0/0
9 commit committed 1 row 0 x!0@0 y!0@0 at 1 x?2 y?2 x?2/1 y?2/1
client b
10 peek undecided 1 x?2/1
11 decide committed 1 x?2/1 at 1 x?2 y?2 x?2/1 y?2/1 ok 2 x!2@1
12 peek ok 7 x?3/2
13 decide none x?3/2
row r a.0 a.0 x=1 y=1 final 1
column r x
0 a propose a.0 floor 0 wants 0 stamp 1
1 a settle a.0 final 1
2 b single b.0 floor 1 wants 1 stamp 2
= clock 2 line a.0:1,b.0:2 queue - cut 2 base 0
column r y
0 a propose a.0 floor 0 wants 0 stamp 1
1 a settle a.0 final 1
= clock 1 line a.0:1 queue - cut 1 base 0
",
    ),
    // One that read keys of x alone needs no decision there. A peek and a decision use no read up.
    (
        "a read p b
a peek p b
a decide p b
a commit p b=1
b peek p b
b decide p b
b peek p a
",
        "report 2
client a
8 read ok 0 b=- x?0 y?0 x?0/0 y?0/0
9 peek none x?0/0
10 decide none x?0/0
11 commit committed 1 x!0@0 at 1 x?1 y!0 x?1/1 y?1/0
client b
12 peek ok 1 x?1/1
13 decide none x?1/1
14 peek none y?1/0
column r x
0 a single a.0 floor 0 wants 0 stamp 1
= clock 1 line a.0:1 queue - cut 1 base 0
column r y
0 a raise 1
= clock 1 line - queue - cut 0 base 0
",
    ),
    // A decision that a transaction does not commit; of two who would decide it the second finds nothing to decide.
    (
        "a read p a
b read p a
b commit p a=1
a commit p b=2
b peek p b
b decide p b
b peek p b
a decide p b
a peek p a
",
        "report 2
client a
8 read ok 0 a=- x?0 y?0 x?0/0 y?0/0
11 commit conflict a 1 row 0 x!1@0 y!1@1 at 2 x?3 y?3 x?3/1 y?3/2
15 decide none x?4/2
16 peek ok 1 y?3/2
client b
9 read ok 0 a=- x?0 y?0 x?0/0 y?0/0
10 commit committed 1 y!0@0 at 1 x!0 y?1 x?1/0 y?1/1
12 peek undecided 2 x?3/1
13 decide conflict 2 x?3/1 at 2 x?3 y?3 x?3/1 y?3/2 ok 3 x!3@1
14 peek none x?4/2
row r a.0 a.0 x=2 y=2 final 2
column r x
0 b raise 1
1 a propose a.0 floor 0 wants 0 stamp 2
2 a settle a.0 final 2
3 b single b.1 floor 2 wants 1 stamp 3
= clock 3 line a.0:2,b.1:3 queue - cut 2 base 0
column r y
0 b single b.0 floor 0 wants 0 stamp 1
1 a propose a.0 floor 0 wants 0 stamp 2
2 a settle a.0 final 2
= clock 2 line b.0:1,a.0:2 queue - cut 2 base 0
",
    ),
    // Behind a transaction that is not decided all later ones of the line wait, also one that read keys of x alone; each decision
    // is about the first that waits.
    (
        "a read p a
a commit p b=1
b read p b
b commit p b=2
a read p a
a commit p b=3
b peek p b
b decide p b
b peek p b
a decide p b
a peek p b
b decide p b
b peek p a
",
        "report 2
client a
8 read ok 0 a=- x?0 y?0 x?0/0 y?0/0
9 commit committed 1 row 0 x!0@0 y!0@0 at 1 x?2 y?2 x?2/1 y?2/1
12 read ok 2 a=- x?3 y?3 x?3/2 y?3/1
13 commit committed 3 row 1 x!3@2 y!3@1 at 3 x?5 y?5 x?5/3 y?5/2
17 decide committed 3 x?6/4 at 4 x?6 y!5 x?6/4 y?6/2 ok 5 x!6@4
18 peek ok 3 x?7/5
client b
10 read ok 1 b=1 x?2 y?2 x?2/1 y?2/1
11 commit committed 2 x!2@1 at 2 x?3 y!2 x?3/2 y?3/1
14 peek undecided 1 x?5/3
15 decide committed 1 x?5/3 at 3 x?5 y?5 x?5/3 y?5/2 ok 4 x!5@3
16 peek undecided 3 x?6/4
19 decide none x?7/5
20 peek none y?6/2
row r a.0 a.0 x=1 y=1 final 1
row r a.1 a.1 x=3 y=3 final 3
column r x
0 a propose a.0 floor 0 wants 0 stamp 1
1 a settle a.0 final 1
2 b single b.0 floor 1 wants 1 stamp 2
3 a propose a.1 floor 2 wants 2 stamp 3
4 a settle a.1 final 3
5 b single b.1 floor 3 wants 3 stamp 4
6 a single a.2 floor 4 wants 4 stamp 5
= clock 5 line a.0:1,b.0:2,a.1:3,b.1:4,a.2:5 queue - cut 5 base 0
column r y
0 a propose a.0 floor 0 wants 0 stamp 1
1 a settle a.0 final 1
2 b raise 2
3 a propose a.1 floor 2 wants 1 stamp 3
4 a settle a.1 final 3
5 a raise 4
= clock 4 line a.0:1,a.1:3 queue - cut 2 base 0
",
    ),
    // Who comes too late for a colour that was trimmed peeks and decides nothing: in the sync of its own colour, and in the read behind
    // it, of which what was raised stands. What it had played it peeks at still.
    (
        "a read p a
a commit p b=1
a trim y
a append x hi
b peek p a
b peek p b
b decide p b
b decide p a
a trim x
b peek p b
a decide p b
b peek p b
",
        "report 2
client a
8 read ok 0 a=- x?0 y?0 x?0/0 y?0/0
9 commit committed 1 row 0 x!0@0 y!0@0 at 1 x?2 y?2 x?2/1 y?2/1
10 trim ok !2 base 1
11 append ok 2 x!2@1
16 trim ok !3 base 1
18 decide committed 1 x?4/2 at 2 x?4 y?4 x?4/2 y?4/1 ok 3 x!4@2
client b
12 peek trimmed y 1
13 peek undecided 1 x?3/2
14 decide trimmed y 1
15 decide trimmed y 1
17 peek undecided 1 x?4/2
19 peek ok 1 x?5/3
row r a.0 a.0 x=1 y=1 final 1
column r x
0 a propose a.0 floor 0 wants 0 stamp 1
1 a settle a.0 final 1
2 a single a.1 floor 1 wants 1 stamp 2
3 a trim 1
4 a single a.2 floor 2 wants 2 stamp 3
= clock 3 line a.0:1,a.1:2,a.2:3 queue - cut 3 base 1
column r y
0 a propose a.0 floor 0 wants 0 stamp 1
1 a settle a.0 final 1
2 a trim 1
3 b raise 2
= clock 2 line a.0:1 queue - cut 1 base 1
",
    ),
];

/// Lines from line 2 on, and the report.
const THREE_CLIENTS: [(&str, &str); 1] = [
    // One that read keys of both colours waits in both, and a decision is of one colour. The read of a decision completes what another
    // client left open, and a peek completes nothing.
    (
        "regions r
colours x y
client a r
client b r
client c r
parts p r x y
begin
a read p a b
a commit p a=1 b=2
c stop 3 x,y half
b peek p b
b decide p b
b peek p b
b peek p a
b decide p a
a peek p a
",
        "report 2
client a
9 read ok 0 a=- b=- x?0 y?0 x?0/0 y?0/0
10 commit committed 1 row 0 x!0@0 y!0@0 at 1 x?2 y?2 x?2/1 y?2/1
17 peek ok 1 y?6/3
client b
12 peek undecided 1 x?3/1
13 decide committed 1 x?3/1 at 2 x?3 y?3 x?4/2 y?4/2 ok 3 x!4@2
14 peek ok 2 x?5/3
15 peek undecided 1 y?4/2
16 decide committed 1 y?4/2 at 3 x?5 y!4 x?5/3 y?5/2 ok 4 y!5@2
client c
11 stop stopped 3
row r a.0 a.0 x=1 y=1 final 1
row r c.0 c.0 x=2 y=2 final 2
column r x
0 a propose a.0 floor 0 wants 0 stamp 1
1 a settle a.0 final 1
2 c propose c.0 floor 0 wants 0 stamp 2
3 b settle c.0 final 2
4 b single b.0 floor 2 wants 2 stamp 3
= clock 3 line a.0:1,c.0:2,b.0:3 queue - cut 3 base 0
column r y
0 a propose a.0 floor 0 wants 0 stamp 1
1 a settle a.0 final 1
2 c propose c.0 floor 0 wants 0 stamp 2
3 b settle c.0 final 2
4 b raise 3
5 b single b.1 floor 3 wants 2 stamp 4
= clock 4 line a.0:1,c.0:2,b.1:4 queue - cut 3 base 0
",
    ),
];

/// The same, where one client does all and another is away from the map's home.
const ALONE: [(&str, &str); 1] = [(
    "regions r s
colours x y
client a r
client b s
parts p r x y
begin
a read p a
a commit p b=7
a peek p b
a decide p b
a peek p b
a decide p b
a peek p a
b peek p a
b decide p a
",
    "report 2
client a
8 read ok 0 a=- x?0 y?0 x?0/0,0 y?0/0,0
9 commit committed 1 row 0 x!0@0 y!0@0 at 1 x?2 y?2 x?2/1,0 y?2/1,0
10 peek undecided 1 x?2/1,0
11 decide committed 1 x?2/1,0 at 1 x?2 y?2 x?2/1,0 y?2/1,0 ok 2 x!2@1
12 peek ok 7 x?3/2,0
13 decide none x?3/2,0
14 peek none y?2/1,0
client b
15 peek nothome r
16 decide nothome r
row r a.0 a.0 x=1 y=1 final 1
column r x
0 a propose a.0 floor 0 wants 0,0 stamp 1
1 a settle a.0 final 1
2 a single a.1 floor 1 wants 1,0 stamp 2
= clock 2 line a.0:1,a.1:2 queue - cut 2,0 base 0,0
column r y
0 a propose a.0 floor 0 wants 0,0 stamp 1
1 a settle a.0 final 1
= clock 1 line a.0:1 queue - cut 1,0 base 0,0
column s x
= clock 0 line - queue - cut 0,0 base 0,0
column s y
= clock 0 line - queue - cut 0,0 base 0,0
",
)];

/// On threads, one client after the other.
const IN_TURN: [Turns; 1] = [(
    "fuzzylog 2
regions r
colours x y m n o p q s u v
client a r
client b r
client c r
client d r
parts t r x y
begin
a read t a
a commit t b=7
a append m,n end
b append o,p begin
b peek t b
b decide t b
b append o,p end
c append q,s begin
c peek t b
c decide t b
c decide t a
c append q,s end
d append u,v begin
d peek t b
d peek t a
",
    [6, 6, 6],
    "
client b
13 append ok 1 row 0 o!0@0 p!0@0
14 peek undecided 1 x?2/1
15 decide committed 1 x?2/1 at 1 x?2 y?2 x?2/1 y?2/1 ok 2 x!2@1
16 append ok 3 row 1 o!2@1 p!2@1
client c
17 append ok 1 row 0 q!0@0 s!0@0
18 peek ok 7 x?3/2
19 decide none x?3/2
20 decide none y?2/1
21 append ok 3 row 1 q!2@1 s!2@1
client d
22 append ok 1 row 0 u!0@0 v!0@0
23 peek ok 7 x?3/2
24 peek none y?2/1
",
)];

/// Commands from line 12 on, in version 2.
const COMMANDS: [Row; 16] = [
    ("a peek", 12, "bad form"),
    ("a peek p", 12, "bad form"),
    ("a decide p k l", 12, "bad form"),
    ("a peek u k", 12, "unknown object"),
    // They are of no other kind of object.
    ("a peek t k", 12, "wrong object"),
    ("a decide t k", 12, "wrong object"),
    ("a peek m k", 12, "wrong object"),
    ("a decide q k", 12, "wrong object"),
    ("a peek c k", 12, "wrong object"),
    ("a decide f k", 12, "wrong object"),
    ("a decide t K", 12, "wrong object"),
    ("a peek p K", 12, "bad key"),
    ("a decide p k=v", 12, "bad key"),
    // They find no read, and use none up.
    ("a peek p k\na commit p k=v", 13, "no read"),
    (
        "a read p k\na peek p k\na decide p k\na commit p k=v\na fly",
        16,
        "unknown command",
    ),
    ("a stop 0 x,y hi\na decide p k", 13, "client stopped"),
];

/// Commands from line 7 on, in version 1.
const UNKNOWN_IN_1: [Row; 3] = [
    ("a peek t k", 7, "unknown command"),
    ("a decide t k", 7, "unknown command"),
    ("a peek", 7, "unknown command"),
];

#[test]
fn one_colour_tells_what_is_decided(rt: HostRuntime) -> Result<(), Fail> {
    all_leave(rt.alloc(), &rt, "step", PARTS, &REPORTS)?;
    all_leave(rt.alloc(), &rt, "step", "fuzzylog 2\n", &THREE_CLIENTS)?;
    all_leave(rt.alloc(), &rt, "step", "fuzzylog 2\n", &ALONE)?;
    all_leave(rt.alloc(), &rt, "run", "fuzzylog 2\n", &ALONE)?;
    all_are_the_same(rt.alloc(), &rt, &IN_TURN)
}

#[test]
fn peeks_and_decisions_are_refused(rt: HostRuntime) -> Result<(), Fail> {
    let (version_1, version_2) = (
        "fuzzylog 1\nregions r\ncolours x y\nclient a r\ntx t r x\nbegin\n",
        "fuzzylog 2\nregions r\ncolours x y\nclient a r\nmap m r x\ntx t r x\ncausal c x\nqueue q r x\ntree f r x\nparts p r y\nbegin\n",
    );
    all_refused(rt.alloc(), &rt, version_1, &UNKNOWN_IN_1)?;
    all_refused(rt.alloc(), &rt, version_2, &COMMANDS)
}
