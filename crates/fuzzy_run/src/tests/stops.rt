// Appends that stop, and who completes them.
use super::*;

/// An append to two colours that stops after each of its steps, and the report.
pub const STOPS: [(&str, &str); 6] = [
    // The row begins.
    (
        "a stop 1 x,y q
",
        "report 1
client a
8 stop stopped 1
client b
client c
row r a.0 a.0 x=- y=- open
column r x
= clock 0 line - queue - cut 0 base 0
column r y
= clock 0 line - queue - cut 0 base 0
",
    ),
    // It is marked in x.
    (
        "a stop 2 x,y q
",
        "report 1
client a
8 stop stopped 2
client b
client c
row r a.0 a.0 x=1 y=- open
column r x
0 a propose a.0 floor 0 wants 0 stamp 1
= clock 1 line - queue a.0:1? cut 0 base 0
column r y
= clock 0 line - queue - cut 0 base 0
",
    ),
    // It is marked in y.
    (
        "a stop 3 x,y q
",
        "report 1
client a
8 stop stopped 3
client b
client c
row r a.0 a.0 x=1 y=1 open
column r x
0 a propose a.0 floor 0 wants 0 stamp 1
= clock 1 line - queue a.0:1? cut 0 base 0
column r y
0 a propose a.0 floor 0 wants 0 stamp 1
= clock 1 line - queue a.0:1? cut 0 base 0
",
    ),
    // It is decided.
    (
        "a stop 4 x,y q
",
        "report 1
client a
8 stop stopped 4
client b
client c
row r a.0 a.0 x=1 y=1 final 1
column r x
0 a propose a.0 floor 0 wants 0 stamp 1
= clock 1 line - queue a.0:1? cut 0 base 0
column r y
0 a propose a.0 floor 0 wants 0 stamp 1
= clock 1 line - queue a.0:1? cut 0 base 0
",
    ),
    // It is settled in x.
    (
        "a stop 5 x,y q
",
        "report 1
client a
8 stop stopped 5
client b
client c
row r a.0 a.0 x=1 y=1 final 1
column r x
0 a propose a.0 floor 0 wants 0 stamp 1
1 a settle a.0 final 1
= clock 1 line a.0:1 queue - cut 1 base 0
column r y
0 a propose a.0 floor 0 wants 0 stamp 1
= clock 1 line - queue a.0:1? cut 0 base 0
",
    ),
    // It is settled in y.
    (
        "a stop 6 x,y q
",
        "report 1
client a
8 stop stopped 6
client b
client c
row r a.0 a.0 x=1 y=1 final 1
column r x
0 a propose a.0 floor 0 wants 0 stamp 1
1 a settle a.0 final 1
= clock 1 line a.0:1 queue - cut 1 base 0
column r y
0 a propose a.0 floor 0 wants 0 stamp 1
1 a settle a.0 final 1
= clock 1 line a.0:1 queue - cut 1 base 0
",
    ),
];

#[test]
fn a_stop_leaves_its_first_steps(rt: HostRuntime) -> Result<(), Fail> {
    all_leave(rt.alloc(), &rt, "step", ONE_REGION, &STOPS)
}

/// Lines from line 8 on in one region, and the report.
const HELPED: [(&str, &str); 6] = [
    // Who appends above a stopped append completes it.
    (
        "a stop 2 x,y one
b append x two
",
        "report 1
client a
8 stop stopped 2
client b
9 append ok 2 x!1@1
client c
row r a.0 a.0 x=1 y=1 final 1
column r x
0 a propose a.0 floor 0 wants 0 stamp 1
1 b single b.0 floor 0 wants 0 stamp 2
2 b settle a.0 final 1
= clock 2 line a.0:1,b.0:2 queue - cut 2 base 0
column r y
0 b propose a.0 floor 0 wants 0 stamp 1
1 b settle a.0 final 1
= clock 1 line a.0:1 queue - cut 1 base 0
",
    ),
    // Of two nodes with one stamp that of the lesser id stands first.
    (
        "c append y p
a stop 3 x,y q
b append x s
",
        "report 1
client a
9 stop stopped 3
client b
10 append ok 2 x!1@1
client c
8 append ok 1 y!0@0
row r a.0 a.0 x=1 y=2 final 2
column r x
0 a propose a.0 floor 0 wants 0 stamp 1
1 b single b.0 floor 0 wants 0 stamp 2
2 b settle a.0 final 2
= clock 2 line a.0:2,b.0:2 queue - cut 2 base 0
column r y
0 c single c.0 floor 0 wants 0 stamp 1
1 a propose a.0 floor 0 wants 0 stamp 2
2 b settle a.0 final 2
= clock 2 line c.0:1,a.0:2 queue - cut 2 base 0
",
    ),
    // A stop of no step leaves nothing, and one of all steps leaves the whole append.
    (
        "a stop 0 x,y q
c stop 1 x,y q
b stop 6 x,y q
",
        "report 1
client a
8 stop stopped 0
client b
10 stop stopped 6
client c
9 stop stopped 1
row r b.0 b.0 x=1 y=1 final 1
row r c.0 c.0 x=- y=- open
column r x
0 b propose b.0 floor 0 wants 0 stamp 1
1 b settle b.0 final 1
= clock 1 line b.0:1 queue - cut 1 base 0
column r y
0 b propose b.0 floor 0 wants 0 stamp 1
1 b settle b.0 final 1
= clock 1 line b.0:1 queue - cut 1 base 0
",
    ),
    // A stop clears nothing: its node stands behind an open one, and a sync does not play it.
    (
        "a stop 2 x,y p
b stop 6 x,y q
c sync x
",
        "report 1
client a
8 stop stopped 2
client b
9 stop stopped 6
client c
10 sync ok x?3/0 plays 0
row r a.0 a.0 x=1 y=- open
row r b.0 b.0 x=2 y=1 final 2
column r x
0 a propose a.0 floor 0 wants 0 stamp 1
1 b propose b.0 floor 0 wants 0 stamp 2
2 b settle b.0 final 2
= clock 2 line - queue a.0:1?,b.0:2 cut 0 base 0
column r y
0 b propose b.0 floor 0 wants 0 stamp 1
1 b settle b.0 final 2
= clock 2 line b.0:2 queue - cut 1 base 0
",
    ),
    // Completed, the open one stands above the one that waited behind it.
    (
        "a stop 2 x,y p
b stop 6 x,y q
c append x s
c sync x
",
        "report 1
client a
8 stop stopped 2
client b
9 stop stopped 6
client c
10 append ok 3 x!3@2
11 sync ok x?5/3 plays 3
+ b.0 2 q
+ a.0 3 p
+ c.0 3 s
row r a.0 a.0 x=1 y=3 final 3
row r b.0 b.0 x=2 y=1 final 2
column r x
0 a propose a.0 floor 0 wants 0 stamp 1
1 b propose b.0 floor 0 wants 0 stamp 2
2 b settle b.0 final 2
3 c single c.0 floor 0 wants 0 stamp 3
4 c settle a.0 final 3
= clock 3 line b.0:2,a.0:3,c.0:3 queue - cut 3 base 0
column r y
0 b propose b.0 floor 0 wants 0 stamp 1
1 b settle b.0 final 2
2 c propose a.0 floor 0 wants 0 stamp 3
3 c settle a.0 final 3
= clock 3 line b.0:2,a.0:3 queue - cut 2 base 0
",
    ),
    // An append to several colours completes what is open below its key, the least first.
    (
        "a stop 2 x,y p
b stop 4 x,y q
c append x,y s
",
        "report 1
client a
8 stop stopped 2
client b
9 stop stopped 4
client c
10 append ok 3 row 0 x!2@1 y!1@1
row r a.0 a.0 x=1 y=4 final 4
row r b.0 b.0 x=2 y=1 final 2
row r c.0 c.0 x=3 y=2 final 3
column r x
0 a propose a.0 floor 0 wants 0 stamp 1
1 b propose b.0 floor 0 wants 0 stamp 2
2 c propose c.0 floor 0 wants 0 stamp 3
3 c settle c.0 final 3
4 c settle a.0 final 4
5 c settle b.0 final 2
= clock 4 line b.0:2,c.0:3,a.0:4 queue - cut 3 base 0
column r y
0 b propose b.0 floor 0 wants 0 stamp 1
1 c propose c.0 floor 0 wants 0 stamp 2
2 c settle c.0 final 3
3 c propose a.0 floor 0 wants 0 stamp 4
4 c settle a.0 final 4
5 c settle b.0 final 2
= clock 4 line b.0:2,c.0:3,a.0:4 queue - cut 3 base 0
",
    ),
];

#[test]
fn a_stopped_append_is_completed_by_another_client(rt: HostRuntime) -> Result<(), Fail> {
    all_leave(rt.alloc(), &rt, "step", ONE_REGION, &HELPED)
}

/// An append to two colours that stops after so many of its steps, and appends of another client to each of them; and the report.
const FOLLOWED: [(&str, &str); 7] = [
    // Nothing was begun.
    (
        "a stop 0 x,y q
b append x s
b append y t
",
        "report 1
client a
8 stop stopped 0
client b
9 append ok 1 x!0@0
10 append ok 2 y!0@0
client c
column r x
0 b single b.0 floor 0 wants 0 stamp 1
= clock 1 line b.0:1 queue - cut 1 base 0
column r y
0 b single b.1 floor 1 wants 0 stamp 2
= clock 2 line b.1:2 queue - cut 1 base 0
",
    ),
    // Only its row was begun: nobody completes it.
    (
        "a stop 1 x,y q
b append x s
b append y t
",
        "report 1
client a
8 stop stopped 1
client b
9 append ok 1 x!0@0
10 append ok 2 y!0@0
client c
row r a.0 a.0 x=- y=- open
column r x
0 b single b.0 floor 0 wants 0 stamp 1
= clock 1 line b.0:1 queue - cut 1 base 0
column r y
0 b single b.1 floor 1 wants 0 stamp 2
= clock 2 line b.1:2 queue - cut 1 base 0
",
    ),
    // It was marked in x: who appends there completes it.
    (
        "a stop 2 x,y q
b append x s
b append y t
",
        "report 1
client a
8 stop stopped 2
client b
9 append ok 2 x!1@1
10 append ok 3 y!2@1
client c
row r a.0 a.0 x=1 y=1 final 1
column r x
0 a propose a.0 floor 0 wants 0 stamp 1
1 b single b.0 floor 0 wants 0 stamp 2
2 b settle a.0 final 1
= clock 2 line a.0:1,b.0:2 queue - cut 2 base 0
column r y
0 b propose a.0 floor 0 wants 0 stamp 1
1 b settle a.0 final 1
2 b single b.1 floor 2 wants 0 stamp 3
= clock 3 line a.0:1,b.1:3 queue - cut 2 base 0
",
    ),
    // It was marked in both.
    (
        "a stop 3 x,y q
b append x s
b append y t
",
        "report 1
client a
8 stop stopped 3
client b
9 append ok 2 x!1@1
10 append ok 3 y!2@1
client c
row r a.0 a.0 x=1 y=1 final 1
column r x
0 a propose a.0 floor 0 wants 0 stamp 1
1 b single b.0 floor 0 wants 0 stamp 2
2 b settle a.0 final 1
= clock 2 line a.0:1,b.0:2 queue - cut 2 base 0
column r y
0 a propose a.0 floor 0 wants 0 stamp 1
1 b settle a.0 final 1
2 b single b.1 floor 2 wants 0 stamp 3
= clock 3 line a.0:1,b.1:3 queue - cut 2 base 0
",
    ),
    // It was decided.
    (
        "a stop 4 x,y q
b append x s
b append y t
",
        "report 1
client a
8 stop stopped 4
client b
9 append ok 2 x!1@1
10 append ok 3 y!2@1
client c
row r a.0 a.0 x=1 y=1 final 1
column r x
0 a propose a.0 floor 0 wants 0 stamp 1
1 b single b.0 floor 0 wants 0 stamp 2
2 b settle a.0 final 1
= clock 2 line a.0:1,b.0:2 queue - cut 2 base 0
column r y
0 a propose a.0 floor 0 wants 0 stamp 1
1 b settle a.0 final 1
2 b single b.1 floor 2 wants 0 stamp 3
= clock 3 line a.0:1,b.1:3 queue - cut 2 base 0
",
    ),
    // It was settled in x: who appends to y completes it there.
    (
        "a stop 5 x,y q
b append x s
b append y t
",
        "report 1
client a
8 stop stopped 5
client b
9 append ok 2 x!2@1
10 append ok 3 y!1@1
client c
row r a.0 a.0 x=1 y=1 final 1
column r x
0 a propose a.0 floor 0 wants 0 stamp 1
1 a settle a.0 final 1
2 b single b.0 floor 0 wants 0 stamp 2
= clock 2 line a.0:1,b.0:2 queue - cut 2 base 0
column r y
0 a propose a.0 floor 0 wants 0 stamp 1
1 b single b.1 floor 2 wants 0 stamp 3
2 b settle a.0 final 1
= clock 3 line a.0:1,b.1:3 queue - cut 2 base 0
",
    ),
    // It was settled in both.
    (
        "a stop 6 x,y q
b append x s
b append y t
",
        "report 1
client a
8 stop stopped 6
client b
9 append ok 2 x!2@1
10 append ok 3 y!2@1
client c
row r a.0 a.0 x=1 y=1 final 1
column r x
0 a propose a.0 floor 0 wants 0 stamp 1
1 a settle a.0 final 1
2 b single b.0 floor 0 wants 0 stamp 2
= clock 2 line a.0:1,b.0:2 queue - cut 2 base 0
column r y
0 a propose a.0 floor 0 wants 0 stamp 1
1 a settle a.0 final 1
2 b single b.1 floor 2 wants 0 stamp 3
= clock 3 line a.0:1,b.1:3 queue - cut 2 base 0
",
    ),
];

#[test]
fn who_appends_behind_a_stop_completes_what_was_marked(rt: HostRuntime) -> Result<(), Fail> {
    all_leave(rt.alloc(), &rt, "step", ONE_REGION, &FOLLOWED)
}
