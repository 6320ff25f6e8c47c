// Stamped reads whose nodes are shown.
use super::*;

/// Lines from line 8 on in one region, and the report.
const SCANS: [(&str, &str); 6] = [
    // An open append up to the read's stamp is completed.
    (
        "a stop 2 x,y q
b scan x
",
        "report 1
client a
8 stop stopped 2
client b
9 scan ok 1 nodes 1 x?1 x?2/1
+ a.0 1 q
client c
row r a.0 a.0 x=1 y=1 final 1
column r x
0 a propose a.0 floor 0 wants 0 stamp 1
1 b settle a.0 final 1
= clock 1 line a.0:1 queue - cut 1 base 0
column r y
0 b propose a.0 floor 0 wants 0 stamp 1
1 b settle a.0 final 1
= clock 1 line a.0:1 queue - cut 1 base 0
",
    ),
    // A node that stands in both lines is shown once.
    (
        "a append x,y p
b append y q
c scan y,x
",
        "report 1
client a
8 append ok 1 row 0 x!0@0 y!0@0
client b
9 append ok 2 y!2@1
client c
10 scan ok 2 nodes 2 x!2 y?3 x?3/1 y?3/2
+ a.0 1 p
+ b.0 2 q
row r a.0 a.0 x=1 y=1 final 1
column r x
0 a propose a.0 floor 0 wants 0 stamp 1
1 a settle a.0 final 1
2 c raise 2
= clock 2 line a.0:1 queue - cut 1 base 0
column r y
0 a propose a.0 floor 0 wants 0 stamp 1
1 a settle a.0 final 1
2 b single b.0 floor 0 wants 0 stamp 2
= clock 2 line a.0:1,b.0:2 queue - cut 2 base 0
",
    ),
    // Equal stamps go by the client, whatever the colour; the read's stamp is then the client's floor.
    (
        "c append x p
b append y q
a scan x,y
a append x r
",
        "report 1
client a
10 scan ok 1 nodes 2 x?1 y?1 x?1/1 y?1/1
+ b.0 1 q
+ c.0 1 p
11 append ok 2 x!1@1
client b
9 append ok 1 y!0@0
client c
8 append ok 1 x!0@0
column r x
0 c single c.0 floor 0 wants 0 stamp 1
1 a single a.0 floor 1 wants 1 stamp 2
= clock 2 line c.0:1,a.0:2 queue - cut 2 base 0
column r y
0 b single b.0 floor 0 wants 0 stamp 1
= clock 1 line b.0:1 queue - cut 1 base 0
",
    ),
    // An append that is completed stands above the read's stamp, as its other colour was ahead: it is played, and is none
    // of the nodes that are read.
    (
        "c append y p
a stop 2 x,y q
b scan x
b append x s
",
        "report 1
client a
9 stop stopped 2
client b
10 scan ok 1 nodes 0 x?1 x?2/1
11 append ok 3 x!2@1
client c
8 append ok 1 y!0@0
row r a.0 a.0 x=1 y=2 final 2
column r x
0 a propose a.0 floor 0 wants 0 stamp 1
1 b settle a.0 final 2
2 b single b.0 floor 2 wants 1 stamp 3
= clock 3 line a.0:2,b.0:3 queue - cut 2 base 0
column r y
0 c single c.0 floor 0 wants 0 stamp 1
1 b propose a.0 floor 0 wants 0 stamp 2
2 b settle a.0 final 2
= clock 2 line c.0:1,a.0:2 queue - cut 2 base 0
",
    ),
    // Where a node of y is trimmed that was not played, the raise and the play of x stand, and the client has not seen the
    // read's stamp.
    (
        "a append y one
a append y two
a append y three
a sync y
a trim y
c append x p
c append x q
b scan x,y
b append x s
",
        "report 1
client a
8 append ok 1 y!0@0
9 append ok 2 y!1@1
10 append ok 3 y!2@2
11 sync ok y?3/3 plays 3
+ a.0 1 one
+ a.1 2 two
+ a.2 3 three
12 trim ok !3 base 3
client b
15 scan trimmed y 3
16 append ok 4 x!3@2
client c
13 append ok 1 x!0@0
14 append ok 2 x!1@1
column r x
0 c single c.0 floor 0 wants 0 stamp 1
1 c single c.1 floor 1 wants 0 stamp 2
2 b raise 3
3 b single b.0 floor 2 wants 2 stamp 4
= clock 4 line c.0:1,c.1:2,b.0:4 queue - cut 3 base 0
column r y
0 a single a.0 floor 0 wants 0 stamp 1
1 a single a.1 floor 1 wants 0 stamp 2
2 a single a.2 floor 2 wants 0 stamp 3
3 a trim 3
= clock 3 line a.0:1,a.1:2,a.2:3 queue - cut 3 base 3
",
    ),
    // Who has played what is trimmed reads it still.
    (
        "a append y one
a sync y
a trim y
a scan x,y
",
        "report 1
client a
8 append ok 1 y!0@0
9 sync ok y?1/1 plays 1
+ a.0 1 one
10 trim ok !1 base 1
11 scan ok 1 nodes 1 x!0 y?2 x?1/0 y?2/1
+ a.0 1 one
client b
client c
column r x
0 a raise 1
= clock 1 line - queue - cut 0 base 0
column r y
0 a single a.0 floor 0 wants 0 stamp 1
1 a trim 1
= clock 1 line a.0:1 queue - cut 1 base 1
",
    ),
];

#[test]
fn scans_show_what_stands_up_to_their_stamp(rt: HostRuntime) -> Result<(), Fail> {
    all_leave(rt.alloc(), &rt, "step", ONE_REGION, &SCANS)
}

/// Lines from line 8 on in two regions, and the report.
const OWN: [(&str, &str); 1] = [(
    "a append x one
b append x two
b pull e x
b scan x
",
    "report 1
client a
8 append ok 1 x!0@0
client b
9 append ok 1 x!0@0
10 pull ok 1 give !1 carry !1
11 scan ok 1 nodes 1 x?2 x?2/1,1
+ b.0 1 two
client d
column e x
0 a single a.0 floor 0 wants 0,0 stamp 1
1 b give w 0
= clock 1 line a.0:1 queue - cut 1,0 base 0,0
column w x
0 b single b.0 floor 0 wants 0,0 stamp 1
1 b carry e 0 a.0:1/0,0
= clock 1 line b.0:1 queue - cut 1,1 base 0,0
",
)];

#[test]
fn a_scan_shows_the_own_line_of_its_region_alone(rt: HostRuntime) -> Result<(), Fail> {
    all_leave(rt.alloc(), &rt, "step", TWO_REGIONS, &OWN)
}
