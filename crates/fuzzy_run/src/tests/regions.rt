// Pulls and trims.
use super::*;

/// Lines from line 8 on in two regions, and the report.
const PULLED: [(&str, &str); 3] = [
    // A node comes to another region by a pull, and what answers it comes back.
    (
        "a append x one
b pull e x
b sync x
b append x two
a pull w x
a sync x
",
        "report 1
client a
8 append ok 1 x!0@0
12 pull ok 1 give !2 carry !2
13 sync ok x?3/1,1 plays 2
+ a.0 1 one
+ b.0 2 two
client b
9 pull ok 1 give !1 carry !0
10 sync ok x?1/1,0 plays 1
+ a.0 1 one
11 append ok 2 x!1@0
client d
column e x
0 a single a.0 floor 0 wants 0,0 stamp 1
1 b give w 0
2 a carry w 0 b.0:2/1,0
= clock 1 line a.0:1 queue - cut 1,1 base 0,0
column w x
0 b carry e 0 a.0:1/0,0
1 b single b.0 floor 1 wants 1,0 stamp 2
2 a give e 0
= clock 2 line b.0:2 queue - cut 1,1 base 0,0
",
    ),
    // Own nodes are trimmed as far as the other region has asked past them.
    (
        "a append x one
a sync x
a trim x
b pull e x
b pull e x
a trim x
d sync x
",
        "report 1
client a
8 append ok 1 x!0@0
9 sync ok x?1/1,0 plays 1
+ a.0 1 one
10 trim ok !1 base 0,0
13 trim ok !4 base 1,0
client b
11 pull ok 1 give !2 carry !0
12 pull ok 0 give !3 carry ?1
client d
14 sync trimmed x 1,0
column e x
0 a single a.0 floor 0 wants 0,0 stamp 1
1 a trim 1,0
2 b give w 0
3 b give w 1
4 a trim 1,0
= clock 1 line a.0:1 queue - cut 1,0 base 1,0
column w x
0 b carry e 0 a.0:1/0,0
= clock 0 line - queue - cut 1,0 base 0,0
",
    ),
    // Regions keep their own copies, and none pulls from itself.
    (
        "a append x one
b append x two
b sync x
a pull e x
",
        "report 1
client a
8 append ok 1 x!0@0
11 pull sameregion
client b
9 append ok 1 x!0@0
10 sync ok x?1/0,1 plays 1
+ b.0 1 two
client d
column e x
0 a single a.0 floor 0 wants 0,0 stamp 1
= clock 1 line a.0:1 queue - cut 1,0 base 0,0
column w x
0 b single b.0 floor 0 wants 0,0 stamp 1
= clock 1 line b.0:1 queue - cut 0,1 base 0,0
",
    ),
];

#[test]
fn regions_pull_and_trim(rt: HostRuntime) -> Result<(), Fail> {
    all_leave(rt.alloc(), &rt, "step", TWO_REGIONS, &PULLED)
}

/// Scripts of several regions, and the reports.
const SCRIPTS: [(&str, &str); 4] = [
    // A carried node waits for one that it needs.
    (
        "fuzzylog 1
regions e w n
colours x
client a e
client b w
client c n
begin
a append x one
b pull e x
b sync x
b append x two
c pull w x
c sync x
c pull e x
c sync x
",
        "report 1
client a
8 append ok 1 x!0@0
client b
9 pull ok 1 give !1 carry !0
10 sync ok x?1/1,0,0 plays 1
+ a.0 1 one
11 append ok 2 x!1@0
client c
12 pull ok 1 give !2 carry !0
13 sync ok x?1/0,0,0 plays 0
14 pull ok 1 give !2 carry !1
15 sync ok x?2/1,1,0 plays 2
+ a.0 1 one
+ b.0 2 two
column e x
0 a single a.0 floor 0 wants 0,0,0 stamp 1
1 b give w 0
2 c give n 0
= clock 1 line a.0:1 queue - cut 1,0,0 base 0,0,0
column w x
0 b carry e 0 a.0:1/0,0,0
1 b single b.0 floor 1 wants 1,0,0 stamp 2
2 c give n 0
= clock 2 line b.0:2 queue - cut 1,1,0 base 0,0,0
column n x
0 c carry w 0 b.0:2/1,0,0
1 c carry e 0 a.0:1/0,0,0
= clock 0 line - queue - cut 1,1,0 base 0,0,0
",
    ),
    // A node needs those of two other regions; where one of them stands, it waits for the other.
    (
        "fuzzylog 1
regions e w n
colours x
client a e
client b w
client c n
begin
a append x one
b append x two
c pull e x
c pull w x
c sync x
c append x three
b pull n x
b sync x
b pull e x
b sync x
",
        "report 1
client a
8 append ok 1 x!0@0
client b
9 append ok 1 x!0@0
14 pull ok 1 give !3 carry !2
15 sync ok x?3/0,1,0 plays 1
+ b.0 1 two
16 pull ok 1 give !2 carry !3
17 sync ok x?4/1,1,1 plays 2
+ a.0 1 one
+ c.0 2 three
client c
10 pull ok 1 give !1 carry !0
11 pull ok 1 give !1 carry !1
12 sync ok x?2/1,1,0 plays 2
+ a.0 1 one
+ b.0 1 two
13 append ok 2 x!2@0
column e x
0 a single a.0 floor 0 wants 0,0,0 stamp 1
1 c give n 0
2 b give w 0
= clock 1 line a.0:1 queue - cut 1,0,0 base 0,0,0
column w x
0 b single b.0 floor 0 wants 0,0,0 stamp 1
1 c give n 0
2 b carry n 0 c.0:2/1,1,0
3 b carry e 0 a.0:1/0,0,0
= clock 1 line b.0:1 queue - cut 1,1,1 base 0,0,0
column n x
0 c carry e 0 a.0:1/0,0,0
1 c carry w 0 b.0:1/0,0,0
2 c single c.0 floor 1 wants 1,1,0 stamp 2
3 b give w 0
= clock 2 line c.0:2 queue - cut 1,1,1 base 0,0,0
",
    ),
    // In a fourth region it waits for both.
    (
        "fuzzylog 1
regions e w n s
colours x
client a e
client b w
client c n
client d s
begin
a append x one
b append x two
c pull e x
c pull w x
c sync x
c append x three
d pull n x
d sync x
d pull w x
d sync x
d pull e x
d sync x
",
        "report 1
client a
9 append ok 1 x!0@0
client b
10 append ok 1 x!0@0
client c
11 pull ok 1 give !1 carry !0
12 pull ok 1 give !1 carry !1
13 sync ok x?2/1,1,0,0 plays 2
+ a.0 1 one
+ b.0 1 two
14 append ok 2 x!2@0
client d
15 pull ok 1 give !3 carry !0
16 sync ok x?1/0,0,0,0 plays 0
17 pull ok 1 give !2 carry !1
18 sync ok x?2/0,1,0,0 plays 1
+ b.0 1 two
19 pull ok 1 give !2 carry !2
20 sync ok x?3/1,1,1,0 plays 2
+ a.0 1 one
+ c.0 2 three
column e x
0 a single a.0 floor 0 wants 0,0,0,0 stamp 1
1 c give n 0
2 d give s 0
= clock 1 line a.0:1 queue - cut 1,0,0,0 base 0,0,0,0
column w x
0 b single b.0 floor 0 wants 0,0,0,0 stamp 1
1 c give n 0
2 d give s 0
= clock 1 line b.0:1 queue - cut 0,1,0,0 base 0,0,0,0
column n x
0 c carry e 0 a.0:1/0,0,0,0
1 c carry w 0 b.0:1/0,0,0,0
2 c single c.0 floor 1 wants 1,1,0,0 stamp 2
3 d give s 0
= clock 2 line c.0:2 queue - cut 1,1,1,0 base 0,0,0,0
column s x
0 d carry n 0 c.0:2/1,1,0,0
1 d carry w 0 b.0:1/0,0,0,0
2 d carry e 0 a.0:1/0,0,0,0
= clock 0 line - queue - cut 1,1,1,0 base 0,0,0,0
",
    ),
    // The example of two sites.
    (
        "fuzzylog 1
# two sites write notes apart and meet, and the west drops what both have
regions e w
colours notes
client ann e
client bob e
client cyd w
begin
ann append notes buy-milk
cyd append notes fix-door
# bob reads the note of the west and answers it; cyd reads both of the east
bob pull w notes
bob sync notes
bob append notes door-fixed
cyd pull e notes
cyd sync notes
cyd append notes thanks
ann pull w notes
ann sync notes
cyd trim notes
",
        "report 1
client ann
9 append ok 1 notes!0@0
18 pull ok 1 give !4 carry !4
19 sync ok notes?5/2,2 plays 4
+ ann.0 1 buy-milk
+ cyd.0 1 fix-door
+ bob.0 2 door-fixed
+ cyd.1 3 thanks
client bob
12 pull ok 1 give !1 carry !1
13 sync ok notes?2/1,1 plays 2
+ ann.0 1 buy-milk
+ cyd.0 1 fix-door
14 append ok 2 notes!2@1
client cyd
10 append ok 1 notes!0@0
15 pull ok 2 give !3 carry !2
16 sync ok notes?3/2,1 plays 3
+ ann.0 1 buy-milk
+ cyd.0 1 fix-door
+ bob.0 2 door-fixed
17 append ok 3 notes!3@1
20 trim ok !5 base 2,1
column e notes
0 ann single ann.0 floor 0 wants 0,0 stamp 1
1 bob carry w 0 cyd.0:1/0,0
2 bob single bob.0 floor 1 wants 1,1 stamp 2
3 cyd give w 0
4 ann carry w 1 cyd.1:3/2,1
= clock 2 line ann.0:1,bob.0:2 queue - cut 2,2 base 0,0
column w notes
0 cyd single cyd.0 floor 0 wants 0,0 stamp 1
1 bob give e 0
2 cyd carry e 0 ann.0:1/0,0 bob.0:2/1,1
3 cyd single cyd.1 floor 2 wants 2,1 stamp 3
4 ann give e 1
5 cyd trim 2,1
= clock 3 line cyd.0:1,cyd.1:3 queue - cut 2,2 base 2,1
",
    ),
];

#[test]
fn nodes_wait_for_those_of_other_regions(rt: HostRuntime) -> Result<(), Fail> {
    all_leave(rt.alloc(), &rt, "step", WHOLE, &SCRIPTS)
}
