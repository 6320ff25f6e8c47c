// Appends to several colours.
use super::*;

/// Lines from line 8 on in one region, and the report.
const REPORTS: [(&str, &str); 3] = [
    // The final stamp is the greatest mark.
    (
        "b append y p
a append x,y q
",
        "report 1
client a
9 append ok 2 row 0 x!0@0 y!1@1
client b
8 append ok 1 y!0@0
client c
row r a.0 a.0 x=1 y=2 final 2
column r x
0 a propose a.0 floor 0 wants 0 stamp 1
1 a settle a.0 final 2
= clock 2 line a.0:2 queue - cut 1 base 0
column r y
0 b single b.0 floor 0 wants 0 stamp 1
1 a propose a.0 floor 0 wants 0 stamp 2
2 a settle a.0 final 2
= clock 2 line b.0:1,a.0:2 queue - cut 2 base 0
",
    ),
    // The order in which the colours are named is no matter.
    (
        "a append x,y p
b append y,x q
",
        "report 1
client a
8 append ok 1 row 0 x!0@0 y!0@0
client b
9 append ok 2 row 0 x!2@1 y!2@1
client c
row r a.0 a.0 x=1 y=1 final 1
row r b.0 b.0 x=2 y=2 final 2
column r x
0 a propose a.0 floor 0 wants 0 stamp 1
1 a settle a.0 final 1
2 b propose b.0 floor 0 wants 0 stamp 2
3 b settle b.0 final 2
= clock 2 line a.0:1,b.0:2 queue - cut 2 base 0
column r y
0 a propose a.0 floor 0 wants 0 stamp 1
1 a settle a.0 final 1
2 b propose b.0 floor 0 wants 0 stamp 2
3 b settle b.0 final 2
= clock 2 line a.0:1,b.0:2 queue - cut 2 base 0
",
    ),
    // In each colour the node wants what was played there.
    (
        "b append y p
a sync y
a append x,y q
a append x,y r
",
        "report 1
client a
9 sync ok y?1/1 plays 1
+ b.0 1 p
10 append ok 2 row 0 x!0@0 y!1@1
11 append ok 3 row 1 x!2@1 y!3@2
client b
8 append ok 1 y!0@0
client c
row r a.0 a.0 x=2 y=2 final 2
row r a.1 a.1 x=3 y=3 final 3
column r x
0 a propose a.0 floor 1 wants 0 stamp 2
1 a settle a.0 final 2
2 a propose a.1 floor 2 wants 0 stamp 3
3 a settle a.1 final 3
= clock 3 line a.0:2,a.1:3 queue - cut 2 base 0
column r y
0 b single b.0 floor 0 wants 0 stamp 1
1 a propose a.0 floor 1 wants 1 stamp 2
2 a settle a.0 final 2
3 a propose a.1 floor 2 wants 1 stamp 3
4 a settle a.1 final 3
= clock 3 line b.0:1,a.0:2,a.1:3 queue - cut 3 base 0
",
    ),
];

#[test]
fn appends_to_several_colours(rt: HostRuntime) -> Result<(), Fail> {
    all_leave(rt.alloc(), &rt, "step", ONE_REGION, &REPORTS)
}

/// Scripts in which a client may begin one row, and the reports.
pub const FEW_ROWS: [(&str, &str); 2] = [
    // A client that has begun as many rows as it may goes on with single colours.
    (
        "fuzzylog 1
regions r
colours x y
rows 1
client a r
client b r
client c r
begin
a append x,y p
a append x,y q
a append x s
",
        "report 1
client a
9 append ok 1 row 0 x!0@0 y!0@0
10 append full 1
11 append ok 2 x!2@1
client b
client c
row r a.0 a.0 x=1 y=1 final 1
column r x
0 a propose a.0 floor 0 wants 0 stamp 1
1 a settle a.0 final 1
2 a single a.1 floor 1 wants 0 stamp 2
= clock 2 line a.0:1,a.1:2 queue - cut 2 base 0
column r y
0 a propose a.0 floor 0 wants 0 stamp 1
1 a settle a.0 final 1
= clock 1 line a.0:1 queue - cut 1 base 0
",
    ),
    // A stop of such a client is refused as well, but for one of no steps.
    (
        "fuzzylog 1
regions r
colours x y z
rows 1
client a r
client b r
begin
a append z,x p
a stop 1 x,y q
b append x,z r
b stop 0 x,y q
",
        "report 1
client a
8 append ok 1 row 0 x!0@0 z!0@0
9 stop full 1
client b
10 append ok 2 row 0 x!2@1 z!2@1
11 stop stopped 0
row r a.0 a.0 x=1 z=1 final 1
row r b.0 b.0 x=2 z=2 final 2
column r x
0 a propose a.0 floor 0 wants 0 stamp 1
1 a settle a.0 final 1
2 b propose b.0 floor 0 wants 0 stamp 2
3 b settle b.0 final 2
= clock 2 line a.0:1,b.0:2 queue - cut 2 base 0
column r y
= clock 0 line - queue - cut 0 base 0
column r z
0 a propose a.0 floor 0 wants 0 stamp 1
1 a settle a.0 final 1
2 b propose b.0 floor 0 wants 0 stamp 2
3 b settle b.0 final 2
= clock 2 line a.0:1,b.0:2 queue - cut 2 base 0
",
    ),
];

#[test]
fn a_client_has_so_many_rows(rt: HostRuntime) -> Result<(), Fail> {
    all_leave(rt.alloc(), &rt, "step", WHOLE, &FEW_ROWS)
}
