// Appends to one colour, and syncs.
use super::*;

/// Lines from line 8 on in one region, and the report.
pub const REPORTS: [(&str, &str); 4] = [
    // Without commands the columns are idle.
    (
        "",
        "report 1
client a
client b
client c
column r x
= clock 0 line - queue - cut 0 base 0
column r y
= clock 0 line - queue - cut 0 base 0
",
    ),
    // A second sync plays nothing again; the last line needs no line feed.
    (
        "a append x hi
a sync x
a sync x",
        "report 1
client a
8 append ok 1 x!0@0
9 sync ok x?1/1 plays 1
+ a.0 1 hi
10 sync ok x?1/1 plays 0
client b
client c
column r x
0 a single a.0 floor 0 wants 0 stamp 1
= clock 1 line a.0:1 queue - cut 1 base 0
column r y
= clock 0 line - queue - cut 0 base 0
",
    ),
    // An append after a sync has the next stamp and wants what was played.
    (
        "b append x hi
a sync x
a append x yo
a append y so
",
        "report 1
client a
9 sync ok x?1/1 plays 1
+ b.0 1 hi
10 append ok 2 x!1@1
11 append ok 3 y!0@0
client b
8 append ok 1 x!0@0
client c
column r x
0 b single b.0 floor 0 wants 0 stamp 1
1 a single a.0 floor 1 wants 1 stamp 2
= clock 2 line b.0:1,a.0:2 queue - cut 2 base 0
column r y
0 a single a.1 floor 2 wants 0 stamp 3
= clock 3 line a.1:3 queue - cut 1 base 0
",
    ),
    // A text may have 200 bytes.
    (
        "a append x \
         tttttttttttttttttttttttttttttttttttttttttttttttttttttttttttttttttttttttttttttttttttttttttttttttttttt\
         tttttttttttttttttttttttttttttttttttttttttttttttttttttttttttttttttttttttttttttttttttttttttttttttttttt",
        "report 1
client a
8 append ok 1 x!0@0
client b
client c
column r x
0 a single a.0 floor 0 wants 0 stamp 1
= clock 1 line a.0:1 queue - cut 1 base 0
column r y
= clock 0 line - queue - cut 0 base 0
",
    ),
];

#[test]
fn appends_to_one_colour_and_syncs(rt: HostRuntime) -> Result<(), Fail> {
    all_leave(rt.alloc(), &rt, "step", ONE_REGION, &REPORTS)
}
