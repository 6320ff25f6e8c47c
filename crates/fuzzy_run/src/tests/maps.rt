// What maps answer for keys.
use super::*;

/// Scripts, and their reports.
const MAPS: [(&str, &str); 5] = [
    // A map answers the last put of a key, and none behind its deletion. A client of another region is refused.
    (
        "fuzzylog 1
regions e w
colours x y
client a e
client b w
map m e x
begin
a put m k 1
a put m k 2
a get m k
a del m k
a get m k
a get m j
b get m k
",
        "report 1
client a
8 put ok 1 x!0@0
9 put ok 2 x!1@1
10 get ok 2 x?2/2,0
11 del ok 3 x!2@2
12 get none x?3/3,0
13 get none x?3/3,0
client b
14 get nothome e
column e x
0 a single a.0 floor 0 wants 0,0 stamp 1
1 a single a.1 floor 1 wants 0,0 stamp 2
2 a single a.2 floor 2 wants 2,0 stamp 3
= clock 3 line a.0:1,a.1:2,a.2:3 queue - cut 3,0 base 0,0
column e y
= clock 0 line - queue - cut 0,0 base 0,0
column w x
= clock 0 line - queue - cut 0,0 base 0,0
column w y
= clock 0 line - queue - cut 0,0 base 0,0
",
    ),
    // Several keys at once, as they stand at one stamp: `b` is of the shard x, `a` and `c` are of y.
    (
        "fuzzylog 1
regions r
colours x y
client a r
client b r
map m r x y
begin
a putall m b=1 a=2
b getall m a b
a putall m a=3 c=4
b getall m a b c
",
        "report 1
client a
8 putall ok 1 row 0 x!0@0 y!0@0
10 putall ok 2 y!2@1
client b
9 getall ok 1 a=2 b=1 x?2 y?2 x?2/1 y?2/1
11 getall ok 2 a=3 b=1 c=4 x!2 y?3 x?3/1 y?3/2
row r a.0 a.0 x=1 y=1 final 1
column r x
0 a propose a.0 floor 0 wants 0 stamp 1
1 a settle a.0 final 1
2 b raise 2
= clock 2 line a.0:1 queue - cut 1 base 0
column r y
0 a propose a.0 floor 0 wants 0 stamp 1
1 a settle a.0 final 1
2 a single a.1 floor 1 wants 0 stamp 2
= clock 2 line a.0:1,a.1:2 queue - cut 2 base 0
",
    ),
    // A read helps an append of several puts to a stamp above its own. It does not show these; a get does, and so does the
    // next read.
    (
        "fuzzylog 1
regions r
colours x y
client a r
client b r
client c r
map m r x y
begin
c append y p1
c append y p2
a stop 2 x,y m:b=5,a=6
b getall m b
b get m b
b getall m b
b getall m a b
",
        "report 1
client a
11 stop stopped 2
client b
12 getall ok 1 b=- x?1 x?2/1
13 get ok 5 x?2/1
14 getall ok 3 b=5 x?2 x?2/1
15 getall ok 3 a=6 b=5 x?2 y?4 x?2/1 y?4/3
client c
9 append ok 1 y!0@0
10 append ok 2 y!1@1
row r a.0 a.0 x=1 y=3 final 3
column r x
0 a propose a.0 floor 0 wants 0 stamp 1
1 b settle a.0 final 3
= clock 3 line a.0:3 queue - cut 1 base 0
column r y
0 c single c.0 floor 0 wants 0 stamp 1
1 c single c.1 floor 1 wants 0 stamp 2
2 b propose a.0 floor 0 wants 0 stamp 3
3 b settle a.0 final 3
= clock 3 line c.0:1,c.1:2,a.0:3 queue - cut 3 base 0
",
    ),
    // Texts that were appended by hand: in a shard's line only the shard's own keys count. What is trimmed is not there
    // for a client that has not played it.
    (
        "fuzzylog 1
regions e w
colours x y
client a e
client b w
client d e
map m e x y
begin
a put m b 1
a append x p:a=9
a append y p:b=9
a get m a
a get m b
a trim x
b pull e x
b pull e x
a trim x
d get m b
d getall m b
d getall m a
",
        "report 1
client a
9 put ok 1 x!0@0
10 append ok 2 x!1@1
11 append ok 3 y!0@0
12 get none y?1/1,0
13 get ok 1 x?2/2,0
14 trim ok !2 base 0,0
17 trim ok !5 base 2,0
client b
15 pull ok 2 give !3 carry !0
16 pull ok 0 give !4 carry ?1
client d
18 get trimmed x 2,0
19 getall trimmed x 2,0
20 getall ok 3 a=- y?1 y?1/1,0
column e x
0 a single a.0 floor 0 wants 0,0 stamp 1
1 a single a.1 floor 1 wants 0,0 stamp 2
2 a trim 2,0
3 b give w 0
4 b give w 2
5 a trim 2,0
= clock 2 line a.0:1,a.1:2 queue - cut 2,0 base 2,0
column e y
0 a single a.2 floor 2 wants 0,0 stamp 3
= clock 3 line a.2:3 queue - cut 1,0 base 0,0
column w x
0 b carry e 0 a.0:1/0,0 a.1:2/0,0
= clock 0 line - queue - cut 2,0 base 0,0
column w y
= clock 0 line - queue - cut 0,0 base 0,0
",
    ),
    // The shards are in the order in which the map names its colours: that of `b` is y, and that of `a` is x.
    (
        "fuzzylog 1
regions r
colours x y
client a r
map m r y x
begin
a put m b 1
a put m a 2
a get m b
",
        "report 1
client a
7 put ok 1 y!0@0
8 put ok 2 x!0@0
9 get ok 1 y?1/1
column r x
0 a single a.1 floor 1 wants 0 stamp 2
= clock 2 line a.1:2 queue - cut 1 base 0
column r y
0 a single a.0 floor 0 wants 0 stamp 1
= clock 1 line a.0:1 queue - cut 1 base 0
",
    ),
];

#[test]
fn maps_answer_for_keys(rt: HostRuntime) -> Result<(), Fail> {
    all_leave(rt.alloc(), &rt, "step", WHOLE, &MAPS)
}
