// What causal maps answer for keys.
use super::*;

/// Scripts, and their reports.
const CAUSAL: [(&str, &str); 3] = [
    // The row with the causal map: two puts at two sites that do not know of each other are both answered, in the play
    // order of the reader; the one that has both for its predecessors is answered alone.
    (
        "fuzzylog 1
regions e w
colours x
client a e
client b w
causal c x
begin
a put c k 2
b put c k 1
a pull w x
a get c k
a put c k 3
a get c k
",
        "report 1
client a
8 put ok 1 x!0@0
10 pull ok 1 give !1 carry !1
11 get ok 1,2 x?2/1,1
12 put ok 2 x!2@1
13 get ok 3 x?3/2,1
client b
9 put ok 1 x!0@0
column e x
0 a single a.0 floor 0 wants 0,0 stamp 1
1 a carry w 0 b.0:1/0,0
2 a single a.1 floor 1 wants 1,1 stamp 2
= clock 2 line a.0:1,a.1:2 queue - cut 2,1 base 0,0
column w x
0 b single b.0 floor 0 wants 0,0 stamp 1
1 a give e 0
= clock 1 line b.0:1 queue - cut 0,1 base 0,0
",
    ),
    // A get answers by what was played, also after it was trimmed; a client that comes too late is refused.
    (
        "fuzzylog 1
regions r
colours x
client a r
client b r
causal c x
begin
a put c k 1
a put c j 2
a sync x
a trim x
a get c k
b get c k
b put c k 3
a get c k
a get c i
",
        "report 1
client a
8 put ok 1 x!0@0
9 put ok 2 x!1@1
10 sync ok x?2/2 plays 2
+ a.0 1 c:k=1
+ a.1 2 c:j=2
11 trim ok !2 base 2
12 get ok 1 x?3/2
15 get ok 3 x?4/3
16 get none x?4/3
client b
13 get trimmed x 2
14 put ok 3 x!3@2
column r x
0 a single a.0 floor 0 wants 0 stamp 1
1 a single a.1 floor 1 wants 0 stamp 2
2 a trim 2
3 b single b.0 floor 0 wants 0 stamp 3
= clock 3 line a.0:1,a.1:2,b.0:3 queue - cut 3 base 2
",
    ),
    // Equal values of two puts are both answered; what a put follows through another one is not; a text that an append
    // wrote is a put too.
    (
        "fuzzylog 1
regions e w
colours x
client a e
client b w
client d w
causal c x
begin
a put c k v
d put c k v
b pull e x
b get c k
b put c j 1
d append x c:k=u
d get c k
d get c j
",
        "report 1
client a
9 put ok 1 x!0@0
client b
11 pull ok 1 give !1 carry !1
12 get ok v,v x?2/1,1
13 put ok 2 x!2@1
client d
10 put ok 1 x!0@0
14 append ok 3 x!3@2
15 get ok u x?4/1,3
16 get ok 1 x?4/1,3
column e x
0 a single a.0 floor 0 wants 0,0 stamp 1
1 b give w 0
= clock 1 line a.0:1 queue - cut 1,0 base 0,0
column w x
0 d single d.0 floor 0 wants 0,0 stamp 1
1 b carry e 0 a.0:1/0,0
2 b single b.0 floor 1 wants 1,1 stamp 2
3 d single d.1 floor 1 wants 0,0 stamp 3
= clock 3 line d.0:1,b.0:2,d.1:3 queue - cut 1,3 base 0,0
",
    ),
];

#[test]
fn causal_maps_answer_for_keys(rt: HostRuntime) -> Result<(), Fail> {
    all_leave(rt.alloc(), &rt, "step", WHOLE, &CAUSAL)
}
