// Commands of objects.
use super::*;

/// Scripts, and their reports.
const REPORTS: [(&str, &str); 4] = [
    // Puts, deletions and enqueues are appends of their texts to the shards of their keys: that of `b` is x, those of `a`
    // and `d` are y and x. A client of another region is refused; a causal map has no home.
    (
        "fuzzylog 1
regions e w
colours x y
client a e
client b w
map m e x y
causal c y
queue q w x
begin
a put m b 1
a put m a 2
a putall m b=3 a=4 d=5
a del m b
a put c k 7
b put c k 8
b put m k 9
b enq q job1
a enq q job2
a sync x
a sync y
b sync x
b sync y
",
        "report 1
client a
10 put ok 1 x!0@0
11 put ok 2 y!0@0
12 putall ok 3 row 0 x!1@1 y!1@1
13 del ok 4 x!3@2
14 put ok 5 y!3@2
18 enq nothome w
19 sync ok x?4/3,0 plays 3
+ a.0 1 p:b=1
+ a.2 3 m:b=3,a=4,d=5
+ a.3 4 d:b
20 sync ok y?4/3,0 plays 3
+ a.1 2 p:a=2
+ a.2 3 m:b=3,a=4,d=5
+ a.4 5 c:k=7
client b
15 put ok 1 y!0@0
16 put nothome e
17 enq ok 2 x!0@0
21 sync ok x?1/0,1 plays 1
+ b.1 2 e:job1
22 sync ok y?1/0,1 plays 1
+ b.0 1 c:k=8
row e a.0 a.2 x=3 y=3 final 3
column e x
0 a single a.0 floor 0 wants 0,0 stamp 1
1 a propose a.2 floor 2 wants 0,0 stamp 3
2 a settle a.2 final 3
3 a single a.3 floor 3 wants 0,0 stamp 4
= clock 4 line a.0:1,a.2:3,a.3:4 queue - cut 3,0 base 0,0
column e y
0 a single a.1 floor 1 wants 0,0 stamp 2
1 a propose a.2 floor 2 wants 0,0 stamp 3
2 a settle a.2 final 3
3 a single a.4 floor 4 wants 0,0 stamp 5
= clock 5 line a.1:2,a.2:3,a.4:5 queue - cut 3,0 base 0,0
column w x
0 b single b.1 floor 1 wants 0,0 stamp 2
= clock 2 line b.1:2 queue - cut 0,1 base 0,0
column w y
0 b single b.0 floor 0 wants 0,0 stamp 1
= clock 1 line b.0:1 queue - cut 0,1 base 0,0
",
    ),
    // Several puts whose keys are of one shard take no row; a put waits for the append that stands in its way.
    (
        "fuzzylog 1
regions r
colours x y
client a r
client b r
map m r x y
begin
b stop 3 x,y q
a putall m a=3 c=4
a sync y
",
        "report 1
client a
9 putall ok 2 y!1@1
10 sync ok y?3/2 plays 2
+ b.0 1 q
+ a.0 2 m:a=3,c=4
client b
8 stop stopped 3
row r b.0 b.0 x=1 y=1 final 1
column r x
0 b propose b.0 floor 0 wants 0 stamp 1
1 a settle b.0 final 1
= clock 1 line b.0:1 queue - cut 1 base 0
column r y
0 b propose b.0 floor 0 wants 0 stamp 1
1 a single a.0 floor 0 wants 0 stamp 2
2 a settle b.0 final 1
= clock 2 line b.0:1,a.0:2 queue - cut 2 base 0
",
    ),
    // A dequeue takes the front of what was enqueued before its own node, and none where nothing waits.
    (
        "fuzzylog 1
regions e
colours x
client a e
queue q e x
begin
a deq q
a enq q v
a enq q w
a deq q
a deq q
a deq q
a pull e x
",
        "report 1
client a
7 deq none x!0@0 x?1/1
8 enq ok 2 x!1@1
9 enq ok 3 x!2@2
10 deq ok v x!3@3 x?4/4
11 deq ok w x!4@4 x?5/5
12 deq none x!5@5 x?6/6
13 pull sameregion
column e x
0 a single a.0 floor 0 wants 0 stamp 1
1 a single a.1 floor 1 wants 1 stamp 2
2 a single a.2 floor 2 wants 1 stamp 3
3 a single a.3 floor 3 wants 1 stamp 4
4 a single a.4 floor 4 wants 4 stamp 5
5 a single a.5 floor 5 wants 5 stamp 6
= clock 6 line a.0:1,a.1:2,a.2:3,a.3:4,a.4:5,a.5:6 queue - cut 6 base 0
",
    ),
    // Texts that are appended by hand are read as those of a queue's own commands, unless they have none of its forms. A
    // dequeue completes what stands before its node; one whose client has not played a trimmed node stands unread.
    (
        "fuzzylog 1
regions r
colours x y
client a r
client b r
client c r
queue q r x
begin
a append x e:v1
a append x e:V
a append x,y e:v2
c stop 3 x,y e:v3
b deq q
b append x q:
a sync x
a trim x
b deq q
",
        "report 1
client a
9 append ok 1 x!0@0
10 append ok 2 x!1@1
11 append ok 3 row 0 x!2@2 y!0@0
15 sync ok x?8/6 plays 6
+ a.0 1 e:v1
+ a.1 2 e:V
+ a.2 3 e:v2
+ c.0 4 e:v3
+ b.0 5 q:
+ b.1 6 q:
16 trim ok !8 base 6
client b
13 deq ok v1 x!5@4 x?7/5
14 append ok 6 x!7@5
17 deq unread 7 trimmed x 6
client c
12 stop stopped 3
row r a.0 a.2 x=3 y=3 final 3
row r c.0 c.0 x=4 y=4 final 4
column r x
0 a single a.0 floor 0 wants 0 stamp 1
1 a single a.1 floor 1 wants 0 stamp 2
2 a propose a.2 floor 2 wants 0 stamp 3
3 a settle a.2 final 3
4 c propose c.0 floor 0 wants 0 stamp 4
5 b single b.0 floor 0 wants 0 stamp 5
6 b settle c.0 final 4
7 b single b.1 floor 5 wants 5 stamp 6
8 a trim 6
9 b single b.2 floor 6 wants 5 stamp 7
= clock 7 line a.0:1,a.1:2,a.2:3,c.0:4,b.0:5,b.1:6,b.2:7 queue - cut 7 base 6
column r y
0 a propose a.2 floor 2 wants 0 stamp 3
1 a settle a.2 final 3
2 c propose c.0 floor 0 wants 0 stamp 4
3 b settle c.0 final 4
= clock 4 line a.2:3,c.0:4 queue - cut 2 base 0
",
    ),
];

#[test]
fn commands_of_objects_append_and_answer(rt: HostRuntime) -> Result<(), Fail> {
    all_leave(rt.alloc(), &rt, "step", WHOLE, &REPORTS)
}
