// An ordinary script: user names, jobs, and notes between two sites.
use super::*;

/// A service's users stand in a map, its jobs in a queue, and two sites keep notes together. Each dequeue comes after its own
/// client's enqueue, and so finds a job.
pub const SERVICE: &str = "fuzzylog 1
regions e w
colours x y z
client a e
client b e
client c w
client d w
map m e x y
queue q e z
causal n y
begin
a put m user1 ann
a put m user2 bob
b put m user3 cyd
b putall m user1=ada user2=ben
a enq q job1
b enq q job2
a deq q
b deq q
c append x note1
d append x,y note2
c put n k1 v1
c pull e x
c sync x
d pull e y
d sync y
a pull w x
a sync x
a getall m user1 user2 user3
b get m user2
d get n k1
";

/// The shards of the three users are x, y and x.
const SERVED: &str = "report 1
client a
12 put ok 1 x!0@0
13 put ok 2 y!0@0
16 enq ok 3 z!0@0
18 deq ok job1 z!2@2 z?3/3,0
27 pull ok 2 give !4 carry !5
28 sync ok x?6/3,2 plays 5
+ a.0 1 p:user1=ann
+ c.0 1 note1
+ b.0 2 p:user3=cyd
+ d.0 2 note2
+ b.1 3 m:user1=ada,user2=ben
29 getall ok 5 user1=ada user2=ben user3=cyd x!6 y!4 x?7/3,2 y?5/2,0
client b
14 put ok 2 x!1@1
15 putall ok 3 row 0 x!2@2 y!1@1
17 enq ok 4 z!1@1
19 deq ok job2 z!3@3 z?4/4,0
30 get ok ben y?5/2,0
client c
20 append ok 1 x!0@0
22 put ok 3 y!2@1
23 pull ok 3 give !4 carry !3
24 sync ok x?4/3,2 plays 5
+ a.0 1 p:user1=ann
+ c.0 1 note1
+ b.0 2 p:user3=cyd
+ d.0 2 note2
+ b.1 3 m:user1=ada,user2=ben
client d
21 append ok 2 row 0 x!1@1 y!0@0
25 pull ok 2 give !3 carry !3
26 sync ok y?4/2,2 plays 4
+ a.1 2 p:user2=bob
+ d.0 2 note2
+ b.1 3 m:user1=ada,user2=ben
+ c.1 3 c:k1=v1
31 get ok v1 y?4/2,2
row e b.0 b.1 x=3 y=3 final 3
row w d.0 d.0 x=2 y=1 final 2
column e x
0 a single a.0 floor 0 wants 0,0 stamp 1
1 b single b.0 floor 0 wants 0,0 stamp 2
2 b propose b.1 floor 2 wants 0,0 stamp 3
3 b settle b.1 final 3
4 c give w 0
5 a carry w 0 c.0:1/0,0 d.0:2/0,0
6 a raise 5
= clock 5 line a.0:1,b.0:2,b.1:3 queue - cut 3,2 base 0,0
column e y
0 a single a.1 floor 1 wants 0,0 stamp 2
1 b propose b.1 floor 2 wants 0,0 stamp 3
2 b settle b.1 final 3
3 d give w 0
4 a raise 5
= clock 5 line a.1:2,b.1:3 queue - cut 2,0 base 0,0
column e z
0 a single a.2 floor 2 wants 0,0 stamp 3
1 b single b.2 floor 3 wants 0,0 stamp 4
2 a single a.3 floor 3 wants 0,0 stamp 5
3 b single b.3 floor 4 wants 0,0 stamp 6
= clock 6 line a.2:3,b.2:4,a.3:5,b.3:6 queue - cut 4,0 base 0,0
column w x
0 c single c.0 floor 0 wants 0,0 stamp 1
1 d propose d.0 floor 0 wants 0,0 stamp 2
2 d settle d.0 final 2
3 c carry e 0 a.0:1/0,0 b.0:2/0,0 b.1:3/0,0
4 a give e 0
= clock 2 line c.0:1,d.0:2 queue - cut 3,2 base 0,0
column w y
0 d propose d.0 floor 0 wants 0,0 stamp 1
1 d settle d.0 final 2
2 c single c.1 floor 1 wants 0,0 stamp 3
3 d carry e 0 a.1:2/0,0 b.1:3/0,0
= clock 3 line d.0:2,c.1:3 queue - cut 2,2 base 0,0
column w z
= clock 0 line - queue - cut 0,0 base 0,0
";

#[test]
fn a_small_service_is_served(rt: HostRuntime) -> Result<(), Fail> {
    leaves(
        rt.alloc(),
        &rt,
        "step",
        SERVICE.as_bytes(),
        Status::Done,
        SERVED.as_bytes(),
    )
}
