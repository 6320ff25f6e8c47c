// Transactions: reads of maps, and commits that rest on them.
use super::*;

/// Scripts, and their reports.
const REPORTS: [(&str, &str); 6] = [
    // Two clients read, and one commits before the other: what that one read is no longer so, and it is told the key and the
    // stamp of its last writer. What it read is used up. A commit's text names the writer on which it rests.
    (
        "fuzzylog 1
regions r
colours x y
client a r
client b r
tx t r x y
begin
a read t b
b read t b
b commit t b=7
a commit t b=8
b read t b
b commit t b=9
a sync x
",
        "report 1
client a
8 read ok 0 b=- x?0 y?0 x?0/0 y?0/0
11 commit conflict b 1 x!1@1 at 2 x?2 y!1 x?2/2 y?2/0
14 sync ok x?3/3 plays 1
+ b.1 3 t:b@1.1.0|b=9
client b
9 read ok 0 b=- x?0 y?0 x?0/0 y?0/0
10 commit committed 1 x!0@0 at 1 x?1 y!0 x?1/1 y?1/0
12 read ok 2 b=7 x?2 y?2 x?2/2 y?2/0
13 commit committed 3 x!2@2 at 3 x?3 y!2 x?3/3 y?3/0
column r x
0 b single b.0 floor 0 wants 0 stamp 1
1 a single a.0 floor 0 wants 0 stamp 2
2 b single b.1 floor 2 wants 2 stamp 3
= clock 3 line b.0:1,a.0:2,b.1:3 queue - cut 3 base 0
column r y
0 b raise 1
1 a raise 2
2 b raise 3
= clock 3 line - queue - cut 0 base 0
",
    ),
    // A conflict is told of the first key read that was written since, among several colours; a client away from home reads
    // nothing and commits nothing; a trim that nothing is left behind changes no verdict.
    (
        "fuzzylog 1
regions e w
colours x y
client a e
client b e
client c w
client d e
tx m e x y
begin
a read m a b
a commit m a=1 b=2
b read m a b
d read m a
a read m a
a commit m a=3
b commit m b=4
c read m a
c commit m a=6
d read m b
a trim y
d read m a
d commit m b=7
b read m a
a trim x
b commit m b=8
",
        "report 1
client a
10 read ok 0 a=- b=- x?0 y?0 x?0/0,0 y?0/0,0
11 commit committed 1 row 0 x!0@0 y!0@0 at 1 x?2 y?2 x?2/1,0 y?2/1,0
14 read ok 1 a=1 x?2 y?2 x?2/1,0 y?2/1,0
15 commit committed 2 y!2@1 at 2 x!2 y?3 x?3/1,0 y?3/2,0
20 trim ok !5 base 0,0
24 trim ok !7 base 0,0
client b
12 read ok 1 a=1 b=2 x?2 y?2 x?2/1,0 y?2/1,0
16 commit conflict a 2 row 0 x!3@1 y!3@2 at 3 x?5 y?5 x?5/2,0 y?5/3,0
23 read ok 4 a=3 x?7 y?8 x?7/3,0 y?8/4,0
25 commit committed 5 row 1 x!8@3 y!8@4 at 5 x?10 y?10 x?10/4,0 y?10/5,0
client c
17 read nothome e
18 commit nothome e
client d
13 read ok 1 a=1 x?2 y?2 x?2/1,0 y?2/1,0
19 read ok 3 b=2 x?5 y?5 x?5/2,0 y?5/3,0
21 read ok 3 a=3 x?5 y?6 x?5/2,0 y?6/3,0
22 commit committed 4 row 0 x!5@2 y!6@3 at 4 x?7 y?8 x?7/3,0 y?8/4,0
row e a.0 a.0 x=1 y=1 final 1
row e b.0 b.0 x=3 y=3 final 3
row e b.1 b.1 x=5 y=5 final 5
row e d.0 d.0 x=4 y=4 final 4
column e x
0 a propose a.0 floor 0 wants 0,0 stamp 1
1 a settle a.0 final 1
2 a raise 2
3 b propose b.0 floor 1 wants 1,0 stamp 3
4 b settle b.0 final 3
5 d propose d.0 floor 3 wants 2,0 stamp 4
6 d settle d.0 final 4
7 a trim 1,0
8 b propose b.1 floor 4 wants 3,0 stamp 5
9 b settle b.1 final 5
= clock 5 line a.0:1,b.0:3,d.0:4,b.1:5 queue - cut 4,0 base 0,0
column e y
0 a propose a.0 floor 0 wants 0,0 stamp 1
1 a settle a.0 final 1
2 a single a.1 floor 1 wants 1,0 stamp 2
3 b propose b.0 floor 1 wants 1,0 stamp 3
4 b settle b.0 final 3
5 a trim 2,0
6 d propose d.0 floor 3 wants 3,0 stamp 4
7 d settle d.0 final 4
8 b propose b.1 floor 4 wants 4,0 stamp 5
9 b settle b.1 final 5
= clock 5 line a.0:1,a.1:2,b.0:3,d.0:4,b.1:5 queue - cut 5,0 base 0,0
column w x
= clock 0 line - queue - cut 0,0 base 0,0
column w y
= clock 0 line - queue - cut 0,0 base 0,0
",
    ),
    // A read that is refused keeps nothing, so that there is no transaction for the commit behind it; a commit whose own node
    // stands, and whose read is refused, has no verdict.
    (
        "fuzzylog 1
regions r
colours x y
client a r
client b r
client d r
tx m r x y
begin
d read m b
a read m a
a commit m a=1
a trim y
b read m a
b commit m a=2
d commit m b=3
d read m b
d commit m b=4
",
        "report 1
client a
10 read ok 0 a=- x?0 y?0 x?0/0 y?0/0
11 commit committed 1 y!0@0 at 1 x!0 y?1 x?1/0 y?1/1
12 trim ok !1 base 1
client b
13 read trimmed y 1
14 commit notx
client d
9 read ok 0 b=- x?0 y?0 x?0/0 y?0/0
15 commit unread 2 trimmed y 1
16 read trimmed y 1
17 commit notx
column r x
0 a raise 1
1 d single d.0 floor 0 wants 0 stamp 2
= clock 2 line d.0:2 queue - cut 1 base 0
column r y
0 a single a.0 floor 0 wants 0 stamp 1
1 a trim 1
2 d raise 2
= clock 2 line a.0:1 queue - cut 1 base 1
",
    ),
    // Texts that were appended by hand are transactions as any other. Those that conflict write nothing, so a commit that rests
    // on an earlier writer stands; texts of other forms are passed over.
    (
        "fuzzylog 1
regions r
colours x y
client a r
client b r
tx t r x y
begin
a append x t:b@-|b=1
a append x t:b@-|b=2
b read t b
a append y t:b@9.0.9|b=3
b append x t:B@-|b=4
b append x t:b@1.0.0|b=5,b=6
b commit t a=7
a append x p:b=8
a read t a b
",
        "report 1
client a
8 append ok 1 x!0@0
9 append ok 2 x!1@1
11 append ok 3 y!1@0
15 append ok 6 x!6@5
16 read ok 6 a=7 b=1 x?7 y!4 x?7/6 y?5/2
client b
10 read ok 2 b=1 x?2 y!0 x?2/2 y?1/0
12 append ok 3 x!2@2
13 append ok 4 x!3@3
14 commit committed 5 row 0 x!4@4 y!2@1 at 5 x?6 y?4 x?6/5 y?4/2
row r b.0 b.2 x=5 y=5 final 5
column r x
0 a single a.0 floor 0 wants 0 stamp 1
1 a single a.1 floor 1 wants 0 stamp 2
2 b single b.0 floor 2 wants 2 stamp 3
3 b single b.1 floor 3 wants 2 stamp 4
4 b propose b.2 floor 4 wants 2 stamp 5
5 b settle b.2 final 5
6 a single a.3 floor 3 wants 0 stamp 6
= clock 6 line a.0:1,a.1:2,b.0:3,b.1:4,b.2:5,a.3:6 queue - cut 6 base 0
column r y
0 b raise 2
1 a single a.2 floor 2 wants 0 stamp 3
2 b propose b.2 floor 4 wants 0 stamp 5
3 b settle b.2 final 5
4 a raise 6
= clock 6 line a.2:3,b.2:5 queue - cut 2 base 0
",
    ),
    // A commit that finds no row to begin is told so, and its read is used up; one on a single colour takes none.
    (
        "fuzzylog 1
regions r
colours x y
rows 1
client a r
tx t r x y
begin
a append x,y q
a read t a b
a commit t a=1 b=2
a read t a
a commit t a=3
",
        "report 1
client a
8 append ok 1 row 0 x!0@0 y!0@0
9 read ok 1 a=- b=- x?2 y?2 x?2/1 y?2/1
10 commit full 1
11 read ok 1 a=- x?2 y?2 x?2/1 y?2/1
12 commit committed 2 y!2@1 at 2 x!2 y?3 x?3/1 y?3/2
row r a.0 a.0 x=1 y=1 final 1
column r x
0 a propose a.0 floor 0 wants 0 stamp 1
1 a settle a.0 final 1
2 a raise 2
= clock 2 line a.0:1 queue - cut 1 base 0
column r y
0 a propose a.0 floor 0 wants 0 stamp 1
1 a settle a.0 final 1
2 a single a.1 floor 1 wants 1 stamp 2
= clock 2 line a.0:1,a.1:2 queue - cut 2 base 0
",
    ),
    // A read helps a transaction to a stamp above its own: it does not show it, and the commit that rests on it conflicts with
    // it.
    (
        "fuzzylog 1
regions r
colours x y z
client a r
client b r
client c r
tx t r x y
begin
c append z p1
c append z p2
a stop 2 x,z t:b@-|b=5
b read t b
b commit t b=6
b read t b
",
        "report 1
client a
11 stop stopped 2
client b
12 read ok 1 b=- x?1 y!0 x?2/1 y?1/0
13 commit conflict b 3 x!2@1 at 4 x?3 y!1 x?3/2 y?2/0
14 read ok 4 b=5 x?3 y?2 x?3/2 y?2/0
client c
9 append ok 1 z!0@0
10 append ok 2 z!1@1
row r a.0 a.0 x=1 z=3 final 3
column r x
0 a propose a.0 floor 0 wants 0 stamp 1
1 b settle a.0 final 3
2 b single b.0 floor 3 wants 1 stamp 4
= clock 4 line a.0:3,b.0:4 queue - cut 2 base 0
column r y
0 b raise 1
1 b raise 4
= clock 4 line - queue - cut 0 base 0
column r z
0 c single c.0 floor 0 wants 0 stamp 1
1 c single c.1 floor 1 wants 0 stamp 2
2 b propose a.0 floor 0 wants 0 stamp 3
3 b settle a.0 final 3
= clock 3 line c.0:1,c.1:2,a.0:3 queue - cut 3 base 0
",
    ),
];

#[test]
fn transactions_are_validated(rt: HostRuntime) -> Result<(), Fail> {
    all_leave(rt.alloc(), &rt, "step", WHOLE, &REPORTS)
}
