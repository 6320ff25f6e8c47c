// Scripts with their right reports, and what is changed of these.

/// A part of a right report, what stands in its place, and the rule that is broken first.
pub type Change = (&'static str, &'static str, u8);

/// Scripts, their right reports, and changes of these.
pub const RUNS: [(&str, &str, &[Change]); 10] = [
    // One client appends to one colour, and syncs.
    (
        "fuzzylog 1
regions r
colours x
client a r
begin
a append x hi
a sync x
a append x yo
",
        "report 1
client a
6 append ok 1 x!0@0
7 sync ok x?1/1 plays 1
+ a.0 1 hi
8 append ok 2 x!1@1
column r x
0 a single a.0 floor 0 wants 0 stamp 1
1 a single a.1 floor 1 wants 1 stamp 2
= clock 2 line a.0:1,a.1:2 queue - cut 2 base 0
",
        &[
            // Rule 1: the reply is to another line, or to another command.
            ("6 append", "7 append", 1),
            (
                "7 sync ok x?1/1 plays 1\n+ a.0 1 hi\n",
                "7 append ok 1 x!0@0\n",
                1,
            ),
            // Rule 2: another clock; a stamp that is not the next one; another line.
            ("clock 2", "clock 3", 2),
            ("clock 2", "clock 18446744073709551615", 2),
            (
                "stamp 2\n= clock 2 line a.0:1,a.1:2",
                "stamp 3\n= clock 3 line a.0:1,a.1:3",
                2,
            ),
            ("a.1:2 queue -", "a.1:3 queue -", 2),
            // Rule 4: an event that is not there, or was seen already; a look at more than there is; a position behind which own
            // nodes are known to stand later, and a snapshot without such nodes.
            ("x!0@0", "x!2@0", 4),
            ("x!1@1", "x!0@1", 4),
            ("x?1/1", "x?3/1", 4),
            ("x?1/1", "x?18446744073709551615/1", 4),
            ("x!0@0", "x!0@1", 4),
            ("x?1/1", "x?1/0", 4),
            // Rule 5: the node has another floor, or other wants, than its client had.
            ("floor 1 wants 1", "floor 0 wants 1", 5),
            ("floor 1 wants 1", "floor 1 wants 0", 5),
            // Rule 6: another stamp, another position.
            ("append ok 2", "append ok 3", 6),
            ("append ok 2", "append ok 18446744073709551615", 6),
            ("x!1@1", "x!1@2", 6),
            // Rule 9: a node is not shown, or is shown otherwise.
            ("plays 1\n+ a.0 1 hi\n", "plays 0\n", 9),
            ("+ a.0 1 hi", "+ a.0 2 hi", 9),
            ("+ a.0 1 hi", "+ a.0 1 ho", 9),
        ],
    ),
    // Two clients append to several colours.
    (
        "fuzzylog 1
regions r
colours x y
client a r
client b r
client c r
begin
b append y p
a sync y
a append x,y q
a append x,y r
",
        "report 1
client a
9 sync ok y?1/1 plays 1
+ b.0 1 p
10 append ok 2 row 0 x!0@0 y!1@1
11 append ok 3 row 1 x!2@1 y!3@2
client b
8 append ok 1 y!0@0
client c
row r a.0 a.0 x=2 y=2 final 2
row r a.1 a.1 x=3 y=3 final 3
column r x
0 a propose a.0 floor 1 wants 0 stamp 2
1 a settle a.0 final 2
2 a propose a.1 floor 2 wants 0 stamp 3
3 a settle a.1 final 3
= clock 3 line a.0:2,a.1:3 queue - cut 2 base 0
column r y
0 b single b.0 floor 0 wants 0 stamp 1
1 a propose a.0 floor 1 wants 1 stamp 2
2 a settle a.0 final 2
3 a propose a.1 floor 2 wants 1 stamp 3
4 a settle a.1 final 3
= clock 3 line b.0:1,a.0:2,a.1:3 queue - cut 3 base 0
",
        &[
            // Rule 3: a row with a mark, an outcome or an id that the columns do not have.
            ("a.1 x=3 y=3", "a.1 x=2 y=3", 3),
            ("x=2 y=2 final 2", "x=2 y=2 final 3", 3),
            ("x=2 y=2 final 2", "x=2 y=- open", 3),
            ("row r a.1 a.1 x=3 y=3 final 3\n", "", 3),
            // Rule 4: another client's event.
            ("y!1@1", "y!0@1", 4),
            ("3 a propose a.1", "3 c propose a.1", 4),
            // Rule 5: what the node wants of y.
            (
                "1 a propose a.0 floor 1 wants 1",
                "1 a propose a.0 floor 1 wants 0",
                5,
            ),
            // Rule 6: the row's number, the position.
            ("ok 3 row 1", "ok 3 row 0", 6),
            ("y!3@2", "y!3@3", 6),
            ("y!3@2", "y!3@18446744073709551615", 6),
            // Rule 9.
            ("+ b.0 1 p", "+ a.0 1 p", 9),
        ],
    ),
    // An append that stopped is completed by another client.
    (
        "fuzzylog 1
regions r
colours x y
client a r
client b r
client c r
begin
a stop 2 x,y one
b append x two
c stop 1 x,y q
",
        "report 1
client a
8 stop stopped 2
client b
9 append ok 2 x!1@1
client c
10 stop stopped 1
row r a.0 a.0 x=1 y=1 final 1
row r c.0 c.0 x=- y=- open
column r x
0 a propose a.0 floor 0 wants 0 stamp 1
1 b single b.0 floor 0 wants 0 stamp 2
2 b settle a.0 final 1
= clock 2 line a.0:1,b.0:2 queue - cut 2 base 0
column r y
0 b propose a.0 floor 0 wants 0 stamp 1
1 b settle a.0 final 1
= clock 1 line a.0:1 queue - cut 1 base 0
",
        &[
            // Rule 4: one helps that has no command which may.
            ("2 b settle a.0", "2 c settle a.0", 4),
            // Rule 5: a row that its client did not begin.
            ("row r c.0 c.0 x=- y=- open\n", "", 5),
            ("10 stop stopped 1\n", "10 stop stopped 0\n", 5),
            // Rule 7: fewer or more steps than were asked.
            ("stopped 2", "stopped 3", 7),
            ("10 stop stopped 1\n", "10 stop stopped 2\n", 7),
            // Rule 8: what is helped is not complete.
            (
                "1 b settle a.0 final 1\n= clock 1 line a.0:1 queue - cut 1 base 0\n",
                "= clock 1 line - queue a.0:1? cut 0 base 0\n",
                8,
            ),
        ],
    ),
    // Two regions pull and trim.
    (
        "fuzzylog 1
regions e w
colours x
client a e
client b w
client d e
begin
a append x one
b pull e x
b sync x
b append x two
a pull w x
a sync x
",
        "report 1
client a
8 append ok 1 x!0@0
12 pull ok 1 give !2 carry !2
13 sync ok x?3/1,1 plays 2
+ a.0 1 one
+ b.0 2 two
client b
9 pull ok 1 give !1 carry !0
10 sync ok x?1/1,0 plays 1
+ a.0 1 one
11 append ok 2 x!1@0
client d
column e x
0 a single a.0 floor 0 wants 0,0 stamp 1
1 b give w 0
2 a carry w 0 b.0:2/1,0
= clock 1 line a.0:1 queue - cut 1,1 base 0,0
column w x
0 b carry e 0 a.0:1/0,0
1 b single b.0 floor 1 wants 1,0 stamp 2
2 a give e 0
= clock 2 line b.0:2 queue - cut 1,1 base 0,0
",
        &[
            // Rule 3: a copy that is none.
            ("2 a carry w 0 b.0:2/1,0", "2 a carry w 0 b.0:3/1,0", 3),
            ("0 b carry e 0 a.0:1/0,0", "0 b carry e 0 d.0:1/0,0", 3),
            // Rule 4.
            ("9 pull ok 1 give !1", "9 pull ok 1 give !0", 4),
            ("1 b give w 0", "1 a give w 0", 4),
            // Rule 9: how many nodes came, a snapshot that was none, the nodes in another order.
            ("9 pull ok 1", "9 pull ok 2", 9),
            ("x?3/1,1", "x?3/1,0", 9),
            (
                "+ a.0 1 one\n+ b.0 2 two\n",
                "+ b.0 2 two\n+ a.0 1 one\n",
                9,
            ),
        ],
    ),
    // Own nodes are trimmed as far as the other region has asked past them.
    (
        "fuzzylog 1
regions e w
colours x
client a e
client b w
client d e
begin
a append x one
a sync x
a trim x
b pull e x
b pull e x
a trim x
d sync x
",
        "report 1
client a
8 append ok 1 x!0@0
9 sync ok x?1/1,0 plays 1
+ a.0 1 one
10 trim ok !1 base 0,0
13 trim ok !4 base 1,0
client b
11 pull ok 1 give !2 carry !0
12 pull ok 0 give !3 carry ?1
client d
14 sync trimmed x 1,0
column e x
0 a single a.0 floor 0 wants 0,0 stamp 1
1 a trim 1,0
2 b give w 0
3 b give w 1
4 a trim 1,0
= clock 1 line a.0:1 queue - cut 1,0 base 1,0
column w x
0 b carry e 0 a.0:1/0,0
= clock 0 line - queue - cut 1,0 base 0,0
",
        &[
            ("cut 1,0 base 1,0", "cut 1,0 base 0,0", 2),
            ("10 trim ok !1 base 0,0", "10 trim ok !1 base 1,0", 9),
            ("13 trim ok !4", "13 trim ok !1", 4),
        ],
    ),
    // A map and a queue.
    (
        "fuzzylog 1
regions r
colours x y
client a r
map m r x
queue q r y
begin
a put m k v
a get m k
a enq q job
a deq q
",
        "report 1
client a
8 put ok 1 x!0@0
9 get ok v x?1/1
10 enq ok 2 y!0@0
11 deq ok job y!1@1 y?2/2
column r x
0 a single a.0 floor 0 wants 0 stamp 1
= clock 1 line a.0:1 queue - cut 1 base 0
column r y
0 a single a.1 floor 1 wants 0 stamp 2
1 a single a.2 floor 2 wants 0 stamp 3
= clock 3 line a.1:2,a.2:3 queue - cut 2 base 0
",
        &[
            ("9 get ok v x?1/1", "9 put ok 1 x!0@0", 1),
            ("y!1@1", "y!0@1", 4),
            ("x?1/1", "x?1/2", 9),
        ],
    ),
    // Two clients read, and one commits before the other.
    (
        "fuzzylog 1
regions r
colours x y
client a r
client b r
tx t r x y
begin
a read t b
b read t b
b commit t b=7
a commit t b=8
b read t b
b commit t b=9
a sync x
",
        "report 1
client a
8 read ok 0 b=- x?0 y?0 x?0/0 y?0/0
11 commit conflict b 1 x!1@1 at 2 x?2 y!1 x?2/2 y?2/0
14 sync ok x?3/3 plays 1
+ b.1 3 t:b@1.1.0|b=9
client b
9 read ok 0 b=- x?0 y?0 x?0/0 y?0/0
10 commit committed 1 x!0@0 at 1 x?1 y!0 x?1/1 y?1/0
12 read ok 2 b=7 x?2 y?2 x?2/2 y?2/0
13 commit committed 3 x!2@2 at 3 x?3 y!2 x?3/3 y?3/0
column r x
0 b single b.0 floor 0 wants 0 stamp 1
1 a single a.0 floor 0 wants 0 stamp 2
2 b single b.1 floor 2 wants 2 stamp 3
= clock 3 line b.0:1,a.0:2,b.1:3 queue - cut 3 base 0
column r y
0 b raise 1
1 a raise 2
2 b raise 3
= clock 3 line - queue - cut 0 base 0
",
        &[
            ("b=7 x?2", "b=7 x?3", 4),
            ("9 read ok 0 b=- x?0", "9 read ok 1 b=- x?0", 5),
            ("t:b@1.1.0|b=9", "t:b@1.1.0|b=8", 9),
            ("t:b@1.1.0|b=9", "t:b@1.0.0|a=9", 9),
        ],
    ),
    // A map that is played by one colour, and who decides its transactions.
    (
        "fuzzylog 2
regions r
colours x y
client a r
client b r
parts p r x y
begin
a read p a
b read p a
b commit p a=1
a commit p b=2
b peek p b
b decide p b
b peek p b
a decide p b
a peek p a
",
        "report 2
client a
8 read ok 0 a=- x?0 y?0 x?0/0 y?0/0
11 commit conflict a 1 row 0 x!1@0 y!1@1 at 2 x?3 y?3 x?3/1 y?3/2
15 decide none x?4/2
16 peek ok 1 y?3/2
client b
9 read ok 0 a=- x?0 y?0 x?0/0 y?0/0
10 commit committed 1 y!0@0 at 1 x!0 y?1 x?1/0 y?1/1
12 peek undecided 2 x?3/1
13 decide conflict 2 x?3/1 at 2 x?3 y?3 x?3/1 y?3/2 ok 3 x!3@1
14 peek none x?4/2
row r a.0 a.0 x=2 y=2 final 2
column r x
0 b raise 1
1 a propose a.0 floor 0 wants 0 stamp 2
2 a settle a.0 final 2
3 b single b.1 floor 2 wants 1 stamp 3
= clock 3 line a.0:2,b.1:3 queue - cut 2 base 0
column r y
0 b single b.0 floor 0 wants 0 stamp 1
1 a propose a.0 floor 0 wants 0 stamp 2
2 a settle a.0 final 2
= clock 2 line b.0:1,a.0:2 queue - cut 2 base 0
",
        &[
            (
                "13 decide conflict 2 x?3/1 at 2 x?3 y?3 x?3/1 y?3/2 ok 3 x!3@1",
                "13 decide none x?3/1",
                4,
            ),
            ("y?3/2 ok 3 x!3@1", "y?3/2 ok 4 x!3@1", 6),
            ("12 peek undecided 2 x?3/1", "12 peek undecided 2 x?3/2", 4),
        ],
    ),
    // A tree of names.
    (
        "fuzzylog 2
regions r
colours x y
client a r
client b r
tree t r x y
begin
a rm t /a
a mk t /a 1
a mk t /a/b 2
a rm t /a
a rm t /a/c
a rm t /a/b
a rm t /a
a rm t /a
a ls t /
",
        "report 2
client a
8 rm failed missing 1 y!0@0 at 1 x!0 y?1 x?1/0 y?1/1
9 mk done 2 y!1@1 at 2 x!1 y?2 x?2/0 y?2/2
10 mk done 3 y!2@2 at 3 x!2 y?3 x?3/0 y?3/3
11 rm failed notempty 4 y!3@3 at 4 x!3 y?4 x?4/0 y?4/4
12 rm failed missing 5 y!4@4 at 5 x!4 y?5 x?5/0 y?5/5
13 rm done 6 y!5@5 at 6 x!5 y?6 x?6/0 y?6/6
14 rm done 7 y!6@6 at 7 x!6 y?7 x?7/0 y?7/7
15 rm failed missing 8 y!7@7 at 8 x!7 y?8 x?8/0 y?8/8
16 ls ok 8 - x?8 y?8 x?8/0 y?8/8
client b
column r x
0 a raise 1
1 a raise 2
2 a raise 3
3 a raise 4
4 a raise 5
5 a raise 6
6 a raise 7
7 a raise 8
= clock 8 line - queue - cut 0 base 0
column r y
0 a single a.0 floor 0 wants 0 stamp 1
1 a single a.1 floor 1 wants 1 stamp 2
2 a single a.2 floor 2 wants 2 stamp 3
3 a single a.3 floor 3 wants 3 stamp 4
4 a single a.4 floor 4 wants 4 stamp 5
5 a single a.5 floor 5 wants 5 stamp 6
6 a single a.6 floor 6 wants 6 stamp 7
7 a single a.7 floor 7 wants 7 stamp 8
= clock 8 line a.0:1,a.1:2,a.2:3,a.3:4,a.4:5,a.5:6,a.6:7,a.7:8 queue - cut 8 base 0
",
        &[("14 rm done 7 y!6@6", "14 rm done 7 x!6@6", 1)],
    ),
    // A small service of a map, a queue and notes, at two sites.
    (
        "fuzzylog 1
regions e w
colours x y z
client a e
client b e
client c w
client d w
map m e x y
queue q e z
causal n y
begin
a put m user1 ann
a put m user2 bob
b put m user3 cyd
b putall m user1=ada user2=ben
a enq q job1
b enq q job2
a deq q
b deq q
c append x note1
d append x,y note2
c put n k1 v1
c pull e x
c sync x
d pull e y
d sync y
a pull w x
a sync x
a getall m user1 user2 user3
b get m user2
d get n k1
",
        "report 1
client a
12 put ok 1 x!0@0
13 put ok 2 y!0@0
16 enq ok 3 z!0@0
18 deq ok job1 z!2@2 z?3/3,0
27 pull ok 2 give !4 carry !5
28 sync ok x?6/3,2 plays 5
+ a.0 1 p:user1=ann
+ c.0 1 note1
+ b.0 2 p:user3=cyd
+ d.0 2 note2
+ b.1 3 m:user1=ada,user2=ben
29 getall ok 5 user1=ada user2=ben user3=cyd x!6 y!4 x?7/3,2 y?5/2,0
client b
14 put ok 2 x!1@1
15 putall ok 3 row 0 x!2@2 y!1@1
17 enq ok 4 z!1@1
19 deq ok job2 z!3@3 z?4/4,0
30 get ok ben y?5/2,0
client c
20 append ok 1 x!0@0
22 put ok 3 y!2@1
23 pull ok 3 give !4 carry !3
24 sync ok x?4/3,2 plays 5
+ a.0 1 p:user1=ann
+ c.0 1 note1
+ b.0 2 p:user3=cyd
+ d.0 2 note2
+ b.1 3 m:user1=ada,user2=ben
client d
21 append ok 2 row 0 x!1@1 y!0@0
25 pull ok 2 give !3 carry !3
26 sync ok y?4/2,2 plays 4
+ a.1 2 p:user2=bob
+ d.0 2 note2
+ b.1 3 m:user1=ada,user2=ben
+ c.1 3 c:k1=v1
31 get ok v1 y?4/2,2
row e b.0 b.1 x=3 y=3 final 3
row w d.0 d.0 x=2 y=1 final 2
column e x
0 a single a.0 floor 0 wants 0,0 stamp 1
1 b single b.0 floor 0 wants 0,0 stamp 2
2 b propose b.1 floor 2 wants 0,0 stamp 3
3 b settle b.1 final 3
4 c give w 0
5 a carry w 0 c.0:1/0,0 d.0:2/0,0
6 a raise 5
= clock 5 line a.0:1,b.0:2,b.1:3 queue - cut 3,2 base 0,0
column e y
0 a single a.1 floor 1 wants 0,0 stamp 2
1 b propose b.1 floor 2 wants 0,0 stamp 3
2 b settle b.1 final 3
3 d give w 0
4 a raise 5
= clock 5 line a.1:2,b.1:3 queue - cut 2,0 base 0,0
column e z
0 a single a.2 floor 2 wants 0,0 stamp 3
1 b single b.2 floor 3 wants 0,0 stamp 4
2 a single a.3 floor 3 wants 0,0 stamp 5
3 b single b.3 floor 4 wants 0,0 stamp 6
= clock 6 line a.2:3,b.2:4,a.3:5,b.3:6 queue - cut 4,0 base 0,0
column w x
0 c single c.0 floor 0 wants 0,0 stamp 1
1 d propose d.0 floor 0 wants 0,0 stamp 2
2 d settle d.0 final 2
3 c carry e 0 a.0:1/0,0 b.0:2/0,0 b.1:3/0,0
4 a give e 0
= clock 2 line c.0:1,d.0:2 queue - cut 3,2 base 0,0
column w y
0 d propose d.0 floor 0 wants 0,0 stamp 1
1 d settle d.0 final 2
2 c single c.1 floor 1 wants 0,0 stamp 3
3 d carry e 0 a.1:2/0,0 b.1:3/0,0
= clock 3 line d.0:2,c.1:3 queue - cut 2,2 base 0,0
column w z
= clock 0 line - queue - cut 0,0 base 0,0
",
        &[(
            "a.0 1 p:user1=ann\n+ c.0 1 note1\n",
            "a.0 1 p:user1=ann\n",
            9,
        )],
    ),
];
