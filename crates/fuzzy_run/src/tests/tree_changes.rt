// Trees of names: what changes of each kind are told, and whole scripts with trees.
use super::*;
use crate::tests::trees::TREE;

/// Lines of one client alone from line 8 on, and the report, which is the same in every schedule.
const ALONE: [(&str, &str); 7] = [
    // What a name is made of: it is not there, and its folder is. The root is always there.
    (
        "a mk t /a 1
a mk t /a 2
a mk t /b/c 3
a mk t /a/b/c 4
a mk t /a/b 5
a mk t /a/b/c 6
a mk t /a/b/c/d 7
a ls t /a/b/c/d
",
        "report 2
client a
8 mk done 1 y!0@0 at 1 x!0 y?1 x?1/0 y?1/1
9 mk failed exists 2 y!1@1 at 2 x!1 y?2 x?2/0 y?2/2
10 mk failed noparent 3 x!2@0 at 3 x?3 y!2 x?3/1 y?3/2
11 mk failed noparent 4 y!3@2 at 4 x!3 y?4 x?4/1 y?4/3
12 mk done 5 y!4@3 at 5 x!4 y?5 x?5/1 y?5/4
13 mk done 6 y!5@4 at 6 x!5 y?6 x?6/1 y?6/5
14 mk done 7 y!6@5 at 7 x!6 y?7 x?7/1 y?7/6
15 ls ok 7 - x?7 y?7 x?7/1 y?7/6
client b
column r x
0 a raise 1
1 a raise 2
2 a single a.2 floor 2 wants 0 stamp 3
3 a raise 4
4 a raise 5
5 a raise 6
6 a raise 7
= clock 7 line a.2:3 queue - cut 1 base 0
column r y
0 a single a.0 floor 0 wants 0 stamp 1
1 a single a.1 floor 1 wants 1 stamp 2
2 a raise 3
3 a single a.3 floor 3 wants 2 stamp 4
4 a single a.4 floor 4 wants 3 stamp 5
5 a single a.5 floor 5 wants 4 stamp 6
6 a single a.6 floor 6 wants 5 stamp 7
= clock 7 line a.0:1,a.1:2,a.3:4,a.4:5,a.5:6,a.6:7 queue - cut 6 base 0
",
    ),
    // What is removed is there and has nothing in it.
    (
        "a rm t /a
a mk t /a 1
a mk t /a/b 2
a rm t /a
a rm t /a/c
a rm t /a/b
a rm t /a
a rm t /a
a ls t /
",
        "report 2
client a
8 rm failed missing 1 y!0@0 at 1 x!0 y?1 x?1/0 y?1/1
9 mk done 2 y!1@1 at 2 x!1 y?2 x?2/0 y?2/2
10 mk done 3 y!2@2 at 3 x!2 y?3 x?3/0 y?3/3
11 rm failed notempty 4 y!3@3 at 4 x!3 y?4 x?4/0 y?4/4
12 rm failed missing 5 y!4@4 at 5 x!4 y?5 x?5/0 y?5/5
13 rm done 6 y!5@5 at 6 x!5 y?6 x?6/0 y?6/6
14 rm done 7 y!6@6 at 7 x!6 y?7 x?7/0 y?7/7
15 rm failed missing 8 y!7@7 at 8 x!7 y?8 x?8/0 y?8/8
16 ls ok 8 - x?8 y?8 x?8/0 y?8/8
client b
column r x
0 a raise 1
1 a raise 2
2 a raise 3
3 a raise 4
4 a raise 5
5 a raise 6
6 a raise 7
7 a raise 8
= clock 8 line - queue - cut 0 base 0
column r y
0 a single a.0 floor 0 wants 0 stamp 1
1 a single a.1 floor 1 wants 1 stamp 2
2 a single a.2 floor 2 wants 2 stamp 3
3 a single a.3 floor 3 wants 3 stamp 4
4 a single a.4 floor 4 wants 4 stamp 5
5 a single a.5 floor 5 wants 5 stamp 6
6 a single a.6 floor 6 wants 6 stamp 7
7 a single a.7 floor 7 wants 7 stamp 8
= clock 8 line a.0:1,a.1:2,a.2:3,a.3:4,a.4:5,a.5:6,a.6:7,a.7:8 queue - cut 8 base 0
",
    ),
    // Each reason why a move fails.
    (
        "a mk t /a 1
a mk t /a/b 2
a mk t /a/b/c 3
a mk t /d 4
a mv t /b /c
a mv t /b /b
a mv t /a /a
a mv t /a /a/b
a mv t /a /a/e/f
a mv t /a /d
a mv t /d /a/b
a mv t /d /b/c
a mv t /a /d/a/b
a mv t /a /d/a
a mv t /a/b /d/b
a mv t /d/b/c /e
a ls t /
",
        "report 2
client a
8 mk done 1 y!0@0 at 1 x!0 y?1 x?1/0 y?1/1
9 mk done 2 y!1@1 at 2 x!1 y?2 x?2/0 y?2/2
10 mk done 3 y!2@2 at 3 x!2 y?3 x?3/0 y?3/3
11 mk done 4 x!3@0 at 4 x?4 y!3 x?4/1 y?4/3
12 mv failed missing 5 row 0 x!4@1 y!4@3 at 5 x?6 y?6 x?6/2 y?6/4
13 mv failed missing 6 x!6@2 at 6 x?7 y!6 x?7/3 y?7/4
14 mv failed inside 7 y!7@4 at 7 x!7 y?8 x?8/3 y?8/5
15 mv failed inside 8 y!8@5 at 8 x!8 y?9 x?9/3 y?9/6
16 mv failed inside 9 y!9@6 at 9 x!9 y?10 x?10/3 y?10/7
17 mv failed exists 10 row 1 x!10@3 y!10@7 at 10 x?12 y?12 x?12/4 y?12/8
18 mv failed exists 11 row 2 x!12@4 y!12@8 at 11 x?14 y?14 x?14/5 y?14/9
19 mv failed noparent 12 x!14@5 at 12 x?15 y!14 x?15/6 y?15/9
20 mv failed noparent 13 row 3 x!15@6 y!15@9 at 13 x?17 y?17 x?17/7 y?17/10
21 mv done 14 row 4 x!17@7 y!17@10 at 14 x?19 y?19 x?19/8 y?19/11
22 mv failed missing 15 row 5 x!19@8 y!19@11 at 15 x?21 y?21 x?21/9 y?21/12
23 mv failed missing 16 row 6 x!21@9 y!21@12 at 16 x?23 y?23 x?23/10 y?23/13
24 ls ok 16 d x?23 y?23 x?23/10 y?23/13
client b
row r a.0 a.4 x=5 y=5 final 5
row r a.1 a.9 x=10 y=10 final 10
row r a.2 a.10 x=11 y=11 final 11
row r a.3 a.12 x=13 y=13 final 13
row r a.4 a.13 x=14 y=14 final 14
row r a.5 a.14 x=15 y=15 final 15
row r a.6 a.15 x=16 y=16 final 16
column r x
0 a raise 1
1 a raise 2
2 a raise 3
3 a single a.3 floor 3 wants 0 stamp 4
4 a propose a.4 floor 4 wants 1 stamp 5
5 a settle a.4 final 5
6 a single a.5 floor 5 wants 2 stamp 6
7 a raise 7
8 a raise 8
9 a raise 9
10 a propose a.9 floor 9 wants 3 stamp 10
11 a settle a.9 final 10
12 a propose a.10 floor 10 wants 4 stamp 11
13 a settle a.10 final 11
14 a single a.11 floor 11 wants 5 stamp 12
15 a propose a.12 floor 12 wants 6 stamp 13
16 a settle a.12 final 13
17 a propose a.13 floor 13 wants 7 stamp 14
18 a settle a.13 final 14
19 a propose a.14 floor 14 wants 8 stamp 15
20 a settle a.14 final 15
21 a propose a.15 floor 15 wants 9 stamp 16
22 a settle a.15 final 16
= clock 16 line a.3:4,a.4:5,a.5:6,a.9:10,a.10:11,a.11:12,a.12:13,a.13:14,a.14:15,a.15:16 queue - cut 10 base 0
column r y
0 a single a.0 floor 0 wants 0 stamp 1
1 a single a.1 floor 1 wants 1 stamp 2
2 a single a.2 floor 2 wants 2 stamp 3
3 a raise 4
4 a propose a.4 floor 4 wants 3 stamp 5
5 a settle a.4 final 5
6 a raise 6
7 a single a.6 floor 6 wants 4 stamp 7
8 a single a.7 floor 7 wants 5 stamp 8
9 a single a.8 floor 8 wants 6 stamp 9
10 a propose a.9 floor 9 wants 7 stamp 10
11 a settle a.9 final 10
12 a propose a.10 floor 10 wants 8 stamp 11
13 a settle a.10 final 11
14 a raise 12
15 a propose a.12 floor 12 wants 9 stamp 13
16 a settle a.12 final 13
17 a propose a.13 floor 13 wants 10 stamp 14
18 a settle a.13 final 14
19 a propose a.14 floor 14 wants 11 stamp 15
20 a settle a.14 final 15
21 a propose a.15 floor 15 wants 12 stamp 16
22 a settle a.15 final 16
= clock 16 line a.0:1,a.1:2,a.2:3,a.4:5,a.6:7,a.7:8,a.8:9,a.9:10,a.10:11,a.12:13,a.13:14,a.14:15,a.15:16 queue - cut 13 base 0
",
    ),
    // A path would have more than four names, which is tested last.
    (
        "a mk t /a 1
a mk t /a/b 2
a mk t /a/b/c 3
a mk t /d 4
a mk t /d/e 5
a mv t /a /d/e/a
a mv t /a /d/f/a
a mv t /d /a/b/c/d
a mv t /d /a/b/d
a mv t /a /e
a mk t /e/b/c/f 6
a mv t /e /g
a mk t /h 7
a mv t /g /h/g
a mv t /g/b /h/b
a mv t /g /h/b/c/g
a ls t /h/b/c
",
        "report 2
client a
8 mk done 1 y!0@0 at 1 x!0 y?1 x?1/0 y?1/1
9 mk done 2 y!1@1 at 2 x!1 y?2 x?2/0 y?2/2
10 mk done 3 y!2@2 at 3 x!2 y?3 x?3/0 y?3/3
11 mk done 4 x!3@0 at 4 x?4 y!3 x?4/1 y?4/3
12 mk done 5 x!4@1 at 5 x?5 y!4 x?5/2 y?5/3
13 mv failed deep 6 row 0 x!5@2 y!5@3 at 6 x?7 y?7 x?7/3 y?7/4
14 mv failed noparent 7 row 1 x!7@3 y!7@4 at 7 x?9 y?9 x?9/4 y?9/5
15 mv failed deep 8 row 2 x!9@4 y!9@5 at 8 x?11 y?11 x?11/5 y?11/6
16 mv done 9 row 3 x!11@5 y!11@6 at 9 x?13 y?13 x?13/6 y?13/7
17 mv done 10 y!13@7 at 10 x!13 y?14 x?14/6 y?14/8
18 mk done 11 y!14@8 at 11 x!14 y?15 x?15/6 y?15/9
19 mv done 12 y!15@9 at 12 x!15 y?16 x?16/6 y?16/10
20 mk done 13 x!16@6 at 13 x?17 y!16 x?17/7 y?17/10
21 mv failed deep 14 row 4 x!17@7 y!17@10 at 14 x?19 y?19 x?19/8 y?19/11
22 mv done 15 row 5 x!19@8 y!19@11 at 15 x?21 y?21 x?21/9 y?21/12
23 mv done 16 row 6 x!21@9 y!21@12 at 16 x?23 y?23 x?23/10 y?23/13
24 ls ok 16 f,g x?23 y?23 x?23/10 y?23/13
client b
row r a.0 a.5 x=6 y=6 final 6
row r a.1 a.6 x=7 y=7 final 7
row r a.2 a.7 x=8 y=8 final 8
row r a.3 a.8 x=9 y=9 final 9
row r a.4 a.13 x=14 y=14 final 14
row r a.5 a.14 x=15 y=15 final 15
row r a.6 a.15 x=16 y=16 final 16
column r x
0 a raise 1
1 a raise 2
2 a raise 3
3 a single a.3 floor 3 wants 0 stamp 4
4 a single a.4 floor 4 wants 1 stamp 5
5 a propose a.5 floor 5 wants 2 stamp 6
6 a settle a.5 final 6
7 a propose a.6 floor 6 wants 3 stamp 7
8 a settle a.6 final 7
9 a propose a.7 floor 7 wants 4 stamp 8
10 a settle a.7 final 8
11 a propose a.8 floor 8 wants 5 stamp 9
12 a settle a.8 final 9
13 a raise 10
14 a raise 11
15 a raise 12
16 a single a.12 floor 12 wants 6 stamp 13
17 a propose a.13 floor 13 wants 7 stamp 14
18 a settle a.13 final 14
19 a propose a.14 floor 14 wants 8 stamp 15
20 a settle a.14 final 15
21 a propose a.15 floor 15 wants 9 stamp 16
22 a settle a.15 final 16
= clock 16 line a.3:4,a.4:5,a.5:6,a.6:7,a.7:8,a.8:9,a.12:13,a.13:14,a.14:15,a.15:16 queue - cut 10 base 0
column r y
0 a single a.0 floor 0 wants 0 stamp 1
1 a single a.1 floor 1 wants 1 stamp 2
2 a single a.2 floor 2 wants 2 stamp 3
3 a raise 4
4 a raise 5
5 a propose a.5 floor 5 wants 3 stamp 6
6 a settle a.5 final 6
7 a propose a.6 floor 6 wants 4 stamp 7
8 a settle a.6 final 7
9 a propose a.7 floor 7 wants 5 stamp 8
10 a settle a.7 final 8
11 a propose a.8 floor 8 wants 6 stamp 9
12 a settle a.8 final 9
13 a single a.9 floor 9 wants 7 stamp 10
14 a single a.10 floor 10 wants 8 stamp 11
15 a single a.11 floor 11 wants 9 stamp 12
16 a raise 13
17 a propose a.13 floor 13 wants 10 stamp 14
18 a settle a.13 final 14
19 a propose a.14 floor 14 wants 11 stamp 15
20 a settle a.14 final 15
21 a propose a.15 floor 15 wants 12 stamp 16
22 a settle a.15 final 16
= clock 16 line a.0:1,a.1:2,a.2:3,a.5:6,a.6:7,a.7:8,a.8:9,a.9:10,a.10:11,a.11:12,a.13:14,a.14:15,a.15:16 queue - cut 13 base 0
",
    ),
    // A move in one shard is an append to one colour and takes no row; one to itself stands in one as well.
    (
        "a mk t /a 1
a mv t /a /c
a mv t /c /c
a mv t /c /b
a ls t /
",
        "report 2
client a
8 mk done 1 y!0@0 at 1 x!0 y?1 x?1/0 y?1/1
9 mv done 2 y!1@1 at 2 x!1 y?2 x?2/0 y?2/2
10 mv failed inside 3 y!2@2 at 3 x!2 y?3 x?3/0 y?3/3
11 mv done 4 row 0 x!3@0 y!3@3 at 4 x?5 y?5 x?5/1 y?5/4
12 ls ok 4 b x?5 y?5 x?5/1 y?5/4
client b
row r a.0 a.3 x=4 y=4 final 4
column r x
0 a raise 1
1 a raise 2
2 a raise 3
3 a propose a.3 floor 3 wants 0 stamp 4
4 a settle a.3 final 4
= clock 4 line a.3:4 queue - cut 1 base 0
column r y
0 a single a.0 floor 0 wants 0 stamp 1
1 a single a.1 floor 1 wants 1 stamp 2
2 a single a.2 floor 2 wants 2 stamp 3
3 a propose a.3 floor 3 wants 3 stamp 4
4 a settle a.3 final 4
= clock 4 line a.0:1,a.1:2,a.2:3,a.3:4 queue - cut 4 base 0
",
    ),
    // Names come by their bytes: digits before letters, and a name before one that goes on from it. What is further down does
    // not show.
    (
        "a mk t /b 1
a mk t /ab 2
a mk t /a 3
a mk t /a/z 4
a mk t /0 5
a mk t /a0 6
a mk t /aa 7
a mk t /a/z/y 8
a mk t /9 9
a ls t /
a ls t /a
a ls t /a/z/y
",
        "report 2
client a
8 mk done 1 x!0@0 at 1 x?1 y!0 x?1/1 y?1/0
9 mk done 2 y!1@0 at 2 x!1 y?2 x?2/1 y?2/1
10 mk done 3 y!2@1 at 3 x!2 y?3 x?3/1 y?3/2
11 mk done 4 y!3@2 at 4 x!3 y?4 x?4/1 y?4/3
12 mk done 5 x!4@1 at 5 x?5 y!4 x?5/2 y?5/3
13 mk done 6 y!5@3 at 6 x!5 y?6 x?6/2 y?6/4
14 mk done 7 x!6@2 at 7 x?7 y!6 x?7/3 y?7/4
15 mk done 8 y!7@4 at 8 x!7 y?8 x?8/3 y?8/5
16 mk done 9 y!8@5 at 9 x!8 y?9 x?9/3 y?9/6
17 ls ok 9 0,9,a,a0,aa,ab,b x?9 y?9 x?9/3 y?9/6
18 ls ok 9 z x?9 y?9 x?9/3 y?9/6
19 ls ok 9 - x?9 y?9 x?9/3 y?9/6
client b
column r x
0 a single a.0 floor 0 wants 0 stamp 1
1 a raise 2
2 a raise 3
3 a raise 4
4 a single a.4 floor 4 wants 1 stamp 5
5 a raise 6
6 a single a.6 floor 6 wants 2 stamp 7
7 a raise 8
8 a raise 9
= clock 9 line a.0:1,a.4:5,a.6:7 queue - cut 3 base 0
column r y
0 a raise 1
1 a single a.1 floor 1 wants 0 stamp 2
2 a single a.2 floor 2 wants 1 stamp 3
3 a single a.3 floor 3 wants 2 stamp 4
4 a raise 5
5 a single a.5 floor 5 wants 3 stamp 6
6 a raise 7
7 a single a.7 floor 7 wants 4 stamp 8
8 a single a.8 floor 8 wants 5 stamp 9
= clock 9 line a.1:2,a.2:3,a.3:4,a.5:6,a.7:8,a.8:9 queue - cut 6 base 0
",
    ),
    // Nothing is in a path without names, and one that is not there is missing; in the root there may be nothing.
    (
        "a ls t /
a ls t /a
a mk t /a 1
a ls t /a
a ls t /a/b
a ls t /b
",
        "report 2
client a
8 ls ok 0 - x?0 y?0 x?0/0 y?0/0
9 ls missing 0 x?0 y?0 x?0/0 y?0/0
10 mk done 1 y!0@0 at 1 x!0 y?1 x?1/0 y?1/1
11 ls ok 1 - x?1 y?1 x?1/0 y?1/1
12 ls missing 1 x?1 y?1 x?1/0 y?1/1
13 ls missing 1 x?1 y?1 x?1/0 y?1/1
client b
column r x
0 a raise 1
= clock 1 line - queue - cut 0 base 0
column r y
0 a single a.0 floor 0 wants 0 stamp 1
= clock 1 line a.0:1 queue - cut 1 base 0
",
    ),
];

/// Whole scripts, and their reports.
const WHOLE_REPORTS: [(&str, &str); 7] = [
    // A move that finds no row to begin is told so and changes nothing; one in a single shard takes none.
    (
        "fuzzylog 2
regions r
colours x y
rows 1
client a r
tree t r x y
begin
a mk t /a 1
a append x,y q
a mv t /a /b
a mv t /a /c
a ls t /
",
        "report 2
client a
8 mk done 1 y!0@0 at 1 x!0 y?1 x?1/0 y?1/1
9 append ok 2 row 0 x!1@0 y!1@1
10 mv full 1
11 mv done 3 y!3@2 at 3 x!3 y?4 x?4/1 y?4/3
12 ls ok 3 c x?4 y?4 x?4/1 y?4/3
row r a.0 a.1 x=2 y=2 final 2
column r x
0 a raise 1
1 a propose a.1 floor 1 wants 0 stamp 2
2 a settle a.1 final 2
3 a raise 3
= clock 3 line a.1:2 queue - cut 1 base 0
column r y
0 a single a.0 floor 0 wants 0 stamp 1
1 a propose a.1 floor 1 wants 1 stamp 2
2 a settle a.1 final 2
3 a single a.2 floor 2 wants 1 stamp 3
= clock 3 line a.0:1,a.1:2,a.2:3 queue - cut 3 base 0
",
    ),
    // Away from its home nothing is changed and nothing listed; nodes that were pulled from another region are no changes.
    (
        "fuzzylog 2
regions e w
colours x y
client a e
client b w
tree t e x y
begin
a mk t /a 1
b append y k:/b=2
b mk t /a 1
b rm t /a
b mv t /a /b
b ls t /
a pull w y
a ls t /
a mk t /b 3
",
        "report 2
client a
8 mk done 1 y!0@0 at 1 x!0 y?1 x?1/0,0 y?1/1,0
14 pull ok 1 give !1 carry !1
15 ls ok 1 a x?1 y?2 x?1/0,0 y?2/1,1
16 mk done 2 x!1@0 at 2 x?2 y!2 x?2/1,0 y?3/1,1
client b
9 append ok 1 y!0@0
10 mk nothome e
11 rm nothome e
12 mv nothome e
13 ls nothome e
column e x
0 a raise 1
1 a single a.1 floor 1 wants 0,0 stamp 2
= clock 2 line a.1:2 queue - cut 1,0 base 0,0
column e y
0 a single a.0 floor 0 wants 0,0 stamp 1
1 a carry w 0 b.0:1/0,0
2 a raise 2
= clock 2 line a.0:1 queue - cut 1,1 base 0,0
column w x
= clock 0 line - queue - cut 0,0 base 0,0
column w y
0 b single b.0 floor 0 wants 0,0 stamp 1
1 a give e 0
= clock 1 line b.0:1 queue - cut 0,1 base 0,0
",
    ),
    // Who comes after nodes were trimmed lists nothing, and has a change that stands and is told nothing.
    (
        "fuzzylog 2
regions r
colours x y
client a r
client b r
tree t r x y
begin
a mk t /a 1
a mk t /b 2
a trim y
b ls t /
b mk t /c 3
b rm t /b
b mv t /a /d
b mv t /a /c
a ls t /
",
        "report 2
client a
8 mk done 1 y!0@0 at 1 x!0 y?1 x?1/0 y?1/1
9 mk done 2 x!1@0 at 2 x?2 y!1 x?2/1 y?2/1
10 trim ok !2 base 1
16 ls ok 6 c,d x?7 y?8 x?7/3 y?8/4
client b
11 ls trimmed y 1
12 mk unread 3 trimmed y 1
13 rm unread 4 trimmed y 1
14 mv unread 5 trimmed y 1
15 mv unread 6 trimmed y 1
row r b.0 b.2 x=5 y=5 final 5
column r x
0 a raise 1
1 a single a.1 floor 1 wants 0 stamp 2
2 b raise 3
3 b single b.1 floor 3 wants 1 stamp 4
4 b propose b.2 floor 4 wants 2 stamp 5
5 b settle b.2 final 5
6 b raise 6
= clock 6 line a.1:2,b.1:4,b.2:5 queue - cut 3 base 0
column r y
0 a single a.0 floor 0 wants 0 stamp 1
1 a raise 2
2 a trim 1
3 b single b.0 floor 2 wants 0 stamp 3
4 b raise 4
5 b propose b.2 floor 4 wants 0 stamp 5
6 b settle b.2 final 5
7 b single b.3 floor 5 wants 0 stamp 6
= clock 6 line a.0:1,b.0:3,b.2:5,b.3:6 queue - cut 4 base 1
",
    ),
    // Two trees with a colour in common: a change is one for each tree that has a colour in which it stands.
    (
        "fuzzylog 2
regions r
colours x y
client a r
tree t r x y
tree u r x
map m r x
begin
a mk t /b 1
a mk u /a 2
a mk t /c 3
a ls t /
a ls u /
a mv t /c /d
a ls u /
a put m k 4
a mv u /a /e
a ls t /
a ls u /
",
        "report 2
client a
9 mk done 1 x!0@0 at 1 x?1 y!0 x?1/1 y?1/0
10 mk done 2 x!1@1 at 2 x?2 x?2/2
11 mk done 3 y!1@0 at 3 x!2 y?2 x?3/2 y?2/1
12 ls ok 3 a,b,c x?3 y?2 x?3/2 y?2/1
13 ls ok 3 a,b x?3 x?3/2
14 mv done 4 row 0 x!3@2 y!2@1 at 4 x?5 y?4 x?5/3 y?4/2
15 ls ok 4 a,b x?5 x?5/3
16 put ok 5 x!5@3
17 mv done 6 x!6@4 at 6 x?7 x?7/5
18 ls ok 6 b,d,e x?7 y!4 x?7/5 y?5/2
19 ls ok 6 b,e x?7 x?7/5
row r a.0 a.3 x=4 y=4 final 4
column r x
0 a single a.0 floor 0 wants 0 stamp 1
1 a single a.1 floor 1 wants 1 stamp 2
2 a raise 3
3 a propose a.3 floor 3 wants 2 stamp 4
4 a settle a.3 final 4
5 a single a.4 floor 4 wants 3 stamp 5
6 a single a.5 floor 5 wants 3 stamp 6
= clock 6 line a.0:1,a.1:2,a.3:4,a.4:5,a.5:6 queue - cut 5 base 0
column r y
0 a raise 1
1 a single a.2 floor 2 wants 0 stamp 3
2 a propose a.3 floor 3 wants 1 stamp 4
3 a settle a.3 final 4
4 a raise 6
= clock 6 line a.2:3,a.3:4 queue - cut 2 base 0
",
    ),
    // A list helps a move to a stamp above its own: it shows what was before, and the next one what is then.
    (
        "fuzzylog 2
regions r
colours x y z
client a r
client b r
client c r
tree t r x y
begin
c append z one
c append z two
c append z three
c append x k:/b=1
a stop 2 x,z v:/b>/d
c append z four
c append z five
b ls t /
b ls t /
",
        "report 2
client a
13 stop stopped 2
client b
16 ls ok 5 b x?2 y!0 x?3/2 y?1/0
17 ls ok 7 d x?3 y!1 x?3/2 y?2/0
client c
9 append ok 1 z!0@0
10 append ok 2 z!1@1
11 append ok 3 z!2@2
12 append ok 4 x!0@0
14 append ok 5 z!3@3
15 append ok 6 z!4@4
row r a.0 a.0 x=5 z=7 final 7
column r x
0 c single c.3 floor 3 wants 0 stamp 4
1 a propose a.0 floor 0 wants 0 stamp 5
2 b settle a.0 final 7
= clock 7 line c.3:4,a.0:7 queue - cut 2 base 0
column r y
0 b raise 5
1 b raise 7
= clock 7 line - queue - cut 0 base 0
column r z
0 c single c.0 floor 0 wants 0 stamp 1
1 c single c.1 floor 1 wants 0 stamp 2
2 c single c.2 floor 2 wants 0 stamp 3
3 c single c.4 floor 4 wants 0 stamp 5
4 c single c.5 floor 5 wants 0 stamp 6
5 b propose a.0 floor 0 wants 0 stamp 7
6 b settle a.0 final 7
= clock 7 line c.0:1,c.1:2,c.2:3,c.4:5,c.5:6,a.0:7 queue - cut 6 base 0
",
    ),
    // One colour, and its list by a client that has made nothing.
    (
        "fuzzylog 2
regions r
colours x
client a r
client b r
tree t r x
begin
a mk t /a 1
a mk t /b 2
a mv t /a /b/a
b ls t /b
b rm t /b/a
b rm t /b
a ls t /
",
        "report 2
client a
8 mk done 1 x!0@0 at 1 x?1 x?1/1
9 mk done 2 x!1@1 at 2 x?2 x?2/2
10 mv done 3 x!2@2 at 3 x?3 x?3/3
14 ls ok 5 - x?5 x?5/5
client b
11 ls ok 3 a x?3 x?3/3
12 rm done 4 x!3@3 at 4 x?4 x?4/4
13 rm done 5 x!4@4 at 5 x?5 x?5/5
column r x
0 a single a.0 floor 0 wants 0 stamp 1
1 a single a.1 floor 1 wants 1 stamp 2
2 a single a.2 floor 2 wants 2 stamp 3
3 b single b.0 floor 3 wants 3 stamp 4
4 b single b.1 floor 4 wants 4 stamp 5
= clock 5 line a.0:1,a.1:2,a.2:3,b.0:4,b.1:5 queue - cut 5 base 0
",
    ),
    // The same path in trees of other colours: the shards are counted in the order of the object line.
    (
        "fuzzylog 2
regions r
colours x y z
client a r
tree t r y x
tree u r z x y
begin
a mk t /a 1
a mk u /a 2
a mk t /b 3
a mk u /b 4
a mk u /c 5
a ls t /
a ls u /
",
        "report 2
client a
8 mk done 1 x!0@0 at 1 x?1 y!0 x?1/1 y?1/0
9 mk failed exists 2 x!1@1 at 2 x?2 y!1 z!0 x?2/2 y?2/0 z?1/0
10 mk done 3 y!2@0 at 3 x!2 y?3 x?3/2 y?3/1
11 mk failed exists 4 y!3@1 at 4 x!3 y?4 z!1 x?4/2 y?4/2 z?2/0
12 mk done 5 z!2@0 at 5 x!4 y!4 z?3 x?5/2 y?5/2 z?3/1
13 ls ok 5 a,b x?5 y?5 x?5/2 y?5/2
14 ls ok 5 a,b,c x?5 y?5 z?3 x?5/2 y?5/2 z?3/1
column r x
0 a single a.0 floor 0 wants 0 stamp 1
1 a single a.1 floor 1 wants 1 stamp 2
2 a raise 3
3 a raise 4
4 a raise 5
= clock 5 line a.0:1,a.1:2 queue - cut 2 base 0
column r y
0 a raise 1
1 a raise 2
2 a single a.2 floor 2 wants 0 stamp 3
3 a single a.3 floor 3 wants 1 stamp 4
4 a raise 5
= clock 5 line a.2:3,a.3:4 queue - cut 2 base 0
column r z
0 a raise 2
1 a raise 4
2 a single a.4 floor 4 wants 0 stamp 5
= clock 5 line a.4:5 queue - cut 1 base 0
",
    ),
];

#[test]
fn changes_are_told_what_becomes_of_them(rt: HostRuntime) -> Result<(), Fail> {
    all_leave(rt.alloc(), &rt, "step", TREE, &ALONE)?;
    all_leave(rt.alloc(), &rt, "run", TREE, &ALONE)?;
    all_leave(rt.alloc(), &rt, "step", WHOLE, &WHOLE_REPORTS)
}
