// Trees of names: changes, why they fail, and what is in a path. The shard of a path is that of its first name: of `b` and `d` it
// is x, of `a` and `c` it is y.
use super::*;
use crate::tests::in_turn::{Row as Turns, all_are_the_same};
use crate::tests::refusals::{Row, all_refused};

/// What scripts begin with: two clients and a tree in one region with two colours; commands begin at line 8.
pub const TREE: &str =
    "fuzzylog 2\nregions r\ncolours x y\nclient a r\nclient b r\ntree t r x y\nbegin\n";

/// Lines from line 8 on, and the report.
const REPORTS: [(&str, &str); 9] = [
    // One client makes a name, another makes one in a folder that is not there; a move stands in the shards of both names, and
    // who lists the root finds the new one.
    (
        "a mk t /a 1
b mk t /b/c 2
a mv t /a /b
b ls t /
",
        "report 2
client a
8 mk done 1 y!0@0 at 1 x!0 y?1 x?1/0 y?1/1
10 mv done 3 row 0 x!2@1 y!2@1 at 3 x?4 y?4 x?4/2 y?4/2
client b
9 mk failed noparent 2 x!1@0 at 2 x?2 y!1 x?2/1 y?2/1
11 ls ok 3 b x?4 y?4 x?4/2 y?4/2
row r a.0 a.1 x=3 y=3 final 3
column r x
0 a raise 1
1 b single b.0 floor 0 wants 0 stamp 2
2 a propose a.1 floor 1 wants 0 stamp 3
3 a settle a.1 final 3
= clock 3 line b.0:2,a.1:3 queue - cut 2 base 0
column r y
0 a single a.0 floor 0 wants 0 stamp 1
1 b raise 2
2 a propose a.1 floor 1 wants 1 stamp 3
3 a settle a.1 final 3
= clock 3 line a.0:1,a.1:3 queue - cut 2 base 0
",
    ),
    // Of two who make the same name one fails; of two who move the same name one finds it gone.
    (
        "a mk t /a 1
b mk t /a 2
a mv t /a /b
b mv t /a /d
a ls t /
",
        "report 2
client a
8 mk done 1 y!0@0 at 1 x!0 y?1 x?1/0 y?1/1
10 mv done 3 row 0 x!2@0 y!2@2 at 3 x?4 y?4 x?4/1 y?4/3
12 ls ok 4 b x?6 y?6 x?6/2 y?6/4
client b
9 mk failed exists 2 y!1@1 at 2 x!1 y?2 x?2/0 y?2/2
11 mv failed missing 4 row 0 x!4@1 y!4@3 at 4 x?6 y?6 x?6/2 y?6/4
row r a.0 a.1 x=3 y=3 final 3
row r b.0 b.1 x=4 y=4 final 4
column r x
0 a raise 1
1 b raise 2
2 a propose a.1 floor 1 wants 0 stamp 3
3 a settle a.1 final 3
4 b propose b.1 floor 2 wants 0 stamp 4
5 b settle b.1 final 4
= clock 4 line a.1:3,b.1:4 queue - cut 2 base 0
column r y
0 a single a.0 floor 0 wants 0 stamp 1
1 b single b.0 floor 0 wants 0 stamp 2
2 a propose a.1 floor 1 wants 1 stamp 3
3 a settle a.1 final 3
4 b propose b.1 floor 2 wants 2 stamp 4
5 b settle b.1 final 4
= clock 4 line a.0:1,b.0:2,a.1:3,b.1:4 queue - cut 4 base 0
",
    ),
    // A folder is moved while another client lists it: all of it is in one place, and what is made in the old place behind the
    // move fails.
    (
        "a mk t /a 1
a mk t /a/b 2
a mk t /a/b/c 3
b ls t /a/b
a mv t /a /d
b ls t /a/b
b mk t /a/e 4
b ls t /d/b
b mv t /d/b /a
a ls t /
a ls t /a
a ls t /d
",
        "report 2
client a
8 mk done 1 y!0@0 at 1 x!0 y?1 x?1/0 y?1/1
9 mk done 2 y!1@1 at 2 x!1 y?2 x?2/0 y?2/2
10 mk done 3 y!2@2 at 3 x!2 y?3 x?3/0 y?3/3
12 mv done 4 row 0 x!3@0 y!3@3 at 4 x?5 y?5 x?5/1 y?5/4
17 ls ok 6 a,d x?8 y?8 x?8/2 y?8/6
18 ls ok 6 c x?8 y?8 x?8/2 y?8/6
19 ls ok 6 - x?8 y?8 x?8/2 y?8/6
client b
11 ls ok 3 c x?3 y?3 x?3/0 y?3/3
13 ls missing 4 x?5 y?5 x?5/1 y?5/4
14 mk failed noparent 5 y!5@4 at 5 x!5 y?6 x?6/1 y?6/5
15 ls ok 5 c x?6 y?6 x?6/1 y?6/5
16 mv done 6 row 0 x!6@1 y!6@5 at 6 x?8 y?8 x?8/2 y?8/6
row r a.0 a.3 x=4 y=4 final 4
row r b.0 b.1 x=6 y=6 final 6
column r x
0 a raise 1
1 a raise 2
2 a raise 3
3 a propose a.3 floor 3 wants 0 stamp 4
4 a settle a.3 final 4
5 b raise 5
6 b propose b.1 floor 5 wants 1 stamp 6
7 b settle b.1 final 6
= clock 6 line a.3:4,b.1:6 queue - cut 2 base 0
column r y
0 a single a.0 floor 0 wants 0 stamp 1
1 a single a.1 floor 1 wants 1 stamp 2
2 a single a.2 floor 2 wants 2 stamp 3
3 a propose a.3 floor 3 wants 3 stamp 4
4 a settle a.3 final 4
5 b single b.0 floor 4 wants 4 stamp 5
6 b propose b.1 floor 5 wants 5 stamp 6
7 b settle b.1 final 6
= clock 6 line a.0:1,a.1:2,a.2:3,a.3:4,b.0:5,b.1:6 queue - cut 6 base 0
",
    ),
    // A change by hand is a change in whichever colour of the tree it stands. A text with the root, a wrong path, a wrong value
    // or another form is none.
    (
        "a append x k:/a=1
b mk t /a 2
a append x,y k:/a/b=3
a append x k:/=4
a append x x:/
a append y v:/>/c
a append y v:/a>/
a append x k:/A=5
a append y k:/c
a append y k:c=6
a append y k:/c=C
a append y k:/c=1=2
a append y k:/c/=7
a append y x:/b/a
a append y p:/c=8
a append x v:/a>/c
b ls t /
b ls t /c
a append y x:/c/b
b rm t /c
b ls t /
",
        "report 2
client a
8 append ok 1 x!0@0
10 append ok 2 row 0 x!1@1 y!1@1
11 append ok 3 x!3@2
12 append ok 4 x!4@3
13 append ok 5 y!3@2
14 append ok 6 y!4@3
15 append ok 7 x!5@4
16 append ok 8 y!5@4
17 append ok 9 y!6@5
18 append ok 10 y!7@6
19 append ok 11 y!8@7
20 append ok 12 y!9@8
21 append ok 13 y!10@9
22 append ok 14 y!11@10
23 append ok 15 x!6@5
26 append ok 16 y!13@11
client b
9 mk failed exists 1 y!0@0 at 1 x?1 y?1 x?1/1 y?1/1
24 ls ok 15 c x?7 y!12 x?7/6 y?13/11
25 ls ok 15 b x?7 y?13 x?7/6 y?13/11
27 rm done 17 y!14@12 at 17 x!7 y?15 x?8/6 y?15/13
28 ls ok 17 - x?8 y?15 x?8/6 y?15/13
row r a.0 a.1 x=2 y=2 final 2
column r x
0 a single a.0 floor 0 wants 0 stamp 1
1 a propose a.1 floor 1 wants 0 stamp 2
2 a settle a.1 final 2
3 a single a.2 floor 2 wants 0 stamp 3
4 a single a.3 floor 3 wants 0 stamp 4
5 a single a.6 floor 6 wants 0 stamp 7
6 a single a.14 floor 14 wants 0 stamp 15
7 b raise 17
= clock 17 line a.0:1,a.1:2,a.2:3,a.3:4,a.6:7,a.14:15 queue - cut 6 base 0
column r y
0 b single b.0 floor 0 wants 0 stamp 1
1 a propose a.1 floor 1 wants 0 stamp 2
2 a settle a.1 final 2
3 a single a.4 floor 4 wants 0 stamp 5
4 a single a.5 floor 5 wants 0 stamp 6
5 a single a.7 floor 7 wants 0 stamp 8
6 a single a.8 floor 8 wants 0 stamp 9
7 a single a.9 floor 9 wants 0 stamp 10
8 a single a.10 floor 10 wants 0 stamp 11
9 a single a.11 floor 11 wants 0 stamp 12
10 a single a.12 floor 12 wants 0 stamp 13
11 a single a.13 floor 13 wants 0 stamp 14
12 b raise 15
13 a single a.15 floor 15 wants 0 stamp 16
14 b single b.1 floor 15 wants 11 stamp 17
= clock 17 line b.0:1,a.1:2,a.4:5,a.5:6,a.7:8,a.8:9,a.9:10,a.10:11,a.11:12,a.12:13,a.13:14,a.15:16,b.1:17 queue - cut 13 base 0
",
    ),
    // A change meets what another client has left open in a colour of the tree, and its read completes it.
    (
        "a append y k:/c=1
a stop 2 x,y v:/c>/d
b mk t /a 2
b ls t /
",
        "report 2
client a
8 append ok 1 y!0@0
9 stop stopped 2
client b
10 mk done 2 y!1@1 at 2 x?1 y?2 x?2/1 y?4/3
11 ls ok 3 a,d x?2 y?4 x?2/1 y?4/3
row r a.0 a.1 x=2 y=3 final 3
column r x
0 a propose a.1 floor 1 wants 0 stamp 2
1 b settle a.1 final 3
= clock 3 line a.1:3 queue - cut 1 base 0
column r y
0 a single a.0 floor 0 wants 0 stamp 1
1 b single b.0 floor 0 wants 0 stamp 2
2 b propose a.1 floor 1 wants 0 stamp 3
3 b settle a.1 final 3
= clock 3 line a.0:1,b.0:2,a.1:3 queue - cut 3 base 0
",
    ),
    // A move that stopped in the middle is completed by who lists; before that it is no change.
    (
        "a mk t /a 1
a mk t /a/b 2
a stop 2 x,y v:/a>/d
b ls t /
b ls t /d
",
        "report 2
client a
8 mk done 1 y!0@0 at 1 x!0 y?1 x?1/0 y?1/1
9 mk done 2 y!1@1 at 2 x!1 y?2 x?2/0 y?2/2
10 stop stopped 2
client b
11 ls ok 3 a x?3 y!2 x?4/1 y?5/3
12 ls ok 4 b x?4 y?5 x?4/1 y?5/3
row r a.0 a.2 x=3 y=4 final 4
column r x
0 a raise 1
1 a raise 2
2 a propose a.2 floor 2 wants 0 stamp 3
3 b settle a.2 final 4
= clock 4 line a.2:4 queue - cut 1 base 0
column r y
0 a single a.0 floor 0 wants 0 stamp 1
1 a single a.1 floor 1 wants 1 stamp 2
2 b raise 3
3 b propose a.2 floor 2 wants 2 stamp 4
4 b settle a.2 final 4
= clock 4 line a.0:1,a.1:2,a.2:4 queue - cut 3 base 0
",
    ),
    // One that stopped before its first mark is no change ever.
    (
        "a mk t /a 1
a stop 1 x,y v:/a>/d
b mk t /c 2
b ls t /
",
        "report 2
client a
8 mk done 1 y!0@0 at 1 x!0 y?1 x?1/0 y?1/1
9 stop stopped 1
client b
10 mk done 2 y!1@1 at 2 x!1 y?2 x?2/0 y?2/2
11 ls ok 2 a,c x?2 y?2 x?2/0 y?2/2
row r a.0 a.1 x=- y=- open
column r x
0 a raise 1
1 b raise 2
= clock 2 line - queue - cut 0 base 0
column r y
0 a single a.0 floor 0 wants 0 stamp 1
1 b single b.0 floor 0 wants 0 stamp 2
= clock 2 line a.0:1,b.0:2 queue - cut 2 base 0
",
    ),
    // One that stopped behind its last step is a change.
    (
        "a mk t /a 1
a stop 6 x,y v:/a>/d
b ls t /
",
        "report 2
client a
8 mk done 1 y!0@0 at 1 x!0 y?1 x?1/0 y?1/1
9 stop stopped 6
client b
10 ls ok 2 d x?3 y?3 x?3/1 y?3/2
row r a.0 a.1 x=2 y=2 final 2
column r x
0 a raise 1
1 a propose a.1 floor 1 wants 0 stamp 2
2 a settle a.1 final 2
= clock 2 line a.1:2 queue - cut 1 base 0
column r y
0 a single a.0 floor 0 wants 0 stamp 1
1 a propose a.1 floor 1 wants 1 stamp 2
2 a settle a.1 final 2
= clock 2 line a.0:1,a.1:2 queue - cut 2 base 0
",
    ),
    // A change that moves a folder completes a move that is open below it, and fails by it.
    (
        "a mk t /a 1
a stop 3 x,y v:/a>/d
b mv t /a /b
b ls t /
",
        "report 2
client a
8 mk done 1 y!0@0 at 1 x!0 y?1 x?1/0 y?1/1
9 stop stopped 3
client b
10 mv failed missing 3 row 0 x!2@1 y!2@2 at 3 x?5 y?5 x?5/2 y?5/3
11 ls ok 3 d x?5 y?5 x?5/2 y?5/3
row r a.0 a.1 x=2 y=2 final 2
row r b.0 b.0 x=3 y=3 final 3
column r x
0 a raise 1
1 a propose a.1 floor 1 wants 0 stamp 2
2 b propose b.0 floor 0 wants 0 stamp 3
3 b settle b.0 final 3
4 b settle a.1 final 2
= clock 3 line a.1:2,b.0:3 queue - cut 2 base 0
column r y
0 a single a.0 floor 0 wants 0 stamp 1
1 a propose a.1 floor 1 wants 1 stamp 2
2 b propose b.0 floor 0 wants 0 stamp 3
3 b settle b.0 final 3
4 b settle a.1 final 2
= clock 3 line a.0:1,a.1:2,b.0:3 queue - cut 3 base 0
",
    ),
];

#[test]
fn changes_are_told_and_names_listed(rt: HostRuntime) -> Result<(), Fail> {
    all_leave(rt.alloc(), &rt, "step", TREE, &REPORTS)
}

/// On threads, one client after the other.
const IN_TURN: [Turns; 2] = [
    // One makes a name, another one in a folder that is not there, a third moves the first name, and a fourth lists the root.
    (
        "fuzzylog 2
regions r
colours x y m n o p q s u v
client a r
client b r
client c r
client d r
tree t r x y
begin
a mk t /a 1
a append m,n end
b append o,p begin
b mk t /b/c 2
b append o,p end
c append q,s begin
c mv t /a /b
c append q,s end
d append u,v begin
d ls t /
",
        [1, 6, 11],
        "
client c
15 append ok 1 row 0 q!0@0 s!0@0
16 mv done 3 row 1 x!2@1 y!2@1 at 3 x?4 y?4 x?4/2 y?4/2
",
    ),
    // A folder is moved between two lists of it; what is made in the old place then fails, and so does the same move again.
    (
        "fuzzylog 2
regions r
colours x y m n o p q s u v
client a r
client b r
client c r
client d r
tree t r x y
begin
a mk t /a 1
a mk t /a/b 2
a ls t /a
a append m,n end
b append o,p begin
b mv t /a /d
b append o,p end
c append q,s begin
c ls t /a
c ls t /d
c mk t /a/c 3
c append q,s end
d append u,v begin
d mv t /a /d
d rm t /d
d rm t /d/b
d ls t /
",
        [1, 11, 6],
        "
client c
17 append ok 1 row 0 q!0@0 s!0@0
18 ls missing 3 x?4 y?4 x?4/1 y?4/3
19 ls ok 3 b x?4 y?4 x?4/1 y?4/3
20 mk failed noparent 4 y!4@3 at 4 x!4 y?5 x?5/1 y?5/4
",
    ),
];

#[test]
fn who_changes_a_tree_behind_another_is_told_the_same_on_threads(
    rt: HostRuntime,
) -> Result<(), Fail> {
    all_are_the_same(rt.alloc(), &rt, &IN_TURN)
}

/// Object lines that version 2 refuses.
const OBJECTS: [Row; 11] = [
    ("tree t r", 5, "bad form"),
    ("tree t", 5, "bad form"),
    ("tree T s x", 5, "bad name"),
    ("tree t q z", 5, "unknown region"),
    ("tree t r z", 5, "unknown colour"),
    ("tree t r x z", 5, "unknown colour"),
    ("tree t r x y x", 5, "colour repeated"),
    ("tree t r x\ntree t s y", 6, "name repeated"),
    ("map t r x\ntree t r x", 6, "name repeated"),
    ("tree t r x\nclient b r", 6, "bad header"),
    ("tree t r x\nbegin\ntree u r x", 7, "unknown client"),
];

/// Lines of version 1 that has no tree.
const UNKNOWN_IN_1: [Row; 6] = [
    ("tree t r x y", 5, "bad header"),
    ("tree", 5, "bad header"),
    ("begin\na mk t /a 1", 6, "unknown command"),
    ("begin\na rm t", 6, "unknown command"),
    ("begin\na mv", 6, "unknown command"),
    ("begin\na ls t /", 6, "unknown command"),
];

/// What goes on with commands, from line 9 on.
const BEGUN: &str =
    "fuzzylog 2\nregions r s\ncolours x y\nclient a r\ntree t r x y\nmap m r x\ntx u r x\nbegin\n";

/// Lines that are refused: the fields from left to right, each with what is wrong with it.
const COMMANDS: [Row; 50] = [
    ("a mk t /a", 9, "bad form"),
    ("a mk t /a 1 2", 9, "bad form"),
    ("a rm t", 9, "bad form"),
    ("a rm t /a /b", 9, "bad form"),
    ("a mv t /a", 9, "bad form"),
    ("a mv t /a /b /c", 9, "bad form"),
    ("a ls t", 9, "bad form"),
    ("a ls t / /", 9, "bad form"),
    ("a mk o a V", 9, "unknown object"),
    ("a mk m a V", 9, "wrong object"),
    ("a rm u /", 9, "wrong object"),
    ("a mv m a b", 9, "wrong object"),
    ("a ls m a", 9, "wrong object"),
    ("a put t k v", 9, "wrong object"),
    ("a get t k", 9, "wrong object"),
    ("a getall t k", 9, "wrong object"),
    ("a read t k", 9, "wrong object"),
    ("a enq t v", 9, "wrong object"),
    // A path has a slash before each name; one to four names; one to eight small letters and digits in each.
    ("a mk t a 1", 9, "bad path"),
    ("a mk t / 1", 9, "bad path"),
    ("a mk t // 1", 9, "bad path"),
    ("a mk t /a/ 1", 9, "bad path"),
    ("a mk t //a 1", 9, "bad path"),
    ("a mk t /a//b 1", 9, "bad path"),
    ("a mk t /A 1", 9, "bad path"),
    ("a mk t /a-b 1", 9, "bad path"),
    ("a mk t /a/b/c/d/e 1", 9, "bad path"),
    ("a mk t /abcdefghi 1", 9, "bad path"),
    ("a mk t /a/abcdefghi 1", 9, "bad path"),
    ("a mk t /a=b 1", 9, "bad path"),
    ("a mk t a/b 1", 9, "bad path"),
    // The path comes before the value, the source before the target.
    ("a mk t a V", 9, "bad path"),
    ("a mk t /a V", 9, "bad value"),
    ("a mk t /a abcdefghijklmnopq", 9, "bad value"),
    ("a mk t /abcdefgh/0/1/z V", 9, "bad value"),
    ("a rm t a", 9, "bad path"),
    ("a rm t /", 9, "bad path"),
    ("a rm t /a/", 9, "bad path"),
    ("a mv t / /a", 9, "bad path"),
    ("a mv t /a /", 9, "bad path"),
    ("a mv t a b", 9, "bad path"),
    ("a mv t /a b", 9, "bad path"),
    ("a mv t /a /b>", 9, "bad path"),
    ("a mv t /a>/b /c", 9, "bad path"),
    // The root can be listed, and no other path without a name.
    ("a ls t a", 9, "bad path"),
    ("a ls t //", 9, "bad path"),
    ("a ls t /a/", 9, "bad path"),
    ("a ls t /a/b/c/d/e", 9, "bad path"),
    ("a ls t /\na ls t -", 10, "bad path"),
    ("a stop 0 x,y q\na ls t /", 10, "client stopped"),
];

#[test]
fn wrong_lines_of_trees_are_refused(rt: HostRuntime) -> Result<(), Fail> {
    let (version_1, version_2) = (
        "fuzzylog 1\nregions r s\ncolours x y\nclient a r\n",
        "fuzzylog 2\nregions r s\ncolours x y\nclient a r\n",
    );
    all_refused(rt.alloc(), &rt, version_1, &UNKNOWN_IN_1)?;
    all_refused(rt.alloc(), &rt, version_2, &OBJECTS)?;
    all_refused(rt.alloc(), &rt, BEGUN, &COMMANDS)
}
