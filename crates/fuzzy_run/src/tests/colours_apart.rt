// Objects that keep their colours to themselves: what is read and committed, which lines of the header they make wrong, and which texts.
use super::*;
use crate::tests::in_turn::{Row as Turns, all_are_the_same};
use crate::tests::refusals::{Row, all_refused};

/// What scripts begin with: two clients and such an object in one region with two colours; commands begin at line 8.
const BEGUN: &str =
    "fuzzylog 2\nregions r\ncolours x y z\nclient a r\nclient b r\nparts p r x y\nbegin\n";

/// Lines from line 8 on, and the report: that of a transactional map.
const REPORTS: [(&str, &str); 1] = [(
    "a read p a
a commit p b=7
b read p a b
a read p b
b commit p b=8
a commit p a=1
b append z hi
b sync x
",
    "report 2
client a
8 read ok 0 a=- x?0 y?0 x?0/0 y?0/0
9 commit committed 1 row 0 x!0@0 y!0@0 at 1 x?2 y?2 x?2/1 y?2/1
11 read ok 1 b=7 x?2 y?2 x?2/1 y?2/1
13 commit conflict b 2 row 1 x!4@2 y!4@2 at 3 x?6 y?6 x?6/3 y?6/3
client b
10 read ok 1 a=- b=7 x?2 y?2 x?2/1 y?2/1
12 commit committed 2 row 0 x!2@1 y!2@1 at 2 x?4 y?4 x?4/2 y?4/2
14 append ok 3 z!0@0
15 sync ok x?6/3 plays 1
+ a.1 3 t:b@1.0.0|a=1
row r a.0 a.0 x=1 y=1 final 1
row r a.1 a.1 x=3 y=3 final 3
row r b.0 b.0 x=2 y=2 final 2
column r x
0 a propose a.0 floor 0 wants 0 stamp 1
1 a settle a.0 final 1
2 b propose b.0 floor 1 wants 1 stamp 2
3 b settle b.0 final 2
4 a propose a.1 floor 1 wants 1 stamp 3
5 a settle a.1 final 3
= clock 3 line a.0:1,b.0:2,a.1:3 queue - cut 3 base 0
column r y
0 a propose a.0 floor 0 wants 0 stamp 1
1 a settle a.0 final 1
2 b propose b.0 floor 1 wants 1 stamp 2
3 b settle b.0 final 2
4 a propose a.1 floor 1 wants 1 stamp 3
5 a settle a.1 final 3
= clock 3 line a.0:1,b.0:2,a.1:3 queue - cut 3 base 0
column r z
0 b single b.1 floor 2 wants 0 stamp 3
= clock 3 line b.1:3 queue - cut 1 base 0
",
)];

/// On threads, one client after the other.
const IN_TURN: [Turns; 1] = [(
    "fuzzylog 2
regions r
colours x y m n o p q s u v
client a r
client b r
client c r
client d r
parts t r x y
begin
a read t a
a commit t b=7
a append m,n end
b append o,p begin
b read t a b
b commit t a=1
b append o,p end
c append q,s begin
c read t b
c read t a
c append q,s end
d append u,v begin
d sync x
d read t a
",
    [6, 11, 6],
    "
client d
21 append ok 1 row 0 u!0@0 v!0@0
22 sync ok x?4/2 plays 2
+ a.0 1 t:a@-|b=7
+ b.1 2 t:a@-,b@1.0.0|a=1
23 read ok 2 a=1 x?4 y?4 x?4/2 y?4/2
",
)];

/// Lines of the header in version 2, from line 5 on.
const OBJECTS: [Row; 29] = [
    ("parts", 5, "bad form"),
    ("parts p r", 5, "bad form"),
    ("parts P t x", 5, "bad name"),
    ("parts p t u", 5, "unknown region"),
    ("parts p r u", 5, "unknown colour"),
    ("parts p r x y x", 5, "colour repeated"),
    ("parts p r x\nclient b r", 6, "bad header"),
    // One that came before has the colour, whatever the later one is.
    ("parts p r x\nmap m r x", 6, "colour taken"),
    ("parts p r x\ntx m r y x", 6, "colour taken"),
    ("parts p r x\ncausal m x", 6, "colour taken"),
    ("parts p r x\nqueue m s x", 6, "colour taken"),
    ("parts p r x\ntree m s z y x", 6, "colour taken"),
    ("parts p r x y\nparts o s y", 6, "colour taken"),
    // And it takes none that an earlier one has, whatever that one is.
    ("map m r x\nparts p r x", 6, "colour taken"),
    ("tx m r y x\nparts p r x", 6, "colour taken"),
    ("causal m x\nparts p r x", 6, "colour taken"),
    ("queue m s x\nparts p r x", 6, "colour taken"),
    ("tree m s z y x\nparts p r x", 6, "colour taken"),
    ("map m r z\nqueue q r x\nparts p r y x", 7, "colour taken"),
    // The colours from left to right.
    ("queue q r y\nparts p r x y", 6, "colour taken"),
    ("queue q r y\nparts p r x y u", 6, "colour taken"),
    ("queue q r y\nparts p r x y y", 6, "colour taken"),
    ("queue q r y\nparts p r x u y", 6, "unknown colour"),
    ("queue q r y\nparts p r x x y", 6, "colour repeated"),
    ("parts p r y\ntree t r x x y", 6, "colour repeated"),
    // Its name and its home come before its colours.
    ("queue q r x\nparts q r x", 6, "name repeated"),
    ("queue q r x\nparts p t x", 6, "unknown region"),
    // Others share their colours, and nothing is wrong up to the last line.
    (
        "map m r x y\ntree t s y x\ncausal c x\nfly",
        8,
        "bad header",
    ),
    (
        "queue q r y\nparts p r x\nparts o s z\nfly",
        8,
        "bad header",
    ),
];

/// The same in version 1, which has no such object.
const UNKNOWN_IN_1: [Row; 3] = [
    ("parts p r x", 5, "bad header"),
    ("parts", 5, "bad header"),
    ("causal c x\nparts p r x", 6, "bad header"),
];

/// Commands from line 8 on, where an object keeps a colour to itself.
const COMMANDS: [Row; 23] = [
    ("a append x t:hi", 8, "reserved text"),
    ("a append x z:hi", 8, "reserved text"),
    ("a append x,y t:", 8, "reserved text"),
    ("a append z z:", 8, "reserved text"),
    ("a only x t:hi", 8, "reserved text"),
    ("a only y z:hi", 8, "reserved text"),
    ("a stop 0 x,y t:hi", 8, "reserved text"),
    ("a stop 6 y,x z:hi", 8, "reserved text"),
    // What stands to the left comes first, and its length; what is tested after the fields comes later.
    ("a append u t:hi", 8, "unknown colour"),
    ("a stop 999 x,x t:hi", 8, "colour repeated"),
    ("a stop 999 x z:hi", 8, "reserved text"),
    (
        "a append x t:ttttttttttttttttttttttttttttttttttttttttttttttttttttttttttttttttttttttttttttttttttttttt\
         tttttttttttttttttttttttttttttttttttttttttttttttttttttttttttttttttttttttttttttttttttttttttttttttttttt\
         tttttttttttttttttttt",
        8,
        "text length",
    ),
    // No other text is reserved.
    ("a append x t\na append x z\na fly", 10, "unknown command"),
    (
        "a append x tz:\na append x :t\na fly",
        10,
        "unknown command",
    ),
    ("a append x T:\na append x Z:\na fly", 10, "unknown command"),
    ("a append x y:\na append x p:\na fly", 10, "unknown command"),
    // It has the commands of a transactional map, and no others.
    ("a commit p k=v", 8, "no read"),
    ("a read p k\na commit p k=v\na commit p k=v", 10, "no read"),
    ("a read p k\na commit t k=v", 9, "no read"),
    ("a put p k v", 8, "wrong object"),
    ("a getall p k", 8, "wrong object"),
    ("a deq p", 8, "wrong object"),
    ("a ls p /", 8, "wrong object"),
];

/// Commands from line 7 on, where no object does.
const NOT_RESERVED: [Row; 3] = [
    (
        "a append x t:hi\na append x,y z:hi\na append y t:\na fly",
        10,
        "unknown command",
    ),
    ("a stop 1 x,y t:hi\na fly", 8, "client stopped"),
    ("a stop 1 x,y z:hi\na fly", 8, "client stopped"),
];

/// The same in version 2, for a command that version 1 does not have.
const NOT_RESERVED_IN_2: [Row; 1] = [("a only x t:hi\na only y z:hi\na fly", 9, "unknown command")];

#[test]
fn who_keeps_colours_to_itself_is_read_and_committed_to(rt: HostRuntime) -> Result<(), Fail> {
    all_leave(rt.alloc(), &rt, "step", BEGUN, &REPORTS)?;
    all_are_the_same(rt.alloc(), &rt, &IN_TURN)
}

#[test]
fn who_keeps_colours_to_itself_makes_lines_wrong(rt: HostRuntime) -> Result<(), Fail> {
    let (version_1, version_2) = (
        "fuzzylog 1\nregions r s\ncolours x y z\nclient a r\n",
        "fuzzylog 2\nregions r s\ncolours x y z\nclient a r\n",
    );
    all_refused(rt.alloc(), &rt, version_1, &UNKNOWN_IN_1)?;
    all_refused(rt.alloc(), &rt, version_2, &OBJECTS)
}

#[test]
fn who_keeps_colours_to_itself_reserves_texts(rt: HostRuntime) -> Result<(), Fail> {
    let (version_1, version_2, apart) = (
        "fuzzylog 1\nregions r s\ncolours x y z\nclient a r\ntx t r z\nbegin\n",
        "fuzzylog 2\nregions r s\ncolours x y z\nclient a r\ntx t r z\nbegin\n",
        "fuzzylog 2\nregions r s\ncolours x y z\nclient a r\ntx t r x\nparts p r z\nbegin\n",
    );
    all_refused(rt.alloc(), &rt, version_1, &NOT_RESERVED)?;
    all_refused(rt.alloc(), &rt, version_2, &NOT_RESERVED)?;
    all_refused(rt.alloc(), &rt, version_2, &NOT_RESERVED_IN_2)?;
    all_refused(rt.alloc(), &rt, apart, &COMMANDS)
}
