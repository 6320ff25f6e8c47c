// Appends that are made only where nothing has come between.
use super::*;
use crate::tests::in_turn::{Row as Turns, all_are_the_same};
use crate::tests::refusals::{Row, all_refused};
use crate::tests::threads::run_at;
use crate::tests::versions::ONE_REGION_2;
use memchr::memmem;

/// Lines from line 8 on in one region, and the report.
const REPORTS: [(&str, &str); 7] = [
    // Who has played the whole line appends, and who has not is told how long it is. Once an entry is open it is told that,
    // although it has played all.
    (
        "a only x one
b only x two
b sync x
b only x two
a stop 2 x,y q
b sync x
b only x three
",
        "report 2
client a
8 only ok 1 x!0@0
12 stop stopped 2
client b
9 only moved 1 0 x?1
10 sync ok x?1/1 plays 1
+ a.0 1 one
11 only ok 2 x!1@1
13 sync ok x?3/2 plays 1
+ b.0 2 two
14 only moved 2 1 x?3
client c
row r a.0 a.1 x=3 y=- open
column r x
0 a single a.0 floor 0 wants 0 stamp 1
1 b single b.0 floor 1 wants 1 stamp 2
2 a propose a.1 floor 1 wants 0 stamp 3
= clock 3 line a.0:1,b.0:2 queue a.1:3? cut 2 base 0
column r y
= clock 0 line - queue - cut 0 base 0
",
    ),
    // Another client appends behind what was played; what a client has appended itself it has to play as well.
    (
        "a append x one
b sync x
c append x two
b only x three
b sync x
b only x three
b only x four
a only x five
",
        "report 2
client a
8 append ok 1 x!0@0
15 only moved 3 0 x?3
client b
9 sync ok x?1/1 plays 1
+ a.0 1 one
11 only moved 2 0 x?2
12 sync ok x?2/2 plays 1
+ c.0 2 two
13 only ok 3 x!2@2
14 only moved 3 0 x?3
client c
10 append ok 2 x!1@1
column r x
0 a single a.0 floor 0 wants 0 stamp 1
1 c single c.0 floor 0 wants 0 stamp 2
2 b single b.0 floor 2 wants 2 stamp 3
= clock 3 line a.0:1,c.0:2,b.0:3 queue - cut 3 base 0
column r y
= clock 0 line - queue - cut 0 base 0
",
    ),
    // It helps nobody: the open entry is still there. Where it has no mark nothing is open, and a read completes it.
    (
        "a stop 2 x,y q
b only x one
b only x one
b only y two
b scan x
b only x one
",
        "report 2
client a
8 stop stopped 2
client b
9 only moved 0 1 x?1
10 only moved 0 1 x?1
11 only ok 1 y!0@0
12 scan ok 1 nodes 0 x?1 x?2/1
13 only ok 3 x!2@1
client c
row r a.0 a.0 x=1 y=2 final 2
column r x
0 a propose a.0 floor 0 wants 0 stamp 1
1 b settle a.0 final 2
2 b single b.1 floor 2 wants 1 stamp 3
= clock 3 line a.0:2,b.1:3 queue - cut 2 base 0
column r y
0 b single b.0 floor 0 wants 0 stamp 1
1 b propose a.0 floor 0 wants 0 stamp 2
2 b settle a.0 final 2
= clock 2 line b.0:1,a.0:2 queue - cut 2 base 0
",
    ),
    // Each open entry counts: what is settled and stands behind one does not, and what is decided and not yet settled does.
    (
        "a stop 2 x,y p
b stop 6 x,y q
c only x one
c only y one
c sync y
c only y one
",
        "report 2
client a
8 stop stopped 2
client b
9 stop stopped 6
client c
10 only moved 0 1 x?3
11 only moved 1 0 y?2
12 sync ok y?2/1 plays 1
+ b.0 2 q
13 only ok 3 y!2@1
row r a.0 a.0 x=1 y=- open
row r b.0 b.0 x=2 y=1 final 2
column r x
0 a propose a.0 floor 0 wants 0 stamp 1
1 b propose b.0 floor 0 wants 0 stamp 2
2 b settle b.0 final 2
= clock 2 line - queue a.0:1?,b.0:2 cut 0 base 0
column r y
0 b propose b.0 floor 0 wants 0 stamp 1
1 b settle b.0 final 2
2 c single c.0 floor 2 wants 1 stamp 3
= clock 3 line b.0:2,c.0:3 queue - cut 2 base 0
",
    ),
    // Two are open.
    (
        "a stop 3 x,y p
b stop 4 x,y q
c only x one
c scan x
c only x one
c only y two
c sync y
c only y two
",
        "report 2
client a
8 stop stopped 3
client b
9 stop stopped 4
client c
10 only moved 0 2 x?2
11 scan ok 2 nodes 2 x?2 x?4/2
+ a.0 1 p
+ b.0 2 q
12 only ok 3 x!4@2
13 only moved 2 0 y?4
14 sync ok y?4/2 plays 2
+ a.0 1 p
+ b.0 2 q
15 only ok 4 y!4@2
row r a.0 a.0 x=1 y=1 final 1
row r b.0 b.0 x=2 y=2 final 2
column r x
0 a propose a.0 floor 0 wants 0 stamp 1
1 b propose b.0 floor 0 wants 0 stamp 2
2 c settle a.0 final 1
3 c settle b.0 final 2
4 c single c.0 floor 2 wants 2 stamp 3
= clock 3 line a.0:1,b.0:2,c.0:3 queue - cut 3 base 0
column r y
0 a propose a.0 floor 0 wants 0 stamp 1
1 b propose b.0 floor 0 wants 0 stamp 2
2 c settle a.0 final 1
3 c settle b.0 final 2
4 c single c.1 floor 3 wants 2 stamp 4
= clock 4 line a.0:1,b.0:2,c.1:4 queue - cut 3 base 0
",
    ),
    // Its stamp is that of a plain append: above the clock of the colour and above all that the client has read.
    (
        "a append y one
a append y two
a append y three
a only x four
b only y five
b scan x,y
b only x six
b only y seven
",
        "report 2
client a
8 append ok 1 y!0@0
9 append ok 2 y!1@1
10 append ok 3 y!2@2
11 only ok 4 x!0@0
client b
12 only moved 3 0 y?3
13 scan ok 4 nodes 4 x?1 y!3 x?1/1 y?4/3
+ a.0 1 one
+ a.1 2 two
+ a.2 3 three
+ a.3 4 four
14 only ok 5 x!1@1
15 only ok 6 y!4@3
client c
column r x
0 a single a.3 floor 3 wants 0 stamp 4
1 b single b.0 floor 4 wants 1 stamp 5
= clock 5 line a.3:4,b.0:5 queue - cut 2 base 0
column r y
0 a single a.0 floor 0 wants 0 stamp 1
1 a single a.1 floor 1 wants 0 stamp 2
2 a single a.2 floor 2 wants 0 stamp 3
3 b raise 4
4 b single b.1 floor 5 wants 3 stamp 6
= clock 6 line a.0:1,a.1:2,a.2:3,b.1:6 queue - cut 4 base 0
",
    ),
    // Once marked in one colour, an append to two colours is open there alone.
    (
        "a stop 2 x,y q
b only y one
b append y two
c sync y
c only y three
",
        "report 2
client a
8 stop stopped 2
client b
9 only ok 1 y!0@0
10 append ok 2 y!1@1
client c
11 sync ok y?2/2 plays 2
+ b.0 1 one
+ b.1 2 two
12 only ok 3 y!2@2
row r a.0 a.0 x=1 y=- open
column r x
0 a propose a.0 floor 0 wants 0 stamp 1
= clock 1 line - queue a.0:1? cut 0 base 0
column r y
0 b single b.0 floor 0 wants 0 stamp 1
1 b single b.1 floor 1 wants 0 stamp 2
2 c single c.0 floor 2 wants 2 stamp 3
= clock 3 line b.0:1,b.1:2,c.0:3 queue - cut 3 base 0
",
    ),
];

/// The same of one client alone, which is the same in every schedule.
const ALONE: [(&str, &str); 2] = [
    // What is trimmed counts as played.
    (
        "a append x one
a only x two
a sync x
a trim x
a only x two
a sync x
a trim x
a only x three
",
        "report 2
client a
8 append ok 1 x!0@0
9 only moved 1 0 x?1
10 sync ok x?1/1 plays 1
+ a.0 1 one
11 trim ok !1 base 1
12 only ok 2 x!2@1
13 sync ok x?3/2 plays 1
+ a.1 2 two
14 trim ok !3 base 2
15 only ok 3 x!4@2
client b
client c
column r x
0 a single a.0 floor 0 wants 0 stamp 1
1 a trim 1
2 a single a.1 floor 1 wants 1 stamp 2
3 a trim 2
4 a single a.2 floor 2 wants 2 stamp 3
= clock 3 line a.0:1,a.1:2,a.2:3 queue - cut 3 base 2
column r y
= clock 0 line - queue - cut 0 base 0
",
    ),
    // An append to two colours that stands is as any other.
    (
        "a append x,y one
a only x two
a sync x
a only x two
a only y two
a scan x,y
a only y two
a only x three
",
        "report 2
client a
8 append ok 1 row 0 x!0@0 y!0@0
9 only moved 1 0 x?2
10 sync ok x?2/1 plays 1
+ a.0 1 one
11 only ok 2 x!2@1
12 only moved 1 0 y?2
13 scan ok 2 nodes 2 x?3 y!2 x?3/2 y?3/1
+ a.0 1 one
+ a.1 2 two
14 only ok 3 y!3@1
15 only ok 4 x!3@2
client b
client c
row r a.0 a.0 x=1 y=1 final 1
column r x
0 a propose a.0 floor 0 wants 0 stamp 1
1 a settle a.0 final 1
2 a single a.1 floor 1 wants 1 stamp 2
3 a single a.3 floor 3 wants 2 stamp 4
= clock 4 line a.0:1,a.1:2,a.3:4 queue - cut 3 base 0
column r y
0 a propose a.0 floor 0 wants 0 stamp 1
1 a settle a.0 final 1
2 a raise 2
3 a single a.2 floor 2 wants 1 stamp 3
= clock 3 line a.0:1,a.2:3 queue - cut 2 base 0
",
    ),
];

/// Whole scripts, and their reports.
const WHOLE_REPORTS: [(&str, &str); 2] = [
    // A get of a map plays its colour, so that a put by hand stands only where the map is as it was read; a put that came
    // between is met.
    (
        "fuzzylog 2
regions r
colours x y
client a r
client b r
client c r
map m r x
begin
a put m k 1
b get m k
c get m k
b only x p:k=2
c only x p:k=3
c get m k
c only x p:k=3
a get m k
",
        "report 2
client a
9 put ok 1 x!0@0
16 get ok 3 x?3/3
client b
10 get ok 1 x?1/1
12 only ok 2 x!1@1
client c
11 get ok 1 x?1/1
13 only moved 2 0 x?2
14 get ok 2 x?2/2
15 only ok 3 x!2@2
column r x
0 a single a.0 floor 0 wants 0 stamp 1
1 b single b.0 floor 1 wants 1 stamp 2
2 c single c.0 floor 2 wants 2 stamp 3
= clock 3 line a.0:1,b.0:2,c.0:3 queue - cut 3 base 0
column r y
= clock 0 line - queue - cut 0 base 0
",
    ),
    // The length is that of the own line: nodes of other regions may come in between, whether they were played or not.
    (
        "fuzzylog 2
regions e w
colours x
client a e
client b w
client d e
begin
a only x one
b pull e x
b only x two
b sync x
b only x three
d pull w x
d sync x
d only x four
a only x five
a sync x
a only x six
",
        "report 2
client a
8 only ok 1 x!0@0
16 only moved 2 0 x?4
17 sync ok x?4/2,2 plays 4
+ a.0 1 one
+ b.0 1 two
+ b.1 2 three
+ d.0 3 four
18 only ok 4 x!4@2
client b
9 pull ok 1 give !1 carry !0
10 only ok 1 x!1@0
11 sync ok x?2/1,1 plays 2
+ a.0 1 one
+ b.0 1 two
12 only ok 2 x!2@1
client d
13 pull ok 2 give !3 carry !2
14 sync ok x?3/1,2 plays 3
+ a.0 1 one
+ b.0 1 two
+ b.1 2 three
15 only ok 3 x!3@1
column e x
0 a single a.0 floor 0 wants 0,0 stamp 1
1 b give w 0
2 d carry w 0 b.0:1/0,0 b.1:2/1,1
3 d single d.0 floor 2 wants 1,2 stamp 3
4 a single a.1 floor 3 wants 2,2 stamp 4
= clock 4 line a.0:1,d.0:3,a.1:4 queue - cut 3,2 base 0,0
column w x
0 b carry e 0 a.0:1/0,0
1 b single b.0 floor 0 wants 0,0 stamp 1
2 b single b.1 floor 1 wants 1,1 stamp 2
3 d give e 0
= clock 2 line b.0:1,b.1:2 queue - cut 1,2 base 0,0
",
    ),
];

#[test]
fn an_append_is_made_only_where_nothing_has_come_between(rt: HostRuntime) -> Result<(), Fail> {
    all_leave(rt.alloc(), &rt, "step", ONE_REGION_2, &REPORTS)?;
    all_leave(rt.alloc(), &rt, "step", ONE_REGION_2, &ALONE)?;
    all_leave(rt.alloc(), &rt, "run", ONE_REGION_2, &ALONE)?;
    all_leave(rt.alloc(), &rt, "step", WHOLE, &WHOLE_REPORTS)
}

/// On threads, one client after the other.
const IN_TURN: [Turns; 2] = [
    // Who has not played what the first one appended is refused, and then is not; a third one stops in the middle of an append,
    // and a fourth that has played all there is meets it.
    (
        "fuzzylog 2
regions r
colours x y m n o p q s t u
client a r
client b r
client c r
client d r
begin
a only x one
a append m,n end
b append o,p begin
b only x two
b sync x
b only x two
b append o,p end
c append q,s begin
c stop 3 x,y q
d append t,u begin
d sync x
d only x three
",
        [1, 6, 7],
        "
12 only moved 1 0 x?1
13 sync ok x?1/1 plays 1
+ a.0 1 one
14 only ok 2 x!1@1
",
    ),
    // What it finds open is still open behind it.
    (
        "fuzzylog 2
regions r
colours x y m n o p
client a r
client b r
client c r
begin
a append y one
a stop 3 x,y q
b append m,n begin
b only x two
b append m,n end
c append o,p begin
c only x three
",
        [2, 6, 0],
        "
client b
10 append ok 1 row 0 m!0@0 n!0@0
11 only moved 0 1 x?1
12 append ok 2 row 1 m!2@1 n!2@1
client c
13 append ok 1 row 0 o!0@0 p!0@0
14 only moved 0 1 x?1
",
    ),
];

#[test]
fn who_appends_only_behind_what_it_has_played_is_the_same_on_threads(
    rt: HostRuntime,
) -> Result<(), Fail> {
    all_are_the_same(rt.alloc(), &rt, &IN_TURN)
}

/// How often the bytes have this text.
fn count_in(bytes: &[u8], text: &str) -> usize {
    memmem::find_iter(bytes, text.as_bytes()).count()
}

#[test]
fn of_all_who_would_be_first_one_is(rt: HostRuntime) -> Result<(), Fail> {
    let script = script_of(
        rt.alloc(),
        ONE_REGION_2,
        "a only x one\nb only x two\nc only x three\n",
    )?;
    for _ in 0..40 {
        let (status, sink) = run_at(rt.alloc(), &rt, script.as_bytes(), &OpenGate)?;
        assert_eq!(rt; status, Status::Done);
        assert_eq!(rt; count_in(sink.bytes(), " only ok 1 x!0@0\n"), 1);
        assert_eq!(rt; count_in(sink.bytes(), " only moved 1 0 x?1\n"), 2);
        assert_eq!(rt; count_in(sink.bytes(), " queue - cut 1 base 0\n"), 1);
    }
    Ok(())
}

/// Lines from line 8 on that version 2 refuses.
const REFUSED: [Row; 9] = [
    ("a only", 8, "bad form"),
    ("a only x", 8, "bad form"),
    ("a only x one two", 8, "bad form"),
    ("a only z hi", 8, "unknown colour"),
    ("a only x,y hi", 8, "unknown colour"),
    (
        "a only x ttttttttttttttttttttttttttttttttttttttttttttttttttttttttttttttttttttttttttttttttttttttttttt\
         tttttttttttttttttttttttttttttttttttttttttttttttttttttttttttttttttttttttttttttttttttttttttttttttttttt\
         tttttttttt",
        8,
        "text length",
    ),
    ("a stop 0 x,y q\na only x hi", 9, "client stopped"),
    ("d only x hi", 8, "unknown client"),
    ("a Only x hi", 8, "unknown command"),
];

/// Lines from line 8 on, with a word that version 1 does not have.
const UNKNOWN_IN_1: [Row; 4] = [
    ("a only x hi", 8, "unknown command"),
    ("a only", 8, "unknown command"),
    ("a only z hi there", 8, "unknown command"),
    ("a stop 0 x,y q\na only x hi", 9, "client stopped"),
];

#[test]
fn a_wrong_append_of_this_kind_is_refused(rt: HostRuntime) -> Result<(), Fail> {
    all_refused(rt.alloc(), &rt, ONE_REGION_2, &REFUSED)?;
    all_refused(rt.alloc(), &rt, ONE_REGION, &UNKNOWN_IN_1)
}
