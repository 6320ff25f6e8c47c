// Scripts that are not done, with the line and the reason. Where a line has more faults than one, the first test that fails
// is told.
use super::*;

/// A row: what a script goes on with, the line that is refused, and the reason.
pub type Row = (&'static str, u32, &'static str);

const FIRST_LINES: [Row; 31] = [
    ("", 1, "bad version"),
    ("\n", 1, "bad version"),
    ("# a comment\nfuzzylog 1\n", 1, "bad version"),
    ("fuzzylog 3\n", 1, "bad version"),
    ("fuzzylog 2\n", 2, "missing begin"),
    // Line 1 is tested for its bytes first, and for its fields not at all.
    ("fuzzylog\t1\n", 1, "not ascii"),
    ("fuzzylog  1\n", 1, "bad version"),
    ("fuzzylog 1\n#\u{7f}\n", 2, "not ascii"),
    ("fuzzylog 1\n", 2, "missing begin"),
    ("fuzzylog 1\nregions r\ncolours x\n\n", 5, "missing begin"),
    ("fuzzylog 1\nregions r\ncolours x\nbegin\n", 4, "bad header"),
    ("fuzzylog 1\ncolours x\n", 2, "bad header"),
    // An empty field comes before a wrong word.
    ("fuzzylog 1\ncolours  x\n", 2, "bad form"),
    ("fuzzylog 1\nregions\n", 2, "bad form"),
    ("fuzzylog 1\nregions a b c d e\n", 2, "bad form"),
    // A wrong word comes before a wrong number of fields.
    ("fuzzylog 1\nbegin a b\n", 2, "bad header"),
    // The number of fields comes before a bad name.
    ("fuzzylog 1\nregions A b c d e\n", 2, "bad form"),
    ("fuzzylog 1\nregions abcdefghijklm\n", 2, "bad name"),
    ("fuzzylog 1\nregions 1a\n", 2, "bad name"),
    ("fuzzylog 1\nregions r r A\n", 2, "name repeated"),
    ("fuzzylog 1\nregions r\ncolours x y x\n", 3, "name repeated"),
    (
        "fuzzylog 1\nregions r\ncolours x\nrows 0\n",
        4,
        "bad number",
    ),
    (
        "fuzzylog 1\nregions r\ncolours x\nrows 4097\n",
        4,
        "bad number",
    ),
    (
        "fuzzylog 1\nregions r\ncolours x\nrows 01\n",
        4,
        "bad number",
    ),
    (
        "fuzzylog 1\nregions r\ncolours x\nrows 00000000001\n",
        4,
        "bad number",
    ),
    (
        "fuzzylog 1\nregions r\ncolours x\nclient A s\n",
        4,
        "bad name",
    ),
    (
        "fuzzylog 1\nregions r\ncolours x\nclient a s\n",
        4,
        "unknown region",
    ),
    // One name, one client and one object more than there may be.
    (
        "fuzzylog 1\nregions r\ncolours a b c d e f g h i j k l m n o p q\n",
        3,
        "bad form",
    ),
    (
        "fuzzylog 1\nregions r\ncolours x\n\
         client ca r\nclient cb r\nclient cc r\nclient cd r\nclient ce r\nclient cf r\nclient cg r\nclient ch r\n\
         client ci r\nclient cj r\nclient ck r\nclient cl r\nclient cm r\nclient cn r\nclient co r\nclient cp r\nclient cq r\n\
         ",
        20,
        "bad form",
    ),
    (
        "fuzzylog 1\nregions r\ncolours x\nclient a r\n\
         causal oa x\ncausal ob x\ncausal oc x\ncausal od x\ncausal oe x\ncausal of x\ncausal og x\ncausal oh x\n\
         causal oi x\ncausal oj x\ncausal ok x\ncausal ol x\ncausal om x\ncausal on x\ncausal oo x\ncausal op x\ncausal oq x\n\
         ",
        21,
        "bad form",
    ),
    (
        "fuzzylog 1\nregions r\ncolours x y\nclient a r\nclient b r\nclient c r\n",
        7,
        "missing begin",
    ),
];

/// What goes on with an object, or with a line of the header that comes too late.
const CLIENTS: &str = "fuzzylog 1\nregions r s\ncolours x y\nclient a r\n";

const OBJECTS: [Row; 12] = [
    ("rows 1\n", 5, "bad header"),
    ("client a r\n", 5, "name repeated"),
    ("client b\n", 5, "bad form"),
    ("map m r\n", 5, "bad form"),
    ("map m t z\n", 5, "unknown region"),
    ("map m r z\n", 5, "unknown colour"),
    ("tx m r x x z\n", 5, "colour repeated"),
    ("causal n x y\n", 5, "bad form"),
    ("causal N z\n", 5, "bad name"),
    ("queue q r\n", 5, "bad form"),
    ("queue q t z\n", 5, "unknown region"),
    ("begin now\n", 5, "bad form"),
];

/// What goes on with commands, from line 10 on.
const BEGUN: &str = "fuzzylog 1\nregions r s\ncolours x y\nclient a r\n\
     map m r x y\ntx t r x\ncausal n y\nqueue q s x\nbegin\n";

const COMMANDS: [Row; 55] = [
    ("b append x hi", 10, "unknown client"),
    ("begin", 10, "unknown client"),
    ("b  append", 10, "bad form"),
    ("b fly", 10, "unknown client"),
    ("a", 10, "unknown command"),
    ("a fly x y z", 10, "unknown command"),
    ("a append z", 10, "bad form"),
    ("a append z hi", 10, "unknown colour"),
    ("a append x,,y hi", 10, "unknown colour"),
    ("a append x,x hi", 10, "colour repeated"),
    ("a sync x y", 10, "bad form"),
    ("a scan y,x,y", 10, "colour repeated"),
    ("a pull t z", 10, "unknown region"),
    ("a pull s z", 10, "unknown colour"),
    ("a trim z", 10, "unknown colour"),
    ("a stop 1000 z t", 10, "bad number"),
    ("a stop 01 z t", 10, "bad number"),
    ("a stop 999 z t", 10, "unknown colour"),
    ("a stop 999 x t", 10, "stop needs two colours"),
    ("a stop 1 y t", 10, "stop needs two colours"),
    ("a stop 7 x,y t", 10, "bad number"),
    ("a stop 0 x,x t", 10, "colour repeated"),
    ("a enq q", 10, "bad form"),
    ("a deq q v", 10, "bad form"),
    ("a put o K v", 10, "unknown object"),
    ("a put q K v", 10, "wrong object"),
    ("a put m K v", 10, "bad key"),
    ("a put m abcdefghijklmnopq v", 10, "bad key"),
    ("a put m k V", 10, "bad value"),
    ("a get t k", 10, "wrong object"),
    ("a del n k", 10, "wrong object"),
    ("a putall m", 10, "bad form"),
    ("a putall m a=1 b=2 c=3 d=4 e=5", 10, "bad form"),
    ("a putall m a", 10, "bad form"),
    ("a putall m a=1 a=V", 10, "key repeated"),
    ("a putall m =V", 10, "bad key"),
    ("a putall m a=", 10, "bad value"),
    ("a putall m a=b=c", 10, "bad value"),
    ("a getall m a b a", 10, "key repeated"),
    ("a getall o", 10, "bad form"),
    ("a read m k", 10, "wrong object"),
    ("a read t k j h", 10, "bad form"),
    ("a read o k", 10, "unknown object"),
    ("a commit t k=v", 10, "no read"),
    ("a commit t K=v", 10, "bad key"),
    ("a commit t k=v j=V", 10, "bad value"),
    ("a enq m V", 10, "wrong object"),
    ("a enq q V", 10, "bad value"),
    // What came before counts.
    ("a stop 6 x,y t\na sync x", 11, "client stopped"),
    ("a stop 0 y,x t\na fly", 11, "client stopped"),
    ("# not counted as a command\na commit t k=v", 11, "no read"),
    ("\na deq m", 11, "wrong object"),
    ("a read t k\na commit m k=v", 11, "wrong object"),
    ("a read t k\na commit t k", 11, "bad form"),
    ("a read t k\na commit t k=v\na commit t k=v", 12, "no read"),
];

/// Lines from line 8 on in one region.
const REFUSED: [Row; 11] = [
    ("z append x hi", 8, "unknown client"),
    ("a fly x", 8, "unknown command"),
    ("a append z hi", 8, "unknown colour"),
    ("a append x,x hi", 8, "colour repeated"),
    ("a append x  hi", 8, "bad form"),
    ("a stop 7 x,y q", 8, "bad number"),
    ("a append x \u{80}", 8, "not ascii"),
    ("a stop 0 x,y q\na sync x\n", 9, "client stopped"),
    ("a stop 1 x q", 8, "stop needs two colours"),
    ("a scan x\na fly x\n", 9, "unknown command"),
    (
        "a append x \
         tttttttttttttttttttttttttttttttttttttttttttttttttttttttttttttttttttttttttttttttttttttttttttttttttttt\
         tttttttttttttttttttttttttttttttttttttttttttttttttttttttttttttttttttttttttttttttttttttttttttttttttttt\
         t",
        8,
        "text length",
    ),
];

/// Scripts that begin so and go on with a row are refused as it says.
pub fn all_refused<R: Threads + Wait + Sync + Abort>(
    alloc: Global,
    rt: &R,
    begin: &str,
    rows: &[Row],
) -> Result<(), Fail> {
    for (lines, line, reason) in rows {
        let script = script_of(alloc, begin, lines)?;
        let refusal = format!(in alloc; "refused: line {line}: {reason}\n")?;
        leaves(
            alloc,
            rt,
            "step",
            script.as_bytes(),
            Status::Refused,
            refusal.as_bytes(),
        )?;
    }
    Ok(())
}

#[test]
fn first_lines_are_refused_by_the_order_of_their_tests(rt: HostRuntime) -> Result<(), Fail> {
    all_refused(rt.alloc(), &rt, WHOLE, &FIRST_LINES)
}

#[test]
fn object_lines_are_refused_by_the_order_of_their_tests(rt: HostRuntime) -> Result<(), Fail> {
    all_refused(rt.alloc(), &rt, CLIENTS, &OBJECTS)
}

#[test]
fn commands_are_refused_by_the_order_of_their_tests(rt: HostRuntime) -> Result<(), Fail> {
    all_refused(rt.alloc(), &rt, BEGUN, &COMMANDS)
}

#[test]
fn a_line_that_is_not_done_is_refused_with_its_reason(rt: HostRuntime) -> Result<(), Fail> {
    all_refused(rt.alloc(), &rt, ONE_REGION, &REFUSED)
}
