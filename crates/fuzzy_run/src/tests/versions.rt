// The two versions of a script: what each allows, and the first line of its report.
use super::*;
use crate::tests::refusals::{Row, all_refused};
use crate::tests::{singles, stops};
use memchr::memmem;

const SIXTEEN: &str = "regions r\ncolours a b c d e f g h i j k l m n o p\n";

const SEVENTEEN: &str = "regions r\ncolours a b c d e f g h i j k l m n o p q\n";

/// What version 1 refuses.
const REFUSED_IN_1: [Row; 2] = [
    (
        "regions r\ncolours a b c d e f g h i j k l m n o p q\n",
        3,
        "bad form",
    ),
    ("regions r\ncolours x\nrows 4097\n", 4, "bad number"),
];

/// What version 2 refuses, some of which version 1 takes.
const REFUSED_IN_2: [Row; 5] = [
    ("regions a b c d e\n", 2, "bad form"),
    ("regions r\ncolours x\nrows 2000\n", 4, "bad number"),
    ("regions r\ncolours x\nrows 1025\n", 4, "bad number"),
    // What comes behind is missing, and the rows are taken.
    ("regions r\ncolours x\nrows 1024\n", 5, "missing begin"),
    (SEVENTEEN, 4, "missing begin"),
];

/// A first line is one of the two.
const REFUSED: [Row; 4] = [
    ("fuzzylog 3\n", 1, "bad version"),
    ("fuzzylog 0\n", 1, "bad version"),
    ("fuzzylog 12\n", 1, "bad version"),
    ("fuzzylog 02\n", 1, "bad version"),
];

#[test]
fn each_version_refuses_what_is_beyond_its_limits(rt: HostRuntime) -> Result<(), Fail> {
    all_refused(rt.alloc(), &rt, WHOLE, &REFUSED)?;
    all_refused(rt.alloc(), &rt, "fuzzylog 1\n", &REFUSED_IN_1)?;
    all_refused(rt.alloc(), &rt, "fuzzylog 2\n", &REFUSED_IN_2)
}

/// What scripts of version 2 begin with: the same as those of version 1 in one region.
pub const ONE_REGION_2: &str =
    "fuzzylog 2\nregions r\ncolours x y\nclient a r\nclient b r\nclient c r\nbegin\n";

/// The bytes but for the first line, which is this.
fn behind<'a, R: Abort>(rt: &R, bytes: &'a [u8], line: &[u8]) -> Result<&'a [u8], Fail> {
    assert!(rt; bytes.starts_with(line));
    Ok(bytes.get(line.len()..).unwrap_or(bytes))
}

/// Scripts of version 1 leave the same in version 2, but for the first line.
fn all_leave_alike<R: Threads + Wait + Sync + Abort>(
    alloc: Global,
    rt: &R,
    word: &str,
    rows: &[(&str, &str)],
) -> Result<(), Fail> {
    for (lines, report) in rows {
        let script = script_of(alloc, ONE_REGION_2, lines)?;
        let (status, sink) = run_over(alloc, rt, word, script.as_bytes(), &[], &[])?;
        assert_eq!(rt; status, Status::Done);
        let wanted = behind(rt, report.as_bytes(), b"report 1\n")?;
        assert_eq!(rt; behind(rt, sink.bytes(), b"report 2\n")?, wanted);
    }
    Ok(())
}

#[test]
fn version_2_means_the_same(rt: HostRuntime) -> Result<(), Fail> {
    all_leave_alike(rt.alloc(), &rt, "step", &singles::REPORTS)?;
    all_leave_alike(rt.alloc(), &rt, "step", &stops::STOPS)?;
    all_leave_alike(rt.alloc(), &rt, "run", &stops::STOPS)
}

/// The names of 64 colours, with this sign before each but the first.
fn colours(alloc: Global, sign: char) -> Result<String, AllocError> {
    let mut names = String::from_str(alloc, "c0")?;
    for colour in 1..64 {
        names.push_str(format!(in alloc; "{sign}c{colour}")?.as_str())?;
    }
    Ok(names)
}

/// One region, 64 colours and two clients; commands begin at line 7.
fn widest(alloc: Global, lines: &str) -> Result<String, AllocError> {
    let names = colours(alloc, ' ')?;
    format!(in alloc;
        "fuzzylog 2\nregions r\ncolours {names}\nclient a r\nclient b r\nbegin\n{lines}"
    )
}

/// How often the bytes have this text.
pub fn count_in(bytes: &[u8], text: &[u8]) -> usize {
    memmem::find_iter(bytes, text).count()
}

#[test]
fn one_append_has_64_colours(rt: HostRuntime) -> Result<(), Fail> {
    let alloc = rt.alloc();
    let mut reply = String::from_str(alloc, "\n7 append ok 1 row 0")?;
    for colour in 0..64 {
        reply.push_str(format!(in alloc; " c{colour}!0@0")?.as_str())?;
    }
    reply.push('\n')?;
    let names = colours(alloc, ',')?;
    let script = widest(alloc, format!(in alloc; "a append {names} t\n")?.as_str())?;
    for word in ["step", "run"] {
        let (status, sink) = run_over(alloc, &rt, word, script.as_bytes(), &[], &[])?;
        assert_eq!(rt; status, Status::Done);
        assert_eq!(rt; count_in(sink.bytes(), reply.as_bytes()), 1);
    }
    Ok(())
}

/// What is left of an append to 64 colours that stops after each of its steps, once another client has scanned all colours: it stands in
/// all of them where one was marked, and under the first stamp where all were.
#[test]
fn an_append_to_64_colours_is_completed_after_each_of_its_steps(
    rt: HostRuntime,
) -> Result<(), Fail> {
    let alloc = rt.alloc();
    let names = colours(alloc, ',')?;
    for steps in 0..=130 {
        let lines = format!(in alloc; "a stop {steps} {names} t\nb scan {names}\n")?;
        let script = widest(alloc, lines.as_str())?;
        let (status, sink) = step_on(alloc, &rt, script.as_bytes())?;
        assert_eq!(rt; status, Status::Done);
        let left = if steps < 2 {
            "= clock 0 line - queue - cut 0 base 0\n"
        } else if steps < 65 {
            "= clock 2 line a.0:2 queue - cut 1 base 0\n"
        } else {
            "= clock 1 line a.0:1 queue - cut 1 base 0\n"
        };
        assert_eq!(rt; count_in(sink.bytes(), left.as_bytes()), 64);
    }
    Ok(())
}

/// So many clients and objects, with sixteen colours; nothing is asked.
fn with_many(
    alloc: Global,
    version: u32,
    clients: u32,
    objects: u32,
) -> Result<String, AllocError> {
    let mut script = format!(in alloc; "fuzzylog {version}\n{SIXTEEN}")?;
    for client in 0..clients {
        script.push_str(format!(in alloc; "client k{client} r\n")?.as_str())?;
    }
    for object in 0..objects {
        script.push_str(format!(in alloc; "queue q{object} r a\n")?.as_str())?;
    }
    script.push_str("begin\n")?;
    Ok(script)
}

/// A version, how many clients and objects, and the line that is refused, if one is.
const MANY: [(u32, u32, u32, Option<u32>); 6] = [
    (1, 16, 16, None),
    (1, 17, 0, Some(20)),
    (1, 16, 17, Some(36)),
    (2, 64, 64, None),
    (2, 65, 0, Some(68)),
    (2, 64, 65, Some(132)),
];

#[test]
fn clients_and_objects_are_as_many_as_the_version_allows(rt: HostRuntime) -> Result<(), Fail> {
    let alloc = rt.alloc();
    for (version, clients, objects, refused) in MANY {
        let script = with_many(alloc, version, clients, objects)?;
        let (status, sink) = step_on(alloc, &rt, script.as_bytes())?;
        match refused {
            None => assert_eq!(rt; status, Status::Done),
            Some(line) => {
                let refusal = format!(in alloc; "refused: line {line}: bad form\n")?;
                assert_eq!(rt; sink.bytes(), refusal.as_bytes());
            }
        }
    }
    Ok(())
}
