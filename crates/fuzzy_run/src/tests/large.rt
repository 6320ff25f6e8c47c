// With ample memory no size makes a body give up: scripts whose reports tell no want of memory, up to the limits of a script.
use super::*;
use crate::tests::in_turn::is_the_same;
use memchr::memmem;

/// A script that begins so and goes on with so many appends of `a` to x, and then with these lines.
pub fn after_appends(
    alloc: Global,
    begin: &str,
    count: u32,
    lines: &str,
) -> Result<String, AllocError> {
    let mut script = String::from_str(alloc, begin)?;
    for _ in 0..count {
        script.push_str("a append x p\n")?;
    }
    script.push_str(lines)?;
    Ok(script)
}

/// The script is done, its report tells no want of memory, and it has this line.
fn is_done_whole<R: Threads + Wait + Sync + Abort>(
    alloc: Global,
    rt: &R,
    script: &[u8],
    line: &str,
) -> Result<(), Fail> {
    let (status, sink) = step_on(alloc, rt, script)?;
    assert_eq!(rt; status, Status::Done);
    assert!(rt; memmem::find(sink.bytes(), b"nomemory").is_none());
    assert!(rt; memmem::find(sink.bytes(), line.as_bytes()).is_some());
    Ok(())
}

#[test]
fn thousands_of_nodes_are_carried_played_and_trimmed(rt: HostRuntime) -> Result<(), Fail> {
    let lines = "b pull e x\nb sync x\na sync x\na trim x\n";
    let script = after_appends(rt.alloc(), TWO_REGIONS, 4_200, lines)?;
    is_done_whole(
        rt.alloc(),
        &rt,
        script.as_bytes(),
        "\n4209 sync ok x?1/4200,0 plays 4200\n",
    )
}

/// Three clients in two regions, and colours of which each client appends to two alone when it begins or ends.
pub const WITH_TURNS: &str =
    "fuzzylog 1\nregions e w\ncolours x m n o p q r\nclient a e\nclient b w\nclient c w\nbegin\n";

/// What the western column x has where it carried so many nodes of `a` by one event, and nothing else has come.
fn carried_at_once(alloc: Global, count: u32) -> Result<String, AllocError> {
    let mut column = String::from_str(alloc, "\ncolumn w x\n0 b carry e 0")?;
    for number in 0..count {
        column.push_str(format!(in alloc; " a.{}:{}/0,0", number, number + 1)?.as_str())?;
    }
    column.push_str("\n= clock 0 line - queue - cut 200,0 base 0,0\n")?;
    Ok(column)
}

#[test]
fn two_hundred_nodes_come_by_one_carry(rt: HostRuntime) -> Result<(), Fail> {
    let lines = "a append m,n end\nb append o,p begin\nb pull e x\n";
    let script = after_appends(rt.alloc(), WITH_TURNS, 200, lines)?;
    let column = carried_at_once(rt.alloc(), 200)?;
    is_the_same(
        rt.alloc(),
        &rt,
        script.as_bytes(),
        [1, 0, 0],
        column.as_str(),
    )
}

/// A script of one append and of empty lines up to this line, which has the byte as often as so many bytes in all ask for.
fn padded(alloc: Global, bytes: usize, line: u32, byte: u8) -> Result<Vec<u8>, AllocError> {
    let short = b"fuzzylog 1\nregions r\ncolours x\nclient a r\nbegin\na append x p\n";
    let mut script = short.as_slice().to_vec(alloc)?;
    for _ in 7..line {
        script.push(b'\n')?;
    }
    for _ in script.len()..bytes {
        script.push(byte)?;
    }
    Ok(script)
}

/// How many bytes a script has, its last line and the byte there, and what is refused, if it is.
const PADDED: [(usize, u32, u8, Option<&str>); 9] = [
    (1_048_575, 7, b'#', None),
    (1_048_576, 7, b'#', None),
    (
        1_048_577,
        7,
        b'#',
        Some("refused: line 0: script too long\n"),
    ),
    (20_100, 19_999, b'#', None),
    (20_100, 20_000, b'#', None),
    (
        20_100,
        20_000,
        b'\t',
        Some("refused: line 20000: not ascii\n"),
    ),
    (
        20_100,
        20_001,
        b'#',
        Some("refused: line 20001: too many lines\n"),
    ),
    (
        20_100,
        20_001,
        b'\t',
        Some("refused: line 20001: too many lines\n"),
    ),
    // The last line feed ends line 20,000.
    (0, 20_001, b'#', None),
];

#[test]
fn a_script_has_up_to_1048576_bytes_and_20000_lines(rt: HostRuntime) -> Result<(), Fail> {
    for (bytes, line, byte, refusal) in PADDED {
        let script = padded(rt.alloc(), bytes, line, byte)?;
        let (status, sink) = step_on(rt.alloc(), &rt, &script)?;
        match refusal {
            None => assert_eq!(rt; status, Status::Done),
            Some(refusal) => {
                assert_eq!(rt; status, Status::Refused);
                assert_eq!(rt; sink.bytes(), refusal.as_bytes());
            }
        }
    }
    Ok(())
}

/// One region, its sixteen colours, and sixteen clients, each of whom appends to all colours as often as is said.
fn widest(alloc: Global, rounds: u32) -> Result<String, AllocError> {
    let mut script = String::from_str(
        alloc,
        "fuzzylog 1\nregions r\ncolours a b c d e f g h i j k l m n o p\n",
    )?;
    for client in b'a'..=b'p' {
        script.push_str(format!(in alloc; "client c{} r\n", client as char)?.as_str())?;
    }
    script.push_str("begin\n")?;
    for _ in 0..rounds {
        for client in b'a'..=b'p' {
            let name = client as char;
            script.push_str(format!(in alloc;
                "c{name} append a,b,c,d,e,f,g,h,i,j,k,l,m,n,o,p t\n"
            )?.as_str())?;
        }
    }
    Ok(script)
}

#[test]
fn sixteen_clients_fill_sixteen_colours(rt: HostRuntime) -> Result<(), Fail> {
    let script = widest(rt.alloc(), 4)?;
    for word in ["step", "run"] {
        let (status, sink) = run_over(rt.alloc(), &rt, word, script.as_bytes(), &[], &[])?;
        assert_eq!(rt; status, Status::Done);
        assert!(rt; memmem::find(sink.bytes(), b"nomemory").is_none());
        assert!(rt; sink.bytes().ends_with(b" queue - cut 64 base 0\n"));
    }
    Ok(())
}
