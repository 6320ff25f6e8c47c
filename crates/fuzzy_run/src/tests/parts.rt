// Scripts so long that they are read in parts on threads: what comes of each is what comes of it read as a whole.
use super::threads::run_at;
use super::*;

/// Two clients, each with a colour of its own, and in the middle of their commands these lines; a line that is passed over
/// stands between every two of the first half.
fn with_lines(alloc: Global, lines: &str) -> Result<String, AllocError> {
    let header = "fuzzylog 1\nregions e\ncolours x y\nclient a e\nclient b e\nqueue q e x\nbegin\n";
    let mut script = String::from_str(alloc, header)?;
    for _ in 0..400 {
        script.push_str("a append x one\n\nb append y two\n# passed over\na sync x\n")?;
    }
    script.push_str(lines)?;
    for _ in 0..400 {
        script.push_str("b append y three\nb sync y\nb append y four\n")?;
    }
    Ok(script)
}

/// Lines in the middle, of which line 2,008 is the first, and what comes of the script.
const IN_THE_MIDDLE: [(&str, Status); 5] = [
    ("a append x whole\n", Status::Done),
    // Its client has no command behind it.
    ("a enq q job\na stop 0 x,y left\n", Status::Done),
    // It has one.
    ("a stop 0 x,y left\na append x more\n", Status::Refused),
    ("b append x,z far\n", Status::Refused),
    ("b sync x y\nb dance\n", Status::Refused),
];

#[test]
fn what_a_long_script_comes_to_is_the_same_on_threads(rt: HostRuntime) -> Result<(), Fail> {
    for (lines, wanted) in IN_THE_MIDDLE.iter() {
        let script = with_lines(rt.alloc(), lines)?;
        let (status, report) = step_on(rt.alloc(), &rt, script.as_bytes())?;
        assert_eq!(rt; status, *wanted);
        let (status, sink) = run_at(rt.alloc(), &rt, script.as_bytes(), &OpenGate)?;
        assert_eq!(rt; status, *wanted);
        assert_eq!(rt; sink.bytes(), report.bytes());
    }
    Ok(())
}

#[test]
fn the_first_faulty_line_of_a_long_script_is_told(rt: HostRuntime) -> Result<(), Fail> {
    let script = with_lines(rt.alloc(), "b append x,z far\nb dance\n")?;
    let (status, sink) = run_at(rt.alloc(), &rt, script.as_bytes(), &OpenGate)?;
    assert_eq!(rt; status, Status::Refused);
    assert_eq!(rt;
        sink.bytes(),
        b"refused: line 2008: unknown colour\n".as_slice()
    );
    Ok(())
}
