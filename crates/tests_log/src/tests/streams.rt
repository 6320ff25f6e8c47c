// Each call once with ample memory, and faults in mid-stream.
use fuzzy_io::{
    Failed, MemorySink, MemorySource, ReadSource, ReadStop, Sink, Source, WriteSink, read_all,
    write_all,
};
use std::test::Fail;

#[test]
fn a_source_whose_second_read_fails_goes_on_after_it(rt: HostRuntime) -> Result<(), Fail> {
    let mut source = MemorySource::open(rt.alloc(), b"abc", 2, &[1])?;
    let mut piece = [0; 4];
    assert_eq!(rt; source.read(&mut piece), Ok(2));
    assert_eq!(rt; piece, [b'a', b'b', 0, 0]);
    assert_eq!(rt; source.read(&mut piece), Err(Failed));
    assert_eq!(rt; source.read(&mut piece), Ok(1));
    assert_eq!(rt; piece, [b'c', b'b', 0, 0]);
    assert_eq!(rt; source.read(&mut piece), Ok(0));
    Ok(())
}

#[test]
fn all_is_read_up_to_the_limit(rt: HostRuntime) -> Result<(), Fail> {
    for (most, failing, outcome) in [
        (6, [9], None),
        (7, [9], None),
        (5, [9], Some(ReadStop::TooLong)),
        (6, [1], Some(ReadStop::Failed)),
    ] {
        let mut source = MemorySource::open(rt.alloc(), b"abcdef", 4, &failing)?;
        match read_all(rt.alloc(), &mut source, most) {
            Ok(bytes) => {
                assert!(rt; outcome.is_none());
                assert_eq!(rt; bytes.as_slice(), b"abcdef".as_slice());
            }
            Err(stop) => assert_eq!(rt; Some(stop), outcome),
        }
    }
    Ok(())
}

#[test]
fn a_sink_whose_first_write_fails_holds_nothing(rt: HostRuntime) -> Result<(), Fail> {
    let mut sink = MemorySink::open(rt.alloc(), 100, &[0])?;
    assert_eq!(rt; write_all(&mut sink, b"report 1\n"), Err(Failed));
    assert!(rt; sink.bytes().is_empty());
    assert_eq!(rt; sink.write(b"again"), Ok(5));
    assert_eq!(rt; sink.bytes(), b"again".as_slice());
    Ok(())
}

#[test]
fn a_sink_that_takes_seven_bytes_gets_all_in_pieces(rt: HostRuntime) -> Result<(), Fail> {
    let mut sink = MemorySink::open(rt.alloc(), 7, &[])?;
    assert_eq!(rt; sink.write(b"one two three"), Ok(7));
    assert_eq!(rt; write_all(&mut sink, b"; and then the rest"), Ok(()));
    assert_eq!(rt; sink.bytes(), b"one two; and then the rest".as_slice());
    let mut failing = MemorySink::open(rt.alloc(), 7, &[1])?;
    assert_eq!(rt; write_all(&mut failing, b"one two three"), Err(Failed));
    assert_eq!(rt; failing.bytes(), b"one two".as_slice());
    Ok(())
}

#[test]
fn a_reader_is_read_to_its_end(rt: HostRuntime) -> Result<(), Fail> {
    let mut source = ReadSource::open(b"from a reader".as_slice());
    let bytes = read_all(rt.alloc(), &mut source, 100)?;
    assert_eq!(rt; bytes.as_slice(), b"from a reader".as_slice());
    Ok(())
}

#[test]
fn the_end_of_a_reader_is_no_fault(rt: HostRuntime) -> Result<(), Fail> {
    let mut source = ReadSource::open(b"end".as_slice());
    let mut piece = [0; 4];
    for count in [3, 0, 0] {
        assert_eq!(rt; source.read(&mut piece), Ok(count));
    }
    Ok(())
}

#[test]
fn just_the_listed_writes_fail(rt: HostRuntime) -> Result<(), Fail> {
    let mut sink = MemorySink::open(rt.alloc(), 1, &[2, 9])?;
    for number in 0..24 {
        let wanted = if number == 2 || number == 9 {
            Err(Failed)
        } else {
            Ok(1)
        };
        assert_eq!(rt; sink.write(b"ab"), wanted, "{number}");
    }
    assert_eq!(rt; sink.bytes(), b"aaaaaaaaaaaaaaaaaaaaaa".as_slice());
    Ok(())
}

#[test]
fn a_writer_gets_all_and_one_that_takes_nothing_is_a_fault(rt: HostRuntime) -> Result<(), Fail> {
    let mut written = Vec::new(rt.alloc());
    let mut sink = WriteSink::open(&mut written);
    assert_eq!(rt; write_all(&mut sink, b"to a writer"), Ok(()));
    assert_eq!(rt; written.as_slice(), b"to a writer".as_slice());
    let mut room = [0; 4];
    let mut full = WriteSink::open(room.as_mut_slice());
    assert_eq!(rt; write_all(&mut full, b"to a writer"), Err(Failed));
    assert_eq!(rt; room, *b"to a");
    Ok(())
}
