// The length of texts, and sets up to the last colour.
use log_node::{Colours, MAX_COLOURS, MAX_TEXT, NodeFault, Text};
use std::test::Fail;

#[test]
fn texts_are_made_of_1_to_200_bytes(rt: HostRuntime) -> Result<(), Fail> {
    for len in [0, 1, MAX_TEXT - 1, MAX_TEXT, MAX_TEXT + 1, 1000] {
        let bytes = vec![in rt.alloc(); b'x'; len]?;
        let made = match Text::make(rt.alloc(), &bytes) {
            Ok(text) => Ok(text.as_bytes().len()),
            Err(fault) => Err(fault),
        };
        let fits = len > 0 && len <= MAX_TEXT;
        let told = NodeFault::TextLength { len: len as u64 };
        assert_eq!(rt; made, if fits { Ok(len) } else { Err(told) });
    }
    Ok(())
}

#[test]
fn a_loop_over_a_set_meets_its_members(rt: HostRuntime) -> Result<(), Fail> {
    let last = MAX_COLOURS - 1;
    let set = Colours::of(&[3, last, 0, 5, 3]);
    let mut met = Vec::new(rt.alloc());
    for colour in set.members() {
        met.push(colour)?;
    }
    assert_eq!(rt; met.as_slice(), [0, 3, 5, last].as_slice());
    assert_eq!(rt; set.count(), 4);
    assert_eq!(rt; set.first(), Some(0));
    assert!(rt; Colours::NONE.members().next().is_none());
    Ok(())
}
